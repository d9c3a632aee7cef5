//! Resources, written (RFC 6487 4.8.10, 4.8.11; RFC 3779; RFC 8360 4.2).

ghost use Rattle.std.specs.Prelude.{◌≡◌};
ghost use Rattle.certs.specs.resources_chain.Claims.{Choice};
ghost use Rattle.certs.specs.resources_ip.WrittenFamilies.{both, is_said as is_said_of, says_any};
ghost use Rattle.certs.specs.Resources.{addresses_extension, asns_extension, said_families, said_numbers};
ghost use Rattle.certs.specs.Values.{addresses};

use crate::written::extension::{ExtensionEncoder, encode_extension};
use certs_extension::{AsResources, IpResources, Overclaim, OverclaimIds};
use certs_key::Mode;
use certs_key::encode::{EncodeError, Values};
use std::io::Write;
use std::marker::Model;

/// IP resources: a SEQUENCE of the families that aren't missing, IPv4 first (RFC 3779 2.2.3).
/// Contracts see both.
#[derive(Drop)]
pub struct IpValue<'a> {
    v4: &'a IpResources,
    v6: &'a IpResources,
}

impl<'a> Model for IpValue<'a> {
    ghost use Rattle.certs.specs.resources_ip.Encodings.{FamilyChoices};
    ghost use Rattle.certs.specs.resources_ip.WrittenFamilies.{both};

    ghost Value = { FamilyChoices };

    ghost view = { λ v. both v.v4.now v.v6.now };
}

impl<'a> IpValue<'a> {
    // The IPv4 resources.
    fn first(&self) -> &'a IpResources
        ensures { result.now ≡ self.now.v4 }
    {
        self.v4
    }

    // The IPv6 resources.
    fn second(&self) -> &'a IpResources
        ensures { result.now ≡ self.now.v6 }
    {
        self.v6
    }
}

impl Values for IpValue<'_> {
    ghost trees = { λ v. (addresses v).trees };

    ghost writes = { λ v. (addresses v).writes };

    fn encoded_len(&self, mode: Mode) -> Result<usize, EncodeError> {
        let v4 = self.first();
        let v6 = self.second();
        let value = IpResources::encode_families(v4, v6);
        value.encoded_len(mode)
    }

    fn write_encoded<W: Write>(&self, mode: Mode, target: &mut W) -> Result<(), EncodeError> {
        let v4 = self.first();
        let v6 = self.second();
        let value = IpResources::encode_families(v4, v6);
        value.write_encoded(mode, target)
    }

    ghost spelled = { λ v. (addresses v).spelled };

    ghost one_text = { λ v. (addresses v).one_text };
}

// Whether anything is said of a family.
fn is_said(resources: &IpResources) -> bool
    ensures { result ≡ is_said_of resources.now }
{
    resources.is_present()
}

// Whether anything is said of one family at least.
fn is_any_said(v4: &IpResources, v6: &IpResources) -> bool
    ensures { result ≡ says_any (both v4.now v6.now) }
{
    is_said(v4) || is_said(v6)
}

// What is said of the families, if anything is.
fn families_said<'a>(v4: &'a IpResources, v6: &'a IpResources) -> Option<IpValue<'a>>
    ensures { result ≡ said_families (says_any (both v4.now v6.now)) (both v4.now v6.now) }
{
    if is_any_said(v4, v6) {
        return Some(IpValue { v4, v6 });
    }
    None
}

/// IP resources as an extension.
pub trait EncodeIpExtension: Sized {
    // What is said of a family.
    ghost choice: { Self → Choice };

    /// The extension of the policy with the resources of both families; none where both are missing.
    /// It is critical (RFC 6487 4.8.10, RFC 8360 4.2).
    fn encode_extension<'a>(
        overclaim: Overclaim,
        v4: &'a Self,
        v6: &'a Self,
    ) -> Option<ExtensionEncoder<IpValue<'a>>>
        ensures { result ≡ addresses_extension overclaim (both (choice v4.now) (choice v6.now)) };
}

impl EncodeIpExtension for IpResources {
    ghost choice = { λ resources. resources };

    fn encode_extension<'a>(
        overclaim: Overclaim,
        v4: &'a IpResources,
        v6: &'a IpResources,
    ) -> Option<ExtensionEncoder<IpValue<'a>>> {
        match families_said(v4, v6) {
            Some(value) => Some(encode_extension(overclaim.ip_res_id(), true, value)),
            None => None,
        }
    }
}

/// AS resources: the SEQUENCE of an extension's value (RFC 3779 3.2.3). Contracts see the choice.
#[derive(Drop)]
pub struct AsValue<'a>(&'a AsResources);

impl<'a> Model for AsValue<'a> {
    ghost use Rattle.certs.specs.resources_chain.Claims.{Choice};

    ghost Value = { Choice };

    ghost view = { λ v. v.0.now };
}

impl Values for AsValue<'_> {
    ghost use Rattle.certs.specs.Values.{asns};

    ghost trees = { λ v. (asns v).trees };

    ghost writes = { λ v. (asns v).writes };

    fn encoded_len(&self, mode: Mode) -> Result<usize, EncodeError> {
        self.0.encoded_len(mode)
    }

    fn write_encoded<W: Write>(&self, mode: Mode, target: &mut W) -> Result<(), EncodeError> {
        self.0.write_encoded(mode, target)
    }

    ghost spelled = { λ v. (asns v).spelled };

    ghost one_text = { λ v. (asns v).one_text };
}

// What is said of AS numbers, if anything is.
fn numbers_said(resources: &AsResources) -> Option<AsValue<'_>>
    ensures { result ≡ said_numbers resources.now }
{
    if resources.is_present() {
        return Some(AsValue(resources));
    }
    None
}

/// AS resources as an extension.
pub trait EncodeAsExtension {
    // What is said of AS numbers.
    ghost choice: { Self → Choice };

    /// The extension of the policy with the resources; none where they are missing. It is critical
    /// (RFC 6487 4.8.11, RFC 8360 4.2).
    fn encode_extension(&self, overclaim: Overclaim) -> Option<ExtensionEncoder<AsValue<'_>>>
        ensures { result ≡ asns_extension overclaim (choice self.now) };
}

impl EncodeAsExtension for AsResources {
    ghost choice = { λ resources. resources };

    fn encode_extension(&self, overclaim: Overclaim) -> Option<ExtensionEncoder<AsValue<'_>>> {
        match numbers_said(self) {
            Some(value) => Some(encode_extension(overclaim.as_res_id(), true, value)),
            None => None,
        }
    }
}
