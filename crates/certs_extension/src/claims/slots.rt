//! The values of the extensions of a certificate, a slot for each kind.

ghost use Rattle.std.specs.Prelude.{◌≡◌, ◌≢◌, [], IfErr, OnErr, OnOk};
ghost use Rattle.certs_extension.specs.Raw.{extension_value};
ghost use Rattle.certs_extension.specs.ExtensionKinds.{octets_of};
ghost use Rattle.certs_extension.specs.Filling.{Adds, CannotPut, IsFault, Puts, Refuses};
ghost use Rattle.certs_extension.specs.Slots.{AreSlots};

use crate::access::{Rsync, SubjectAccess};
use crate::claims::kinds::{Kind, kind_of};
use crate::claims::values::{
    put_asn, put_authority_access, put_authority_key_identifier, put_basic_constraints,
    put_crl_distribution, put_extended_key_usage, put_ip, put_key_usage, put_policies,
    put_subject_access, put_subject_key_identifier,
};
use crate::forms::{AsResources, IpFamilies, KeyUsage, Overclaim};
use crate::{ExtendedKeyUsage, Extension, ExtensionError, KeyIdentifier, skip_unknown};
use std::alloc::Global;

/// The values of the extensions that were there.
#[derive(Drop)]
pub struct Slots {
    /// Whether the subject is an authority (RFC 6487 4.8.1).
    pub basic_ca: Option<bool>,
    /// The identifier of the subject's key (4.8.2).
    pub subject_key_identifier: Option<KeyIdentifier>,
    /// The identifier of the issuer's key (4.8.3).
    pub authority_key_identifier: Option<KeyIdentifier>,
    /// What the subject's key is for (4.8.4).
    pub key_usage: Option<KeyUsage>,
    /// What else it is for (4.8.5).
    pub extended_key_usage: Option<ExtendedKeyUsage>,
    /// Where the revocation list is found (4.8.6).
    pub crl_uri: Option<Rsync>,
    /// Where the issuer's certificate is found (4.8.7).
    pub ca_issuer: Option<Rsync>,
    /// Where the subject publishes (4.8.8).
    pub access: Option<SubjectAccess>,
    /// By which policy the certificate was issued (4.8.9).
    pub policy: Option<Overclaim>,
    /// IP resources, and the policy under which they stand (4.8.10).
    pub ip: Option<(Overclaim, IpFamilies)>,
    /// AS resources, and the policy under which they stand (4.8.11).
    pub asn: Option<(Overclaim, AsResources)>,
}

impl Slots {
    /// No extension was there.
    pub fn new() -> Slots
        ensures { AreSlots [] result }
    {
        Slots {
            basic_ca: None,
            subject_key_identifier: None,
            authority_key_identifier: None,
            key_usage: None,
            extended_key_usage: None,
            crl_uri: None,
            ca_issuer: None,
            access: None,
            policy: None,
            ip: None,
            asn: None,
        }
    }

    // One more extension, which is of that kind.
    fn put_kind(
        &mut self,
        alloc: Global,
        kind: Kind,
        extension: Extension,
    ) -> Result<(), ExtensionError>
        ensures ok { OnOk result
            (Puts (octets_of kind) (extension_value extension) self.old self.new) }
        ensures refused { IfErr result (CannotPut kind (extension_value extension) self.old) }
        ensures same { OnErr result (self.new ≡ self.old) }
    {
        match kind {
            Kind::BasicConstraints => put_basic_constraints(&mut self.basic_ca, extension),
            Kind::SubjectKeyIdentifier => put_subject_key_identifier(
                &mut self.subject_key_identifier,
                alloc,
                extension,
            ),
            Kind::AuthorityKeyIdentifier => put_authority_key_identifier(
                &mut self.authority_key_identifier,
                alloc,
                extension,
            ),
            Kind::KeyUsage => put_key_usage(&mut self.key_usage, alloc, extension),
            Kind::ExtendedKeyUsage => put_extended_key_usage(
                &mut self.extended_key_usage,
                alloc,
                extension,
            ),
            Kind::CrlDistributionPoints => put_crl_distribution(
                &mut self.crl_uri,
                alloc,
                extension,
            ),
            Kind::AuthorityInfoAccess => put_authority_access(
                &mut self.ca_issuer,
                alloc,
                extension,
            ),
            Kind::SubjectInfoAccess => put_subject_access(&mut self.access, alloc, extension),
            Kind::CertificatePolicies => put_policies(&mut self.policy, alloc, extension),
            Kind::IpResources => put_ip(&mut self.ip, Overclaim::Refuse, alloc, extension),
            Kind::AsResources => put_asn(&mut self.asn, Overclaim::Refuse, alloc, extension),
            Kind::IpResourcesV2 => put_ip(&mut self.ip, Overclaim::Trim, alloc, extension),
            Kind::AsResourcesV2 => put_asn(&mut self.asn, Overclaim::Trim, alloc, extension),
            Kind::Unknown => skip_unknown(&extension),
        }
    }

    /// One more extension: its value is put into the slot of its kind, and an unknown one is passed
    /// over.
    ///
    /// `Duplicate` where the slot is filled, by either version of a kind of resources; else
    /// `Criticality` where it isn't as critical as it has to be; else `BadValue` where its octets
    /// don't begin with a value of its type, or `Memory` where none is left to read it.
    /// `UnknownCritical` where it is critical and unknown. The slots are as they were where it is
    /// refused.
    pub fn put(&mut self, alloc: Global, extension: Extension) -> Result<(), ExtensionError>
        ensures ok { OnOk result (Adds (extension_value extension) self.old self.new) }
        ensures refused { IfErr result (IsFault (extension_value extension) self.old) }
        ensures none { IfErr result
            (λ e. e ≢ ExtensionError.Memory → Refuses (extension_value extension) self.old) }
        ensures same { OnErr result (self.new ≡ self.old) }
    {
        let kind = kind_of(&extension.kind);
        self.put_kind(alloc, kind, extension)
    }
}
