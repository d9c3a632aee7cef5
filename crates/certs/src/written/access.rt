//! Where revocation lists, the issuer's certificate and what the subject publishes are found,
//! written (RFC 6487 4.8.6 to 4.8.8, RFC 8182 3.2).

ghost use Rattle.std.specs.Prelude.{◌≡◌, false, option_copied};
ghost use Rattle.certs.specs.certs_basics.Identifiers as id;
ghost use Rattle.certs.specs.Values.{extended_if, issuer_access, located};
ghost use Rattle.certs.specs.Values.{locations, or_some, some_access, subject_access};

use crate::written::extension::{ExtensionEncoder, encode_extension};
use crate::written::parts::{Context0, Identifier, Sequence, UriName};
use certs_extension::{Https, Rsync};
use certs_key::encode::{EncodeError, Values};
use certs_key::oid::{
    AD_CA_ISSUERS, AD_CA_REPOSITORY, AD_RPKI_MANIFEST, AD_RPKI_NOTIFY, AD_SIGNED_OBJECT,
    CE_CRL_DISTRIBUTION_POINTS, PE_AUTHORITY_INFO_ACCESS, PE_SUBJECT_INFO_ACCESS,
};
use certs_key::{ConstOid, Mode};
use std::io::Write;
use std::marker::Model;

/// Where the revocation list is found: one distribution point with one full name, a URI (RFC 6487
/// 4.8.6). Contracts see the URI.
#[derive(Drop)]
pub struct CrlValue<'a>(Sequence<Sequence<Context0<Context0<UriName<'a>>>>>);

impl<'a> Model for CrlValue<'a> {
    ghost use Rattle.std.specs.Prelude.{ℕ, List};

    ghost Value = { List ℕ };

    ghost view = { λ v. v.0.0.0.0.0.0.now };
}

impl Values for CrlValue<'_> {
    ghost use Rattle.certs.specs.Values.{crl};

    ghost trees = { λ v. (crl v).trees };

    ghost writes = { λ v. (crl v).writes };

    fn encoded_len(&self, mode: Mode) -> Result<usize, EncodeError> {
        self.0.encoded_len(mode)
    }

    fn write_encoded<W: Write>(&self, mode: Mode, target: &mut W) -> Result<(), EncodeError> {
        self.0.write_encoded(mode, target)
    }

    ghost spelled = { λ v. (crl v).spelled };

    ghost one_text = { λ v. (crl v).one_text };
}

/// The extension with the URI of the revocation list, if there is one; it isn't critical (RFC 6487
/// 4.8.6).
pub fn crl_extension(uri: Option<&Rsync>) -> Option<ExtensionEncoder<CrlValue<'_>>>
    ensures { result ≡ extended_if id.crl_distribution_points false (option_copied uri.entry) }
{
    match uri {
        Some(uri) => {
            let name = UriName(uri.as_slice());
            Some(encode_extension(
                CE_CRL_DISTRIBUTION_POINTS,
                false,
                CrlValue(Sequence(Sequence(Context0(Context0(name))))),
            ))
        }
        None => None,
    }
}

/// Where the issuer's certificate is found: one access description, of caIssuers (RFC 6487 4.8.7).
/// Contracts see the URI.
#[derive(Drop)]
pub struct IssuerAccessValue<'a>(UriName<'a>);

impl<'a> Model for IssuerAccessValue<'a> {
    ghost use Rattle.std.specs.Prelude.{ℕ, List};

    ghost Value = { List ℕ };

    ghost view = { λ v. v.0.0.now };
}

impl Values for IssuerAccessValue<'_> {
    ghost trees = { λ v. (issuer_access v).trees };

    ghost writes = { λ v. (issuer_access v).writes };

    fn encoded_len(&self, mode: Mode) -> Result<usize, EncodeError> {
        let value = Sequence(Sequence((Identifier(AD_CA_ISSUERS), self.0)));
        value.encoded_len(mode)
    }

    fn write_encoded<W: Write>(&self, mode: Mode, target: &mut W) -> Result<(), EncodeError> {
        let value = Sequence(Sequence((Identifier(AD_CA_ISSUERS), self.0)));
        value.write_encoded(mode, target)
    }

    ghost spelled = { λ v. (issuer_access v).spelled };

    ghost one_text = { λ v. (issuer_access v).one_text };
}

/// The extension with the URI of the issuer's certificate, if there is one; it isn't critical (RFC
/// 6487 4.8.7).
pub fn issuer_extension(uri: Option<&Rsync>) -> Option<ExtensionEncoder<IssuerAccessValue<'_>>>
    ensures { result ≡ extended_if id.authority_info_access false (option_copied uri.entry) }
{
    match uri {
        Some(uri) => Some(encode_extension(
            PE_AUTHORITY_INFO_ACCESS,
            false,
            IssuerAccessValue(UriName(uri.as_slice())),
        )),
        None => None,
    }
}

// An access description: a method, and a URI.
#[derive(Drop)]
struct LocationValue<'a> {
    method: ConstOid,
    uri: &'a [u8],
}

impl<'a> Model for LocationValue<'a> {
    ghost use Rattle.certs.specs.Values.{Located};

    ghost Value = { Located };

    ghost view = { λ l. record { method = l.method.0.now; uri = l.uri.now } };
}

impl Values for LocationValue<'_> {
    ghost use Rattle.certs.specs.Values.{location};

    ghost trees = { λ l. (location l).trees };

    ghost writes = { λ l. (location l).writes };

    fn encoded_len(&self, mode: Mode) -> Result<usize, EncodeError> {
        let value = Sequence((Identifier(self.method), UriName(self.uri)));
        value.encoded_len(mode)
    }

    fn write_encoded<W: Write>(&self, mode: Mode, target: &mut W) -> Result<(), EncodeError> {
        let value = Sequence((Identifier(self.method), UriName(self.uri)));
        value.write_encoded(mode, target)
    }

    ghost spelled = { λ l. (location l).spelled };

    ghost one_text = { λ l. (location l).one_text };
}

// The access description of that method, if there is a URI.
fn location_of<'a>(method: ConstOid, uri: Option<&'a [u8]>) -> Option<LocationValue<'a>>
    ensures { result ≡ located method.entry.0.now (option_copied uri.entry) }
{
    match uri {
        Some(uri) => Some(LocationValue { method, uri }),
        None => None,
    }
}

// The access descriptions of the four methods.
type Locations<'a> = (
    Option<LocationValue<'a>>,
    Option<LocationValue<'a>>,
    Option<LocationValue<'a>>,
    Option<LocationValue<'a>>,
);

/// Where the subject publishes: an access description for each URI that there is, in the order
/// repository, manifest, signed object, notification (RFC 6487 4.8.8, RFC 8182 3.2). Contracts see
/// the URIs.
#[derive(Drop)]
pub struct SubjectAccessValue<'a> {
    repository: Option<&'a [u8]>,
    manifest: Option<&'a [u8]>,
    object: Option<&'a [u8]>,
    notify: Option<&'a [u8]>,
}

impl<'a> Model for SubjectAccessValue<'a> {
    ghost use Rattle.std.specs.Prelude.{option_copied};
    ghost use Rattle.certs.specs.certs_extension.CertAccess.{AccessValue};

    ghost Value = { AccessValue };

    ghost view = { λ v. record {
      repository = option_copied v.repository;
      manifest = option_copied v.manifest;
      object = option_copied v.object;
      notify = option_copied v.notify;
    } };
}

impl<'a> SubjectAccessValue<'a> {
    // The access descriptions, in their order.
    fn fields(&self) -> Sequence<Locations<'a>>
        ensures { (result.0.0, (result.0.1, (result.0.2, result.0.3))) ≡ locations self.now }
    {
        Sequence((
            location_of(AD_CA_REPOSITORY, self.repository),
            location_of(AD_RPKI_MANIFEST, self.manifest),
            location_of(AD_SIGNED_OBJECT, self.object),
            location_of(AD_RPKI_NOTIFY, self.notify),
        ))
    }
}

impl Values for SubjectAccessValue<'_> {
    ghost trees = { λ v. (subject_access v).trees };

    ghost writes = { λ v. (subject_access v).writes };

    fn encoded_len(&self, mode: Mode) -> Result<usize, EncodeError> {
        let value = self.fields();
        value.encoded_len(mode)
    }

    fn write_encoded<W: Write>(&self, mode: Mode, target: &mut W) -> Result<(), EncodeError> {
        let value = self.fields();
        value.write_encoded(mode, target)
    }

    ghost spelled = { λ v. (subject_access v).spelled };

    ghost one_text = { λ v. (subject_access v).one_text };
}

// The octets of an rsync URI, if there is one.
fn rsync_octets(uri: Option<&Rsync>) -> Option<&[u8]>
    ensures { option_copied result ≡ option_copied uri.entry }
{
    match uri {
        Some(uri) => Some(uri.as_slice()),
        None => None,
    }
}

// The octets of an https URI, if there is one.
fn https_octets(uri: Option<&Https>) -> Option<&[u8]>
    ensures { option_copied result ≡ option_copied uri.entry }
{
    match uri {
        Some(uri) => Some(uri.as_slice()),
        None => None,
    }
}

// Whether there is an rsync URI, or others.
fn or_rsync(uri: Option<&Rsync>, others: bool) -> bool
    ensures { result ≡ or_some (option_copied uri.entry) others }
{
    match uri {
        Some(_) => true,
        None => others,
    }
}

// Whether there is an https URI, or others.
fn or_https(uri: Option<&Https>, others: bool) -> bool
    ensures { result ≡ or_some (option_copied uri.entry) others }
{
    match uri {
        Some(_) => true,
        None => others,
    }
}

// Whether there is a URI of any method.
fn is_any(
    repository: Option<&Rsync>,
    manifest: Option<&Rsync>,
    object: Option<&Rsync>,
    notify: Option<&Https>,
) -> bool
    ensures { result ≡ or_some (option_copied repository.entry)
        (or_some (option_copied manifest.entry)
        (or_some (option_copied object.entry) (or_some (option_copied notify.entry) false))) }
{
    let fourth = or_https(notify, false);
    let third = or_rsync(object, fourth);
    let second = or_rsync(manifest, third);
    or_rsync(repository, second)
}

/// What the subject publishes, if there is a URI of any method.
pub fn subject_access_value<'a>(
    repository: Option<&'a Rsync>,
    manifest: Option<&'a Rsync>,
    object: Option<&'a Rsync>,
    notify: Option<&'a Https>,
) -> Option<SubjectAccessValue<'a>>
    ensures { result ≡ some_access (record {
      repository = option_copied repository.entry;
      manifest = option_copied manifest.entry;
      object = option_copied object.entry;
      notify = option_copied notify.entry;
    }) }
{
    let is_some = is_any(repository, manifest, object, notify);
    let first = rsync_octets(repository);
    let second = rsync_octets(manifest);
    let third = rsync_octets(object);
    let fourth = https_octets(notify);
    if is_some {
        return Some(SubjectAccessValue {
            repository: first,
            manifest: second,
            object: third,
            notify: fourth,
        });
    }
    None
}

/// The extension with what the subject publishes, if that is anything; it isn't critical (RFC 6487
/// 4.8.8).
pub fn subject_extension(
    access: Option<SubjectAccessValue<'_>>,
) -> Option<ExtensionEncoder<SubjectAccessValue<'_>>>
    ensures { result ≡ extended_if id.subject_info_access false access.entry }
{
    match access {
        Some(access) => Some(encode_extension(PE_SUBJECT_INFO_ACCESS, false, access)),
        None => None,
    }
}
