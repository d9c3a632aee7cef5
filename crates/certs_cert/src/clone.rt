//! Copies of what is signed of a certificate. Octets and sets are shared.

ghost use Rattle.std.specs.Prelude.{◌≡◌, IfOk};

use crate::tbs::TbsCert;
use certs_extension::ExtendedKeyUsage;
use certs_extension::access::{Https, Rsync};
use certs_extension::claims::with_value;
use certs_extension::forms::{AsResources, IpResources};
use certs_x509::signed::{Name, PublicKey};
use std::alloc::AllocError;

// The issuer's name, the subject's, and the key.
type Named = (Name, Name, PublicKey);

// Where the revocation list is found, and the issuer's certificate.
type Issued = (Option<Rsync>, Option<Rsync>);

// Where the subject publishes: its folder, its manifest, the signed object and the notification
// file.
type Published = (Option<Rsync>, Option<Rsync>, Option<Rsync>, Option<Https>);

// IPv4 resources, IPv6 resources, and AS resources.
type Numbers = (IpResources, IpResources, AsResources);

// All fields that aren't copied by themselves.
type Copies = (
    ((Named, Option<ExtendedKeyUsage>), (Issued, Published)),
    Numbers,
);

// A copy of the purposes, if there are any.
fn purposes_copied(
    purposes: &Option<ExtendedKeyUsage>,
) -> Result<Option<ExtendedKeyUsage>, AllocError>
    ensures { IfOk result (λ copy. copy ≡ purposes.now) }
{
    match purposes {
        Some(purposes) => Ok(Some(purposes.clone()?)),
        None => Ok(None),
    }
}

// A copy of an rsync URI, if there is one.
fn rsync_copied(uri: &Option<Rsync>) -> Result<Option<Rsync>, AllocError>
    ensures { IfOk result (λ copy. copy ≡ uri.now) }
{
    match uri {
        Some(uri) => Ok(Some(uri.clone()?)),
        None => Ok(None),
    }
}

// A copy of an https URI, if there is one.
fn https_copied(uri: &Option<Https>) -> Result<Option<Https>, AllocError>
    ensures { IfOk result (λ copy. copy ≡ uri.now) }
{
    match uri {
        Some(uri) => Ok(Some(uri.clone()?)),
        None => Ok(None),
    }
}

// A copy of IP resources.
fn ip_copied(resources: &IpResources) -> Result<IpResources, AllocError>
    ensures { IfOk result (λ copy. copy ≡ resources.now) }
{
    resources.clone()
}

// A copy of AS resources.
fn as_copied(resources: &AsResources) -> Result<AsResources, AllocError>
    ensures { IfOk result (λ copy. copy ≡ resources.now) }
{
    resources.clone()
}

// Copies of the names and of the key.
fn named_copied(tbs: &TbsCert) -> Result<Named, AllocError>
    ensures { IfOk result (λ copy. copy ≡ (tbs.now.issuer, tbs.now.subject, tbs.now.key)) }
{
    let issuer = tbs.issuer.clone()?;
    let names = with_value(issuer, tbs.subject.clone())?;
    let ((issuer, subject), key) = with_value(names, tbs.subject_public_key_info.clone())?;
    Ok((issuer, subject, key))
}

// Copies of the URIs that name the issuer's revocation list and its certificate.
fn issued_copied(tbs: &TbsCert) -> Result<Issued, AllocError>
    ensures { IfOk result (λ copy. copy ≡ (tbs.now.crl_uri, tbs.now.ca_issuer)) }
{
    let crl_uri = rsync_copied(&tbs.crl_uri)?;
    with_value(crl_uri, rsync_copied(&tbs.ca_issuer))
}

// Copies of the places where the subject publishes.
fn published_copied(tbs: &TbsCert) -> Result<Published, AllocError>
    ensures { IfOk result (λ copy. copy ≡ (
      tbs.now.access.repository,
      tbs.now.access.manifest,
      tbs.now.access.object,
      tbs.now.access.notify,
    )) }
{
    let repository = rsync_copied(&tbs.ca_repository)?;
    let authority = with_value(repository, rsync_copied(&tbs.rpki_manifest))?;
    let files = with_value(authority, rsync_copied(&tbs.signed_object))?;
    let (((repository, manifest), object), notify) = with_value(
        files,
        https_copied(&tbs.rpki_notify),
    )?;
    Ok((repository, manifest, object, notify))
}

// Copies of all places.
fn places_copied(tbs: &TbsCert) -> Result<(Issued, Published), AllocError>
    ensures { IfOk result (λ copy. copy ≡ (
      (tbs.now.crl_uri, tbs.now.ca_issuer),
      (
        tbs.now.access.repository,
        tbs.now.access.manifest,
        tbs.now.access.object,
        tbs.now.access.notify,
      ),
    )) }
{
    let issued = issued_copied(tbs)?;
    with_value(issued, published_copied(tbs))
}

// Copies of the resources.
fn numbers_copied(tbs: &TbsCert) -> Result<Numbers, AllocError>
    ensures { IfOk result (λ copy. copy ≡ (tbs.now.v4, tbs.now.v6, tbs.now.asn)) }
{
    let v4 = ip_copied(&tbs.v4_resources)?;
    let addresses = with_value(v4, ip_copied(&tbs.v6_resources))?;
    let ((v4, v6), asn) = with_value(addresses, as_copied(&tbs.as_resources))?;
    Ok((v4, v6, asn))
}

// The fields, with copies of those that aren't copied by themselves.
fn with_copies(tbs: &TbsCert, copies: Copies) -> TbsCert
    ensures { result ≡ record tbs.now {
      issuer = copies.0.0.0.0;
      subject = copies.0.0.0.1;
      key = copies.0.0.0.2;
      extended_key_usage = copies.0.0.1;
      crl_uri = copies.0.1.0.0;
      ca_issuer = copies.0.1.0.1;
      access = record {
        repository = copies.0.1.1.0;
        manifest = copies.0.1.1.1;
        object = copies.0.1.1.2;
        notify = copies.0.1.1.3;
      };
      v4 = copies.1.0;
      v6 = copies.1.1;
      asn = copies.1.2;
    } }
{
    let (((named, extended_key_usage), (issued, published)), numbers) = copies;
    let (issuer, subject, subject_public_key_info) = named;
    let (crl_uri, ca_issuer) = issued;
    let (ca_repository, rpki_manifest, signed_object, rpki_notify) = published;
    let (v4_resources, v6_resources, as_resources) = numbers;
    TbsCert {
        serial_number: tbs.serial_number,
        signature: tbs.signature,
        issuer,
        validity: tbs.validity,
        subject,
        subject_public_key_info,
        basic_ca: tbs.basic_ca,
        subject_key_identifier: tbs.subject_key_identifier,
        authority_key_identifier: tbs.authority_key_identifier,
        key_usage: tbs.key_usage,
        extended_key_usage,
        crl_uri,
        ca_issuer,
        ca_repository,
        rpki_manifest,
        signed_object,
        rpki_notify,
        overclaim: tbs.overclaim,
        v4_resources,
        v6_resources,
        as_resources,
    }
}

/// A clone has the same fields. Octets and sets are shared, so that memory is taken for the purposes
/// alone; but a count of copies can be full.
impl Clone for TbsCert {
    ghost is_clone = { λ tbs copy. copy ≡ tbs };

    fn clone(&self) -> Result<Self, AllocError> {
        let named = named_copied(self)?;
        let holder = with_value(named, purposes_copied(&self.extended_key_usage))?;
        let placed = with_value(holder, places_copied(self))?;
        let copies = with_value(placed, numbers_copied(self))?;
        Ok(with_copies(self, copies))
    }
}
