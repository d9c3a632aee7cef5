//! The identifiers of keys that an attestation carries, lent for the search of paths.

ghost use Rattle.std.specs.Prelude.{◌≡◌, ◌++◌, IfOk, OnOk, map};
ghost use Rattle.objects_rta_valid.specs.Nodes.{each_octets};
ghost use Rattle.objects_rta_valid.specs.Certs.{node_of};
ghost use Rattle.objects_rta_valid.specs.Vouched.{authority_of, subject_of, upper_key, upper_keys};

use crate::certs::cert_at;
use crate::paths::NodeKeys;
use certs_verify::Cert;
use objects_rta::{Crl, KeyIdentifier, SignerInfo};
use std::alloc::{AllocError, Global};
use std::marker::Model;

/// The identifiers of a certificate's key and of its issuer's, and whether it is an authority's. Contracts see what paths know
/// of it.
#[derive(Debug, Drop)]
pub(crate) struct CertKeys {
    subject: KeyIdentifier,
    authority: Option<KeyIdentifier>,
    issues: bool,
}

impl Model for CertKeys {
    ghost use Rattle.objects_rta_valid.specs.Nodes.{Node};

    ghost Value = { Node };

    ghost view = { λ k. record {
      subject = k.subject;
      authority = k.authority;
      issues = k.issues;
    } };
}

impl CertKeys {
    // Those of a certificate.
    fn of(cert: &Cert) -> CertKeys
        ensures { result ≡ node_of cert.now }
    {
        let tbs = cert.tbs();
        CertKeys {
            subject: tbs.subject_key_identifier(),
            authority: tbs.authority_key_identifier(),
            issues: tbs.basic_ca().unwrap_or(false),
        }
    }

    // What paths know of it, lent.
    fn lent(&self) -> NodeKeys<'_>
        ensures { result ≡ self.now }
    {
        match &self.authority {
            Some(authority) => NodeKeys::new(
                self.subject.as_slice(),
                Some(authority.as_slice()),
                self.issues,
            ),
            None => NodeKeys::new(self.subject.as_slice(), None, self.issues),
        }
    }
}

/// The keys of certificates, in their order.
pub(crate) fn keys_of(alloc: Global, certs: &[Cert]) -> Result<Vec<CertKeys>, AllocError>
    ensures { IfOk result (λ v. v.items ≡ map node_of certs.now) }
{
    let mut keys = Vec::new(alloc);
    let mut rest = certs;
    while let Some((cert, others)) = rest.split_first() {
        keys.push(CertKeys::of(cert))?;
        rest = others;
    }
    Ok(keys)
}

/// The keys of certificates, lent.
pub(crate) fn lend_nodes(alloc: Global, keys: &[CertKeys]) -> Result<Vec<NodeKeys<'_>>, AllocError>
    ensures { IfOk result (λ v. v.items ≡ keys.now) }
{
    let mut nodes = Vec::new(alloc);
    let mut rest = keys;
    while let Some((key, others)) = rest.split_first() {
        nodes.push(key.lent())?;
        rest = others;
    }
    Ok(nodes)
}

/// The identifiers of signers, in their order.
pub(crate) fn sids_of(
    alloc: Global,
    signers: &[SignerInfo],
) -> Result<Vec<KeyIdentifier>, AllocError>
    ensures { IfOk result (λ v. v.items ≡ map (λ s. s.sid) signers.now) }
{
    let mut sids = Vec::new(alloc);
    let mut rest = signers;
    while let Some((signer, others)) = rest.split_first() {
        sids.push(signer.sid())?;
        rest = others;
    }
    Ok(sids)
}

/// Identifiers, lent.
pub(crate) fn lend_keys(alloc: Global, keys: &[KeyIdentifier]) -> Result<Vec<&[u8]>, AllocError>
    ensures { IfOk result (λ v. each_octets v.items ≡ keys.now) }
{
    let mut lent = Vec::new(alloc);
    let mut rest = keys;
    while let Some((key, others)) = rest.split_first() {
        lent.push(key.as_slice())?;
        rest = others;
    }
    Ok(lent)
}

/// The identifiers of certificates' keys, in their order.
pub(crate) fn subjects_of(alloc: Global, certs: &[Cert]) -> Result<Vec<KeyIdentifier>, AllocError>
    ensures { IfOk result (λ v. v.items ≡ map subject_of certs.now) }
{
    let mut subjects = Vec::new(alloc);
    let mut rest = certs;
    while let Some((cert, others)) = rest.split_first() {
        subjects.push(cert.tbs().subject_key_identifier())?;
        rest = others;
    }
    Ok(subjects)
}

/// The identifiers of the keys of lists' issuers, in their order.
pub(crate) fn authorities_of(alloc: Global, crls: &[Crl]) -> Result<Vec<KeyIdentifier>, AllocError>
    ensures { IfOk result (λ v. v.items ≡ map authority_of crls.now) }
{
    let mut authorities = Vec::new(alloc);
    let mut rest = crls;
    while let Some((crl, others)) = rest.split_first() {
        authorities.push(*crl.as_cert_list().authority_key_identifier())?;
        rest = others;
    }
    Ok(authorities)
}

// Adds the identifier of the key of the certificate at the place, if there is one.
fn push_upper(keys: &mut Vec<KeyIdentifier>, certs: &[Cert], place: usize) -> Result<(), AllocError>
    ensures { OnOk result (keys.new.items ≡ keys.old.items ++ upper_key certs.now place) }
{
    if let Some(cert) = cert_at(certs, place) {
        keys.push(cert.tbs().subject_key_identifier())?;
    }
    Ok(())
}

/// The identifiers of the keys of the neighbours' upper certificates, in their order.
pub(crate) fn uppers_of(
    alloc: Global,
    certs: &[Cert],
    pairs: &[(usize, usize)],
) -> Result<Vec<KeyIdentifier>, AllocError>
    ensures { IfOk result (λ v. v.items ≡ upper_keys certs.now pairs.now) }
{
    let mut keys = Vec::new(alloc);
    let mut rest = pairs;
    while let Some((pair, others)) = rest.split_first() {
        push_upper(&mut keys, certs, pair.1)?;
        rest = others;
    }
    Ok(keys)
}
