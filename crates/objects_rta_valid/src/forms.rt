//! What is asked of all certificates at places: forms and moments.

ghost use Rattle.std.specs.Prelude.{◌↔◌, IsTrue};
ghost use Rattle.certs_verify.specs.certs_basics.Lists.{Each};
ghost use Rattle.certs_verify.specs.certs_key.Digesting.{digests_of};
ghost use Rattle.objects_rta_valid.specs.Places.{Stands};
ghost use Rattle.objects_rta_valid.specs.Certs.{HasIssuerForm, HasSignerForm, IsCurrent};

use crate::certs::{cert_at, has_issuer_form, has_signer_form, is_current};
use certs_verify::{Cert, Digester};
use objects_rta::Time;

/// Whether each certificate is valid at the moment.
pub(crate) fn are_current(certs: &[Cert], now: Time) -> bool
    ensures { IsTrue result ↔ Each (IsCurrent now) certs.now }
{
    let mut rest = certs;
    while let Some((cert, others)) = rest.split_first() {
        if !is_current(cert, now) {
            return false;
        }
        rest = others;
    }
    true
}

// Whether the certificate at the place has the form of a signer's.
fn is_signer_at<D: Digester>(certs: &[Cert], place: usize, strict: bool, digester: &D) -> bool
    ensures { IsTrue result ↔ Stands certs.now place (HasSignerForm
        (digests_of D.sha256_digest D.sha1_digest digester.now) strict) }
{
    match cert_at(certs, place) {
        Some(cert) => has_signer_form(cert, strict, digester),
        None => false,
    }
}

// Whether the certificate at the place has the form of an anchor's or an authority's.
fn is_issuer_at<D: Digester>(certs: &[Cert], place: usize, strict: bool, digester: &D) -> bool
    ensures { IsTrue result ↔ Stands certs.now place (HasIssuerForm
        (digests_of D.sha256_digest D.sha1_digest digester.now) strict) }
{
    match cert_at(certs, place) {
        Some(cert) => has_issuer_form(cert, strict, digester),
        None => false,
    }
}

/// Whether the certificates at these places have the form of signers'.
pub(crate) fn are_signers<D: Digester>(
    certs: &[Cert],
    places: &[usize],
    strict: bool,
    digester: &D,
) -> bool
    ensures { IsTrue result ↔ Each (λ place. Stands certs.now place (HasSignerForm
        (digests_of D.sha256_digest D.sha1_digest digester.now) strict)) places.now }
{
    let mut rest = places;
    while let Some((place, others)) = rest.split_first() {
        if !is_signer_at(certs, *place, strict, digester) {
            return false;
        }
        rest = others;
    }
    true
}

/// Whether the upper certificates of these neighbours have the form of anchors' or authorities'.
pub(crate) fn are_issuers<D: Digester>(
    certs: &[Cert],
    pairs: &[(usize, usize)],
    strict: bool,
    digester: &D,
) -> bool
    ensures { IsTrue result ↔ Each (λ q. Stands certs.now q.1 (HasIssuerForm
        (digests_of D.sha256_digest D.sha1_digest digester.now) strict)) pairs.now }
{
    let mut rest = pairs;
    while let Some((pair, others)) = rest.split_first() {
        if !is_issuer_at(certs, pair.1, strict, digester) {
            return false;
        }
        rest = others;
    }
    true
}
