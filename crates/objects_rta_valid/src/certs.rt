//! What is asked of a certificate: its form, its moment, and whose key signed it.

ghost use Rattle.std.specs.Prelude.{◌≡◌, ◌↔◌, ◌+◌, ◌≤◌, IsTrue, MatchOption, None, Some, length, slice_get};
ghost use Rattle.std.specs.List.{AllZip};
ghost use Rattle.certs_verify.specs.certs_extension.Verified.{IsAnchorAt, IsSignedAt, IsSignedBy};
ghost use Rattle.certs_verify.specs.certs_key.Digesting.{digests_of};
ghost use Rattle.objects_rta_valid.specs.Places.{Stands};
ghost use Rattle.objects_rta_valid.specs.Certs.{HasIssuerForm, HasSignerForm, IsCurrent, NamesItself};
ghost use Rattle.objects_rta_valid.specs.Vouched.{IsVouched};

use certs_verify::{Cert, Digester, Inspect, Verifier, Verify};
use objects_rta::Time;

/// The certificate at that place, if there is one.
pub(crate) fn cert_at(certs: &[Cert], place: usize) -> Option<&Cert>
    ensures { MatchOption result (slice_get certs.now place ≡ None)
        (λ c. slice_get certs.now place ≡ Some c.now) }
{
    certs.get(place)
}

/// Whether the moment lies in the validity, both ends included.
pub(crate) fn is_current(cert: &Cert, now: Time) -> bool
    ensures { IsTrue result ↔ IsCurrent now cert.now }
{
    let validity = cert.tbs().validity();
    validity.not_before() <= now && now <= validity.not_after()
}

/// Whether the certificate has the form of a signer's.
pub(crate) fn has_signer_form<D: Digester>(cert: &Cert, strict: bool, digester: &D) -> bool
    ensures { IsTrue result ↔ HasSignerForm
        (digests_of D.sha256_digest D.sha1_digest digester.now) strict cert.now }
{
    cert.inspect_detached_ee(strict, digester).is_ok()
}

/// Whether the certificate has the form of a trust anchor's where it names itself, else of an authority's.
pub(crate) fn has_issuer_form<D: Digester>(cert: &Cert, strict: bool, digester: &D) -> bool
    ensures { IsTrue result ↔ HasIssuerForm
        (digests_of D.sha256_digest D.sha1_digest digester.now) strict cert.now }
{
    if names_itself(cert) {
        return cert.inspect_ta(strict, digester).is_ok();
    }
    cert.inspect_ca(strict, digester).is_ok()
}

/// Whether the certificate names no issuer, or itself.
pub(crate) fn names_itself(cert: &Cert) -> bool
    ensures { IsTrue result ↔ NamesItself cert.now }
{
    cert.tbs().is_self_signed()
}

// Whether the certificate is an anchor by itself. The verifier is asked once, at most.
fn is_anchor<V: Verifier>(cert: &Cert, now: Time, verifier: &mut V) -> bool
    ensures anchor { IsTrue result ↔ IsAnchorAt (V.says verifier.old) now cert.now }
    ensures same { V.says verifier.new ≡ V.says verifier.old }
    ensures asked { V.count verifier.new ≤ V.count verifier.old + 1 }
{
    cert.verify_ta_ref_at(true, now, verifier).is_ok()
}

// Whether the certificate's key identifier of its issuer is that issuer's, and it has the URI of an issuer.
fn claims(cert: &Cert, issuer: &Cert) -> bool
    ensures { IsTrue result
        ↔ ((cert.now.tbs.authority_key_identifier ≡ Some issuer.now.tbs.subject_key_identifier)
        × (cert.now.tbs.ca_issuer ≡ None → ⊥)) }
{
    cert.verify_issuer_claim(issuer).is_ok()
}

// Whether the signature is good by the issuer's key. The verifier is asked once.
fn has_signature<V: Verifier>(cert: &Cert, issuer: &Cert, verifier: &mut V) -> bool
    ensures good { IsTrue result
        ↔ IsSignedBy (V.says verifier.old) issuer.now.tbs.key cert.now.signed }
    ensures same { V.says verifier.new ≡ V.says verifier.old }
    ensures asked { V.count verifier.new ≤ V.count verifier.old + 1 }
{
    cert.verify_signature(issuer, verifier).is_ok()
}

/// Whether the certificate is valid at the moment, claims the issuer, and is signed by its key. The verifier is asked once,
/// at most.
pub(crate) fn is_signed_by<V: Verifier>(
    cert: &Cert,
    issuer: &Cert,
    now: Time,
    verifier: &mut V,
) -> bool
    ensures signed { IsTrue result ↔ IsSignedAt (V.says verifier.old) now issuer.now cert.now }
    ensures same { V.says verifier.new ≡ V.says verifier.old }
    ensures asked { V.count verifier.new ≤ V.count verifier.old + 1 }
{
    if !is_current(cert, now) {
        return false;
    }
    claims(cert, issuer) && has_signature(cert, issuer, verifier)
}

// Whether the certificate at that place signed this one. The verifier is asked once, at most.
fn is_signed_at<V: Verifier>(
    certs: &[Cert],
    cert: &Cert,
    place: usize,
    now: Time,
    verifier: &mut V,
) -> bool
    ensures signed { IsTrue result ↔ Stands certs.now place
        (λ p. IsSignedAt (V.says verifier.old) now p cert.now) }
    ensures same { V.says verifier.new ≡ V.says verifier.old }
    ensures asked { V.count verifier.new ≤ V.count verifier.old + 1 }
{
    match cert_at(certs, place) {
        Some(issuer) => is_signed_by(cert, issuer, now, verifier),
        None => false,
    }
}

// Whether the certificate is an anchor by itself where it names itself, else signed by the one behind it, if there is one.
// The verifier is asked once, at most.
fn is_vouched<V: Verifier>(
    certs: &[Cert],
    cert: &Cert,
    link: Option<usize>,
    now: Time,
    verifier: &mut V,
) -> bool
    ensures vouched { IsTrue result
        ↔ IsVouched (V.says verifier.old) now certs.now cert.now link }
    ensures same { V.says verifier.new ≡ V.says verifier.old }
    ensures asked { V.count verifier.new ≤ V.count verifier.old + 1 }
{
    if names_itself(cert) {
        return is_anchor(cert, now, verifier);
    }
    match link {
        Some(next) => is_signed_at(certs, cert, next, now, verifier),
        None => true,
    }
}

/// Whether each certificate is an anchor by itself where it names itself, else signed by the one behind it, if there is one.
/// The verifier is asked at most once for each certificate.
pub(crate) fn are_vouched<V: Verifier>(
    certs: &[Cert],
    links: &[Option<usize>],
    now: Time,
    verifier: &mut V,
) -> bool
    ensures vouched { IsTrue result
        ↔ AllZip (IsVouched (V.says verifier.old) now certs.now) certs.now links.now }
    ensures same { V.says verifier.new ≡ V.says verifier.old }
    ensures asked { V.count verifier.new ≤ V.count verifier.old + length certs.now }
{
    let mut rest = certs;
    let mut ahead = links;
    while let Some((cert, certs_left)) = rest.split_first() {
        let Some((link, links_left)) = ahead.split_first() else {
            return false;
        };
        if !is_vouched(certs, cert, *link, now, verifier) {
            return false;
        }
        rest = certs_left;
        ahead = links_left;
    }
    ahead.is_empty()
}
