//! The tests of one certificate, in groups: of its moments, of the claim to its issuer, of its signature.

ghost use Rattle.std.specs.Prelude.{◌≡◌, ◌≢◌, ◌+◌, ◌-◌, ◌^◌, ◌∷◌, [], ℕ, IfErr, min};
ghost use Rattle.certs_x509.specs.declared.errors.verification.VerificationError.TheVariants.{Memory};
ghost use Rattle.certs_verify.specs.certs_basics.Verdicts.{Verdicts};
ghost use Rattle.certs_verify.specs.certs_extension.Cert.{CertValue};
ghost use Rattle.certs_verify.specs.certs_extension.Verified.{PassesAt, issuer_claim, nothing, validity};
ghost use Rattle.certs_verify.specs.certs_extension.declared.forms.VerificationTest.TheVariants as test;
ghost use Rattle.certs_verify.specs.Answers.{Answers};

use crate::inspect::Cert;
use certs_basics::time::Time;
use certs_x509::{ClaimedKind, VerificationError, Verifier};

/// Whether the moment lies in the validity of the certificate, both ends included, and else on which side it lies.
pub(crate) fn verify_validity(cert: &Cert, now: Time) -> Result<(), VerificationError>
    ensures answers { (good : Verdicts) (issuer : CertValue)
        → Answers (PassesAt good now issuer nothing cert.now) validity result }
    ensures no_memory { IfErr result (λ e. e ≢ Memory) }
{
    let validity = cert.tbs().validity();
    if now < validity.not_before() {
        return Err(VerificationError::NotYetValid);
    }
    if now > validity.not_after() {
        return Err(VerificationError::Expired);
    }
    Ok(())
}

/// Whether the certificate claims that issuer: it has an authority key identifier, which is the issuer's subject key
/// identifier, and the URI of an issuer (RFC 6487 4.8.3, 4.8.7).
pub(crate) fn verify_issuer_claim(cert: &Cert, issuer: &Cert) -> Result<(), VerificationError>
    ensures answers { (good : Verdicts) (now : ℕ)
        → Answers (PassesAt good now issuer.now nothing cert.now) issuer_claim result }
    ensures no_memory { IfErr result (λ e. e ≢ Memory) }
{
    let Some(identifier) = cert.tbs().authority_key_identifier() else {
        return Err(VerificationError::AuthorityKeyMissing);
    };
    if identifier != issuer.tbs().subject_key_identifier() {
        return Err(VerificationError::AuthorityKeyMismatch);
    }
    if cert.tbs().ca_issuer().is_none() {
        return Err(VerificationError::AiaMissing);
    }
    Ok(())
}

/// Whether the signature is one of the issuer's key. The verifier is asked once.
pub(crate) fn verify_signature<V: Verifier>(
    cert: &Cert,
    issuer: &Cert,
    verifier: &mut V,
) -> Result<(), VerificationError>
    ensures answers { (now : ℕ) → Answers
        (PassesAt (V.says verifier.old) now issuer.now nothing cert.now)
        (test.BadSignature ∷ []) result }
    ensures no_memory { IfErr result (λ e. e ≢ Memory) }
    ensures same { V.says verifier.new ≡ V.says verifier.old }
    ensures counted { V.count verifier.new ≡ min (V.count verifier.old + 1) (2 ^ 64 - 1) }
{
    let key = issuer.tbs().subject_public_key_info();
    let signed = cert.signed_data();
    if signed.verify_signature(key, verifier).is_err() {
        return Err(VerificationError::BadSignature);
    }
    Ok(())
}

/// Whether nothing is inherited, and else the first kind that is: IPv4 addresses, IPv6 addresses, AS numbers.
pub(crate) fn verify_nothing_inherited(cert: &Cert) -> Result<(), VerificationError>
    ensures answers { (good : Verdicts) (now : ℕ) (issuer : CertValue) → Answers
        (PassesAt good now issuer nothing cert.now)
        (test.InheritedV4 ∷ test.InheritedV6 ∷ test.InheritedAs ∷ []) result }
    ensures no_memory { IfErr result (λ e. e ≢ Memory) }
{
    if cert.tbs().v4_resources().is_inherited() {
        return Err(VerificationError::Inherited(ClaimedKind::V4));
    }
    if cert.tbs().v6_resources().is_inherited() {
        return Err(VerificationError::Inherited(ClaimedKind::V6));
    }
    if cert.tbs().as_resources().is_inherited() {
        return Err(VerificationError::Inherited(ClaimedKind::Asn));
    }
    Ok(())
}
