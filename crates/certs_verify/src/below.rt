//! Verification below an issuer (RFC 6487 7.2, RFC 8360 4.2, RFC 8209 3.3).

ghost use Rattle.std.specs.Prelude.{◌≡◌, ◌≢◌, ◌∷◌, ◌++◌, [], IfErr, IfOk};
ghost use Rattle.certs_x509.specs.declared.errors.verification.VerificationError.TheVariants.{Memory};
ghost use Rattle.certs_verify.specs.certs_extension.Calls.{VerifiesIssued};
ghost use Rattle.certs_verify.specs.certs_extension.Verified.{HoldsBelow, IsSignedAt, PassesAt, held_by, nothing, issued_tests, issuer_claim, router_tests, validity};
ghost use Rattle.certs_verify.specs.certs_extension.declared.forms.VerificationTest.TheVariants as test;
ghost use Rattle.certs_verify.specs.Answers.{Answers, AsksOnce, MemoryAfter};
ghost use Rattle.certs_verify.specs.Holders.{holding};
ghost use Rattle.certs_verify.specs.Words.{Meets, TellsOutside};

use crate::holder::{Held, ResourceCert};
use crate::inspect::Cert;
use crate::refused::Refused;
use crate::{claims, tests};
use certs_basics::time::Time;
use certs_x509::{VerificationError, Verifier};
use std::alloc::Global;

// Whether the certificate is valid at that moment, claims the issuer and is signed by it: what is tested apart from its
// resources.
fn verify_signed<V: Verifier>(
    cert: &Cert,
    issuer: &Cert,
    now: Time,
    verifier: &mut V,
) -> Result<(), VerificationError>
    ensures answers { Answers (PassesAt (V.says verifier.old) now issuer.now nothing cert.now)
        (validity ++ issuer_claim ++ test.BadSignature ∷ []) result }
    ensures no_memory { IfErr result (λ e. e ≢ Memory) }
    ensures same { V.says verifier.new ≡ V.says verifier.old }
    ensures asked { AsksOnce (V.count verifier.old) (V.count verifier.new) }
{
    let valid = tests::verify_validity(cert, now)?;
    let claimed = tests::verify_issuer_claim(cert, issuer)?;
    tests::verify_signature(cert, issuer, verifier)
}

// Whether the certificate is one of an authority or of an object below that issuer, and what it then holds.
fn verify_below<V: Verifier>(
    alloc: Global,
    cert: &Cert,
    issuer: &ResourceCert,
    now: Time,
    verifier: &mut V,
) -> Result<Held, VerificationError>
    ensures answers { Answers (PassesAt (V.says verifier.old) now issuer.now.holder.cert
        (held_by issuer.now.holder) cert.now) issued_tests result }
    ensures holds { IfOk result (λ held.
        HoldsBelow (held_by issuer.now.holder) cert.now (holding cert.now held)) }
    ensures outside { IfErr result (TellsOutside cert.now (held_by issuer.now.holder)) }
    ensures signed { IfOk result (λ held.
        IsSignedAt (V.says verifier.old) now issuer.now.holder.cert cert.now) }
    ensures memory { IfErr result (MemoryAfter
        (IsSignedAt (V.says verifier.old) now issuer.now.holder.cert cert.now)) }
    ensures same { V.says verifier.new ≡ V.says verifier.old }
    ensures asked { AsksOnce (V.count verifier.old) (V.count verifier.new) }
{
    let signed = verify_signed(cert, issuer.as_cert(), now, verifier)?;
    claims::claim_all(alloc, cert, issuer)
}

/// The certificate with what it holds below that issuer, or the certificate and the first test that it fails.
pub(crate) fn verify_issued<V: Verifier>(
    alloc: Global,
    cert: Cert,
    issuer: &ResourceCert,
    now: Time,
    verifier: &mut V,
) -> Result<ResourceCert, Refused<VerificationError>>
    ensures verifies { Meets
        (VerifiesIssued (V.says verifier.old) now issuer.now.holder cert) result }
    ensures tal { IfOk result (λ r. r.tal ≡ issuer.now.tal) }
    ensures outside { IfErr result (λ r. TellsOutside cert (held_by issuer.now.holder) r.error) }
    ensures memory { IfErr result (λ r. MemoryAfter
        (IsSignedAt (V.says verifier.old) now issuer.now.holder.cert cert) r.error) }
    ensures same { V.says verifier.new ≡ V.says verifier.old }
    ensures asked { AsksOnce (V.count verifier.old) (V.count verifier.new) }
{
    let held = match verify_below(alloc, &cert, issuer, now, verifier) {
        Ok(held) => held,
        Err(error) => return Err(Refused { cert, error }),
    };
    match issuer.tal().clone() {
        Ok(tal) => Ok(ResourceCert::new(cert, held, tal)),
        Err(_) => {
            let error = VerificationError::Memory;
            Err(Refused { cert, error })
        }
    }
}

/// Whether the certificate is one of a router below that issuer, and else the first test that it fails.
pub(crate) fn verify_router<V: Verifier>(
    alloc: Global,
    cert: &Cert,
    issuer: &ResourceCert,
    now: Time,
    verifier: &mut V,
) -> Result<(), VerificationError>
    ensures answers { Answers (PassesAt (V.says verifier.old) now issuer.now.holder.cert
        (held_by issuer.now.holder) cert.now) router_tests result }
    ensures outside { IfErr result (TellsOutside cert.now (held_by issuer.now.holder)) }
    ensures memory { IfErr result (MemoryAfter
        (IsSignedAt (V.says verifier.old) now issuer.now.holder.cert cert.now)) }
    ensures same { V.says verifier.new ≡ V.says verifier.old }
    ensures asked { AsksOnce (V.count verifier.old) (V.count verifier.new) }
{
    let signed = verify_signed(cert, issuer.as_cert(), now, verifier)?;
    let held = claims::claim_as(alloc, cert, issuer)?;
    Ok(())
}
