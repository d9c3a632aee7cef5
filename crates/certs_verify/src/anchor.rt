//! Verification of trust anchors (RFC 8630 2.3).

ghost use Rattle.std.specs.Prelude.{◌≡◌, ◌≢◌, IfErr, IfOk};
ghost use Rattle.certs_x509.specs.declared.errors.verification.VerificationError.TheVariants.{Memory};
ghost use Rattle.certs_verify.specs.certs_extension.Verified.{HoldsOwn, IsAnchorAt, PassesAt, anchor_tests, nothing};
ghost use Rattle.certs_verify.specs.Answers.{Answers, AsksOnce, MemoryAfter};
ghost use Rattle.certs_verify.specs.Holders.{holding};
ghost use Rattle.certs_verify.specs.Words.{Meets, VerifiesAnchor};

use crate::holder::{Held, ResourceCert};
use crate::inspect::Cert;
use crate::refused::Refused;
use crate::{claims, tests};
use certs_basics::time::Time;
use certs_x509::{TalInfo, VerificationError, Verifier};
use std::alloc::Global;
use std::rc::Rc;

/// Whether the certificate is one of an anchor, and else the first test that it fails.
pub(crate) fn verify_anchor_ref<V: Verifier>(
    cert: &Cert,
    now: Time,
    verifier: &mut V,
) -> Result<(), VerificationError>
    ensures answers { Answers (PassesAt (V.says verifier.old) now cert.now nothing cert.now)
        anchor_tests result }
    ensures no_memory { IfErr result (λ e. e ≢ Memory) }
    ensures same { V.says verifier.new ≡ V.says verifier.old }
    ensures asked { AsksOnce (V.count verifier.old) (V.count verifier.new) }
{
    let valid = tests::verify_validity(cert, now)?;
    let own = tests::verify_nothing_inherited(cert)?;
    tests::verify_signature(cert, cert, verifier)
}

// Whether the certificate is one of an anchor, and what it then holds: looked at after all tests, which take no memory.
fn verify_own<V: Verifier>(
    cert: &Cert,
    now: Time,
    verifier: &mut V,
) -> Result<Held, VerificationError>
    ensures answers { Answers (PassesAt (V.says verifier.old) now cert.now nothing cert.now)
        anchor_tests result }
    ensures holds { IfOk result (λ held. HoldsOwn cert.now (holding cert.now held)) }
    ensures memory { IfErr result (MemoryAfter (IsAnchorAt (V.says verifier.old) now cert.now)) }
    ensures same { V.says verifier.new ≡ V.says verifier.old }
    ensures asked { AsksOnce (V.count verifier.old) (V.count verifier.new) }
{
    let passed = verify_anchor_ref(cert, now, verifier)?;
    claims::own_all(cert)
}

/// The certificate with what it holds as an anchor, or the certificate and the first test that it fails.
pub(crate) fn verify_anchor<V: Verifier>(
    cert: Cert,
    tal: Rc<TalInfo>,
    now: Time,
    verifier: &mut V,
) -> Result<ResourceCert, Refused<VerificationError>>
    ensures verifies { Meets (VerifiesAnchor (V.says verifier.old) now cert) result }
    ensures tal { IfOk result (λ r. r.tal ≡ tal.value) }
    ensures memory { IfErr result (λ r. MemoryAfter
        (IsAnchorAt (V.says verifier.old) now cert) r.error) }
    ensures same { V.says verifier.new ≡ V.says verifier.old }
    ensures asked { AsksOnce (V.count verifier.old) (V.count verifier.new) }
{
    match verify_own(&cert, now, verifier) {
        Ok(held) => Ok(ResourceCert::new(cert, held, tal)),
        Err(error) => Err(Refused { cert, error }),
    }
}
