//! What a caller's test says of a certificate.

ghost use Rattle.std.specs.Prelude.{◌≡◌, ◌↔◌, IfErr, IsTrue};
ghost use Rattle.std.specs.Fn.{FnOnceReturnsAt, FnOnceTakesAt};
ghost use Rattle.objects_valid.specs.certs_extension.Cert.{CertValue};
ghost use Rattle.objects_valid.specs.certs_extension.Verified.{HolderValue, held_by};
ghost use Rattle.certs_verify.specs.certs_x509.declared.errors.validation.ValidationError.TheVariants.{Verification};
ghost use Rattle.certs_verify.specs.certs_x509.declared.errors.verification.VerificationError.TheVariants.{Memory};
ghost use Rattle.certs_verify.specs.Validated.{TellsNumbers};
ghost use Rattle.objects_valid.specs.Processed.{Answers, FailsAny, PassesAny, TellsCause};

use certs_verify::{Cert, ValidationError, VerificationError};

// Whether memory was wanted.
fn is_memory(error: &ValidationError) -> bool
    ensures { IsTrue result ↔ (error.now ≡ Verification Memory) }
{
    matches!(
        error,
        ValidationError::Verification(VerificationError::Memory)
    )
}

// The error for a cause with which a caller's test refuses.
fn told(cause: ValidationError) -> ValidationError
    ensures cause { TellsCause cause result }
    ensures outside { (c : CertValue) (issuer : HolderValue)
        → TellsNumbers c (held_by issuer) result }
{
    let wants_memory = is_memory(&cause);
    drop(cause);
    if wants_memory {
        ValidationError::Verification(VerificationError::Memory)
    } else {
        ValidationError::Verification(VerificationError::Refused)
    }
}

/// What the test says of the certificate, of which it is asked once: lack of memory is reported as that, and all other
/// causes as one refusal.
pub fn ask<F: FnOnce(&Cert) -> Result<(), ValidationError>>(
    test: F,
    cert: &Cert,
) -> Result<(), ValidationError>
    requires { FnOnceTakesAt F.FnOnce test cert.now }
    ensures answers { (h : HolderValue) → Answers
        (PassesAny (FnOnceReturnsAt F.FnOnce test cert.now))
        (FailsAny (FnOnceReturnsAt F.FnOnce test cert.now)) h result }
    ensures outside { (c : CertValue) (issuer : HolderValue)
        → IfErr result (TellsNumbers c (held_by issuer)) }
{
    match test(cert) {
        Ok(()) => Ok(()),
        Err(cause) => Err(told(cause)),
    }
}
