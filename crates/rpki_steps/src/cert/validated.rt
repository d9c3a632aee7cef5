//! What a validation accepted, or the error of the test that refused.

ghost use Rattle.std.specs.Prelude.{◌≡◌, ◌↔◌, IfOk, IsTrue, Some};
ghost use Rattle.certs_verify.specs.Validated.{cause_of};
ghost use Rattle.rpki_steps.specs.certs_extension.Calls.{wants_memory};
ghost use Rattle.rpki_steps.specs.Accepted.{IsAcceptedOrRefused};

use certs_verify::{Refused, ResourceCert, ValidationError, VerificationError};
use std::alloc::AllocError;

// Whether memory was wanted.
fn is_memory(error: &ValidationError) -> bool
    ensures { IsTrue result ↔ (cause_of error.now ≡ Some wants_memory) }
{
    matches!(
        error,
        ValidationError::Verification(VerificationError::Memory)
    )
}

/// The certificate that was accepted, or the error of the test that refused it; lack of memory is neither.
pub(crate) fn accepted_or_refused(
    validated: Result<ResourceCert, Refused<ValidationError>>,
) -> Result<Result<ResourceCert, ValidationError>, AllocError>
    ensures { IfOk result (IsAcceptedOrRefused validated) }
{
    match validated {
        Ok(found) => Ok(Ok(found)),
        Err(refused) => {
            let Refused { cert, error } = refused;
            drop(cert);
            if is_memory(&error) {
                drop(error);
                return Err(AllocError);
            }
            Ok(Err(error))
        }
    }
}
