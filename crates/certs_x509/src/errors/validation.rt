//! Why a certificate is not valid.

ghost use Rattle.std.specs.Prelude.{◌≡◌};

use crate::errors::{InspectionError, VerificationError};
use thiserror::Error;

/// Why a certificate is not valid: its form, or what is vouched for.
#[derive(Debug, Drop, Error)]
pub enum ValidationError {
    /// Its form isn't that of its role.
    #[error("{0}")]
    Inspection(InspectionError),
    /// It isn't vouched for.
    #[error("{0}")]
    Verification(VerificationError),
}

impl From<InspectionError> for ValidationError {
    ghost use Rattle.certs_x509.specs.declared.errors.validation.ValidationError.TheVariants.{Inspection};

    ghost from_gives = { λ cause e. e ≡ Inspection cause };

    fn from(cause: InspectionError) -> Self {
        ValidationError::Inspection(cause)
    }
}

impl From<VerificationError> for ValidationError {
    ghost use Rattle.certs_x509.specs.declared.errors.validation.ValidationError.TheVariants.{Verification};

    ghost from_gives = { λ cause e. e ≡ Verification cause };

    fn from(cause: VerificationError) -> Self {
        ValidationError::Verification(cause)
    }
}
