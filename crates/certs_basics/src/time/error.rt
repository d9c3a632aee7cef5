//! Why a moment lies outside a validity.

use thiserror::Error;

/// Why a moment lies outside a validity.
#[derive(Clone, Copy, Debug, PartialEq, Eq, Hash, Error)]
pub enum ValidityError {
    /// The moment is before its beginning.
    #[error("not yet valid")]
    NotYetValid,
    /// The moment comes after its end.
    #[error("expired")]
    Expired,
}
