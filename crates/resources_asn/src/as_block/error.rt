//! Errors of texts of AS numbers.

ghost use Rattle.std.specs.Prelude.{◌≡◌};
ghost use Rattle.resources_asn.specs.declared.as_block.error.FromStrError.TheVariants as Cause;

use crate::ParseAsnError;
use std::alloc::AllocError;
use thiserror::Error;

/// Why a text is no block or set of AS numbers.
#[derive(Clone, Copy, Debug, PartialEq, Eq, Hash, Error)]
pub enum FromStrError {
    /// No AS number.
    #[error("invalid AS number")]
    BadAsn,
    /// More than two numbers in a range, or the last before the first.
    #[error("invalid AS range")]
    BadRange,
    /// Nothing between two commas, or at an end beside one.
    #[error("invalid list of AS blocks")]
    BadBlocks,
    /// A growth of memory was refused.
    #[error("out of memory")]
    Memory,
}

impl From<ParseAsnError> for FromStrError {
    ghost from_gives = { λ _ e. e ≡ Cause.BadAsn };

    fn from(_: ParseAsnError) -> Self {
        FromStrError::BadAsn
    }
}

impl From<AllocError> for FromStrError {
    ghost from_gives = { λ _ e. e ≡ Cause.Memory };

    fn from(_: AllocError) -> Self {
        FromStrError::Memory
    }
}
