//! Why there is no bundle.

ghost use Rattle.rpki_bundle.specs.declared.error.BundleError.TheVariants.{Memory as memory_error};
ghost use Rattle.std.specs.Prelude.{◌≡◌};

use std::alloc::{AllocError, AllocFailed};
use thiserror::Error;

/// Why there is no bundle.
#[derive(Clone, Copy, Debug, PartialEq, Eq, Hash, Error)]
pub enum BundleError {
    /// The octets or parts are those of no bundle.
    #[error("not a bundle")]
    NotABundle,
    /// A growth of memory was refused.
    #[error("out of memory")]
    Memory,
}

impl From<AllocError> for BundleError {
    ghost from_gives = { λ _ e. e ≡ memory_error };

    fn from(_error: AllocError) -> Self {
        BundleError::Memory
    }
}

impl<T: Drop> From<AllocFailed<T>> for BundleError {
    ghost from_gives = { λ _ e. e ≡ memory_error };

    fn from(_failed: AllocFailed<T>) -> Self {
        BundleError::Memory
    }
}
