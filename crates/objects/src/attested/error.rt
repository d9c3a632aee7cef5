//! Why providers aren't added to an attestation.

ghost use Rattle.std.specs.Prelude.{◌≡◌, Some, codes};
ghost use Rattle.objects.specs.declared.attested.error.ProviderError.TheVariants.{Memory as memory_error};

use std::alloc::{AllocError, AllocFailed};
use std::error::Error;
use std::fmt;
use thiserror::Error as ThisError;

/// A provider is there already.
#[derive(Clone, Copy, Debug, PartialEq, Eq, Hash)]
pub struct DuplicateProviderAs;

impl fmt::Display for DuplicateProviderAs {
    ghost output = { λ _. Some (codes "duplicate provider AS") };

    fn fmt<W: fmt::Write>(&self, f: &mut fmt::Formatter<W>) -> fmt::Result {
        write!(f, "duplicate provider AS")
    }
}

impl Error for DuplicateProviderAs {}

/// Why providers aren't added.
#[derive(Clone, Copy, Debug, PartialEq, Eq, Hash, ThisError, Drop)]
pub enum ProviderError {
    /// One of them is there already.
    #[error("{0}")]
    Duplicate(DuplicateProviderAs),
    /// A growth of memory was refused.
    #[error("out of memory")]
    Memory,
}

impl From<AllocError> for ProviderError {
    ghost from_gives = { λ _ e. e ≡ memory_error };

    fn from(_error: AllocError) -> ProviderError {
        ProviderError::Memory
    }
}

impl<T: Drop> From<AllocFailed<T>> for ProviderError {
    ghost from_gives = { λ _ e. e ≡ memory_error };

    fn from(_failed: AllocFailed<T>) -> ProviderError {
        ProviderError::Memory
    }
}
