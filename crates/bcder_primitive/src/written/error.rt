//! Why values are not written.

ghost use Rattle.bcder_primitive.specs.Writing.{FillRefused};

use std::alloc::AllocError;
use thiserror::Error;

/// Why values are not written.
#[derive(Clone, Copy, Debug, PartialEq, Eq, Error, Drop)]
pub enum EncodeError {
    /// A value has no form in CER, or none in the mode: it was captured in another one, or holds what has none in its own.
    #[error("no form in CER")]
    CerUnsupported,
    /// A content has more than 2^32 - 1 octets, or all octets together can't be counted.
    #[error("too long")]
    TooLong,
    /// The writer refused.
    #[error("the writer refused")]
    Write,
    /// There was no memory for the octets.
    #[error("out of memory")]
    Memory,
}

impl EncodeError {
    /// The error for a writer that is memory: it refuses where memory has run out.
    pub fn of_memory(self) -> EncodeError
        ensures { FillRefused self result }
    {
        match self {
            EncodeError::Write => EncodeError::Memory,
            other => other,
        }
    }
}
