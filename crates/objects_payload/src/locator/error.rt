//! Why a text is no trust anchor locator.

ghost use Rattle.std.specs.Prelude.{◌≡◌};
ghost use Rattle.objects_payload.specs.declared.locator.error.ReadError.TheVariants.{Memory as memory_error};

use std::alloc::{AllocError, AllocFailed};
use thiserror::Error as ThisError;

/// A text is no trust anchor locator. Its lines are tested in their order, and the first that is refused tells why.
#[derive(Clone, Copy, Debug, PartialEq, Eq, Hash, ThisError, Drop)]
pub enum ReadError {
    /// The reader answered an error, or has 2^32 octets or more.
    #[error("the text can't be read to its end")]
    Io,
    /// The text ends before an empty line, or within a line before it.
    #[error("unexpected end of file")]
    UnexpectedEof,
    /// A line before the empty line is no URI, or no line is one.
    #[error("bad trust anchor URI")]
    BadUri,
    /// What stands after the empty line isn't base 64.
    #[error("bad key info encoding")]
    BadKeyInfoEncoding,
    /// No key stands in front of the octets that are written in base 64.
    #[error("bad key info")]
    BadKeyInfo,
    /// Memory was wanted.
    #[error("out of memory")]
    Memory,
}

impl From<AllocError> for ReadError {
    ghost from_gives = { λ _ e. e ≡ memory_error };

    fn from(_error: AllocError) -> ReadError {
        ReadError::Memory
    }
}

impl<T: Drop> From<AllocFailed<T>> for ReadError {
    ghost from_gives = { λ _ e. e ≡ memory_error };

    fn from(_failed: AllocFailed<T>) -> ReadError {
        ReadError::Memory
    }
}
