//! Why octets or characters are no text of a set, and why a text makes no restricted string.

use thiserror::Error;

/// The octets or characters are no text of the set.
#[derive(Clone, Copy, Debug, PartialEq, Eq, Error, Drop)]
#[error("invalid character string")]
pub struct CharSetError;

/// A text makes no restricted string.
#[derive(Clone, Copy, Debug, PartialEq, Eq, Error, Drop)]
pub enum RestrictedStringError {
    /// A character isn't in the set.
    #[error("invalid character string")]
    CharSet,
    /// Memory was wanted.
    #[error("out of memory")]
    Memory,
}
