//! Why octets or a number are refused.

use thiserror::Error;

/// Why octets are no INTEGER from 0 up.
#[derive(Clone, Copy, Debug, PartialEq, Eq, Error, Drop)]
pub enum InvalidInteger {
    /// They aren't the content octets of an INTEGER (X.690 8.3), or of one below 0.
    #[error("invalid integer")]
    Invalid,
    /// There was no memory for the octets.
    #[error("out of memory")]
    Memory,
}

/// A number doesn't fit the type that was asked for.
#[derive(Clone, Copy, Debug, PartialEq, Eq, Error, Drop)]
#[error("integer out of range")]
pub struct OverflowError;
