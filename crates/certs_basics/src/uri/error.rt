//! Why a text makes no URI.

use thiserror::Error as ThisError;

/// A text makes no URI.
#[derive(Clone, Copy, Debug, PartialEq, Eq, ThisError, Drop)]
pub enum Error {
    /// The text is no URI of the scheme.
    #[error("bad URI")]
    BadUri,
    /// Memory was wanted.
    #[error("out of memory")]
    Memory,
}
