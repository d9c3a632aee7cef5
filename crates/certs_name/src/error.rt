//! Why a name is refused.

use thiserror::Error;

/// The attributes of a name aren't those that RPKI certificates have.
#[derive(Clone, Copy, Debug, PartialEq, Eq, Error, Drop)]
#[error("invalid name")]
pub struct InvalidName;
