//! Errors of addresses.

ghost use Rattle.std.specs.Prelude.{◌≡◌};
ghost use Rattle.resources_ip_prefix.specs.declared.error.FromStrError.TheVariants as Cause;

use std::alloc::AllocError;
use std::net::AddrParseError;
use thiserror::Error;

/// Why a text is no address, prefix, range, block or set.
#[derive(Clone, Copy, Debug, PartialEq, Eq, Error)]
pub enum FromStrError {
    /// No address of the family.
    #[error("invalid address")]
    Addr,
    /// No decimal number, or more than the family's addresses have bits.
    #[error("invalid prefix length")]
    PrefixLen,
    /// Neither a slash nor a dash.
    #[error("missing separator")]
    MissingSeparator,
    /// Addresses of both families in one range or one set.
    #[error("addresses of different families")]
    FamilyMismatch,
    /// Nothing between two commas, or at an end beside one.
    #[error("invalid list of blocks")]
    BadBlocks,
    /// The last address is before the first.
    #[error("invalid range")]
    BadRange,
    /// A growth of memory was refused.
    #[error("out of memory")]
    Memory,
}

impl From<AddrParseError> for FromStrError {
    ghost from_gives = { λ _ e. e ≡ Cause.Addr };

    fn from(_: AddrParseError) -> Self {
        FromStrError::Addr
    }
}

impl From<AllocError> for FromStrError {
    ghost from_gives = { λ _ e. e ≡ Cause.Memory };

    fn from(_: AllocError) -> Self {
        FromStrError::Memory
    }
}
