//! Why there is no prefix.

ghost use Rattle.std.specs.Prelude.{◌≡◌};
ghost use Rattle.resources_ip_prefix.specs.Refusals.{prefix_error_text, max_len_error_text};

use std::net::AddrParseError;
use std::num::ParseIntError;
use thiserror::Error;

/// Why an address and a length make no prefix.
#[derive(Clone, Copy, Debug, PartialEq, Eq, Error)]
pub enum PrefixError {
    /// The length is above the address's number of bits.
    #[error("prefix length exceeds the address")]
    LenOverflow,
    /// A bit after the length is set.
    #[error("host bits are set")]
    NonZeroHost,
}

impl PrefixError {
    /// The error's text.
    pub fn static_description(self) -> &'static str
        ensures { result.now ≡ prefix_error_text self }
    {
        match self {
            PrefixError::LenOverflow => "prefix length exceeds the address",
            PrefixError::NonZeroHost => "host bits are set",
        }
    }
}

impl From<PrefixError> for &'static str {
    ghost from_gives = { λ e text. text.now ≡ prefix_error_text e };

    fn from(error: PrefixError) -> Self {
        error.static_description()
    }
}

/// Why a prefix can't have a greatest length.
#[derive(Clone, Copy, Debug, PartialEq, Eq, Error)]
pub enum MaxLenError {
    /// The greatest length is above the address's number of bits.
    #[error("maximum length exceeds the address")]
    Overflow,
    /// The greatest length is below the prefix's length.
    #[error("maximum length is below the prefix length")]
    Underflow,
}

impl MaxLenError {
    /// The error's text.
    pub fn static_description(self) -> &'static str
        ensures { result.now ≡ max_len_error_text self }
    {
        match self {
            MaxLenError::Overflow => "maximum length exceeds the address",
            MaxLenError::Underflow => "maximum length is below the prefix length",
        }
    }
}

impl From<MaxLenError> for &'static str {
    ghost from_gives = { λ e text. text.now ≡ max_len_error_text e };

    fn from(error: MaxLenError) -> Self {
        error.static_description()
    }
}

/// Why a text is that of no prefix.
#[derive(Clone, Debug, PartialEq, Eq, Drop, Error)]
pub enum ParsePrefixError {
    /// The text is empty.
    #[error("empty text")]
    Empty,
    /// The text has no slash.
    #[error("missing prefix length")]
    MissingLen,
    /// What is before the slash is no address.
    #[error("invalid address: {0}")]
    InvalidAddr(AddrParseError),
    /// What comes after the slash is no number below 256.
    #[error("invalid prefix length: {0}")]
    InvalidLen(ParseIntError),
    /// The address and the length make no prefix.
    #[error("invalid prefix: {0}")]
    InvalidPrefix(PrefixError),
}

/// Why a text is that of no prefix with a greatest length.
#[derive(Clone, Debug, PartialEq, Eq, Drop, Error)]
pub enum ParseMaxLenPrefixError {
    /// What is before the dash is no prefix.
    #[error("{0}")]
    InvalidPrefix(ParsePrefixError),
    /// What comes after the dash is no number below 256.
    #[error("invalid maximum length: {0}")]
    InvalidMaxLenFormat(ParseIntError),
    /// The prefix can't have this greatest length.
    #[error("invalid maximum length: {0}")]
    InvalidMaxLenValue(MaxLenError),
}
