//! Prefixes from and to text.

ghost use Rattle.std.specs.Prelude.{Some, MatchResult};
ghost use Rattle.resources_ip_prefix.specs.AddrPrefixes.{family_of, bits_of};
ghost use Rattle.resources_ip_prefix.specs.Refusals.{IsNoPrefix, TooLong, NoReason};
ghost use Rattle.resources_ip_prefix.specs.PrefixTexts.{IsWritten, IsPrefixText, IsRelaxedText, IsUnreadable, Reads, prefix_text};
ghost use Rattle.resources_ip_prefix.specs.MaxLenTexts.{ReadsMaxLen, IsPrefixFault, IsWrittenMaxLen, IsUnreadableMaxLen, max_len_text};

use super::error::{ParseMaxLenPrefixError, ParsePrefixError};
use super::max_len::MaxLenPrefix;
use super::prefix::Prefix;
use std::fmt;
use std::fmt::Display;
use std::net::IpAddr;
use std::str::FromStr;

// The address and the length around the first slash.
fn address_and_len(text: &str) -> Result<(IpAddr, u8), ParsePrefixError>
    ensures { MatchResult result
        (λ x. IsWritten text.now (family_of x.0) (bits_of x.0) x.1)
        (IsUnreadable NoReason text.now) }
{
    if text.is_empty() {
        return Err(ParsePrefixError::Empty);
    }
    let Some((address, digits)) = text.split_once('/') else {
        return Err(ParsePrefixError::MissingLen);
    };
    let addr = IpAddr::from_str(address).map_err(ParsePrefixError::InvalidAddr)?;
    let len = u8::from_str(digits).map_err(ParsePrefixError::InvalidLen)?;
    Ok((addr, len))
}

/// From an address, a slash and a decimal length, as `10.0.0.0/8`. The first failing test decides: `Empty`,
/// `MissingLen` where there is no slash, `InvalidAddr`, `InvalidLen`, and `InvalidPrefix` with what `Prefix::new`
/// refuses.
impl FromStr for Prefix {
    type Err = ParsePrefixError;

    ghost from_str_gives = { Reads IsPrefixText IsNoPrefix };

    fn from_str(text: &str) -> Result<Self, ParsePrefixError> {
        let (addr, len) = address_and_len(text)?;
        Prefix::new(addr, len).map_err(ParsePrefixError::InvalidPrefix)
    }
}

impl Prefix {
    /// Reads a prefix whose host bits may be set; they are cleared.
    pub fn from_str_relaxed(text: &str) -> Result<Self, ParsePrefixError>
        ensures { Reads IsRelaxedText TooLong text.now result }
    {
        let (addr, len) = address_and_len(text)?;
        Prefix::new_relaxed(addr, len).map_err(ParsePrefixError::InvalidPrefix)
    }
}

/// The first address, a slash and the length, as `10.0.0.0/8`.
impl Display for Prefix {
    ghost output = { λ p. Some (prefix_text p) };

    fn fmt<W: fmt::Write>(&self, f: &mut fmt::Formatter<W>) -> fmt::Result {
        let addr = self.addr();
        let len = self.len();
        write!(f, "{addr}/{len}")
    }
}

/// From a prefix, and where a greatest length is given, a dash and that length in decimal, as `10.0.0.0/8-24`. The
/// first failing test decides: `InvalidPrefix`, `InvalidMaxLenFormat`, and `InvalidMaxLenValue` with what
/// `MaxLenPrefix::new` refuses.
impl FromStr for MaxLenPrefix {
    type Err = ParseMaxLenPrefixError;

    ghost from_str_gives = { ReadsMaxLen };

    fn from_str(text: &str) -> Result<Self, ParseMaxLenPrefixError> {
        let (prefix, max_len) = prefix_and_max_len(text)?;
        MaxLenPrefix::new(prefix, max_len).map_err(ParseMaxLenPrefixError::InvalidMaxLenValue)
    }
}

// The prefix that the text writes.
fn prefix_part(text: &str) -> Result<Prefix, ParseMaxLenPrefixError>
    ensures { MatchResult result (IsPrefixText text.now) (IsPrefixFault text.now) }
{
    Prefix::from_str(text).map_err(ParseMaxLenPrefixError::InvalidPrefix)
}

// The prefix, and the greatest length after the first dash.
fn prefix_and_max_len(text: &str) -> Result<(Prefix, Option<u8>), ParseMaxLenPrefixError>
    ensures { MatchResult result
        (λ x. IsWrittenMaxLen text.now x.0 x.1)
        (IsUnreadableMaxLen text.now) }
{
    let Some((prefix, digits)) = text.split_once('-') else {
        return Ok((prefix_part(text)?, None));
    };
    let prefix = prefix_part(prefix)?;
    let max_len = u8::from_str(digits).map_err(ParseMaxLenPrefixError::InvalidMaxLenFormat)?;
    Ok((prefix, Some(max_len)))
}

/// The prefix, and where a greatest length is given, a dash and that length, as `10.0.0.0/8-24`.
impl Display for MaxLenPrefix {
    ghost output = { λ m. Some (max_len_text m) };

    fn fmt<W: fmt::Write>(&self, f: &mut fmt::Formatter<W>) -> fmt::Result {
        let prefix = self.prefix();
        match self.max_len() {
            Some(max_len) => write!(f, "{prefix}-{max_len}"),
            None => write!(f, "{prefix}"),
        }
    }
}
