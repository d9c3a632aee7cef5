//! Ranges and blocks written and read: `10.0.0.0-10.0.0.9`, `10.0.0.0/8`.

ghost use Rattle.std.specs.Prelude.{◌≡◌, ℕ, ◌<◌, ◌≤◌, List, IfOk, MatchResult, Some};
ghost use Rattle.std.specs.Fmt.{DisplaysOnOk};
ghost use Rattle.resources_ip_prefix.specs.Address.{bits_of};
ghost use Rattle.resources_ip_prefix.specs.Text.{v4_text, v6_text};
ghost use Rattle.resources_ip_prefix.specs.Whole.{IsWhole};
ghost use Rattle.resources_ip_block.specs.Block.{run_of_block};
ghost use Rattle.resources_ip_block.specs.Range.{run_of_range};
ghost use Rattle.resources_ip_block.specs.BlockText.{dashed, IsBlockText, block_text};
ghost use Rattle.resources_ip_block.specs.ReadTexts.{ReadsRange, ReadsRangeOfAny, ReadsBlock, ReadsBlockOfAny};
ghost use Rattle.resources_ip_prefix.specs.declared.addr.AddressFamily.TheVariants.{Ipv4, Ipv6};
ghost use Rattle.resources_ip_prefix.specs.declared.error.FromStrError.TheVariants as Cause;

use crate::block::IpBlock;
use crate::range::AddressRange;
use resources_ip_prefix::{Addr, AddressFamily, FromStrError, Prefix};
use std::fmt;
use std::str::FromStr;

impl AddressRange {
    /// The range of a text `10.0.0.0-10.0.0.9`, over whole IPv4 addresses. The first failing test decides, as of
    /// `from_family_str`.
    pub fn from_v4_str(text: &str) -> Result<Self, FromStrError>
        ensures whole { IfOk result (λ r. IsWhole (run_of_range r)) }
        ensures reads { ReadsRange Ipv4 text.now result }
    {
        AddressRange::from_family_str(AddressFamily::Ipv4, text)
    }

    /// The range of a text `2001:db8::-2001:db8::9`. The first failing test decides, as of `from_family_str`.
    pub fn from_v6_str(text: &str) -> Result<Self, FromStrError>
        ensures { ReadsRange Ipv6 text.now result }
    {
        AddressRange::from_family_str(AddressFamily::Ipv6, text)
    }

    /// The range of two addresses of the family with a dash between. The first failing test decides: `MissingSeparator`
    /// where there is no dash, `Addr`, and `BadRange` where the last is before the first.
    pub fn from_family_str(family: AddressFamily, text: &str) -> Result<Self, FromStrError>
        ensures { ReadsRange family text.now result }
    {
        let Some((min, max)) = text.split_once('-') else {
            return Err(FromStrError::MissingSeparator);
        };
        let first = Addr::from_family_str(family, min)?;
        let end = Addr::from_family_str(family, max)?;
        ordered(first, end.to_max(family.max_addr_len()))
    }

    /// Writes the first 32 bits of both ends as IPv4 addresses.
    pub fn fmt_v4<W: fmt::Write>(self, f: &mut fmt::Formatter<W>) -> fmt::Result
        ensures { DisplaysOnOk W.Write.write_str_gives f.old result
            (Some (dashed (v4_text (run_of_range self).first) (v4_text (run_of_range self).last)))
            f.new }
    {
        write!(f, "{}-{}", self.min().to_v4(), self.max().to_v4())
    }

    /// Writes both ends as IPv6 addresses.
    pub fn fmt_v6<W: fmt::Write>(self, f: &mut fmt::Formatter<W>) -> fmt::Result
        ensures { DisplaysOnOk W.Write.write_str_gives f.old result
            (Some (dashed (v6_text (run_of_range self).first) (v6_text (run_of_range self).last)))
            f.new }
    {
        write!(f, "{}-{}", self.min().to_v6(), self.max().to_v6())
    }
}

/// The range of a text of either family; an IPv6 address has a colon. `FamilyMismatch` where only one of the two has one,
/// else what `from_family_str` refuses.
impl FromStr for AddressRange {
    type Err = FromStrError;

    ghost from_str_gives = { ReadsRangeOfAny };

    fn from_str(text: &str) -> Result<Self, FromStrError> {
        let Some((min, max)) = text.split_once('-') else {
            return Err(FromStrError::MissingSeparator);
        };
        let family = AddressFamily::of_text(min);
        let other = AddressFamily::of_text(max);
        if family == other {
            AddressRange::from_family_str(family, text)
        } else {
            Err(FromStrError::FamilyMismatch)
        }
    }
}

// The range from the first address to the last.
fn ordered(min: Addr, max: Addr) -> Result<AddressRange, FromStrError>
    ensures { MatchResult result
        (λ r. (run_of_range r ≡ record { first = bits_of min; last = bits_of max })
        × (bits_of min ≤ bits_of max))
        (λ e. (e ≡ Cause.BadRange) × (bits_of max < bits_of min)) }
{
    if max < min {
        return Err(FromStrError::BadRange);
    }
    Ok(AddressRange::new(min, max))
}

impl IpBlock {
    /// The IPv4 prefix or range of a text.
    pub fn from_v4_str(text: &str) -> Result<Self, FromStrError>
        ensures whole { IfOk result (λ b. IsWhole (run_of_block b)) }
        ensures reads { ReadsBlock Ipv4 text.now result }
    {
        IpBlock::from_family_str(AddressFamily::Ipv4, text)
    }

    /// The IPv6 prefix or range of a text.
    pub fn from_v6_str(text: &str) -> Result<Self, FromStrError>
        ensures { ReadsBlock Ipv6 text.now result }
    {
        IpBlock::from_family_str(AddressFamily::Ipv6, text)
    }

    /// The prefix of a text of the family that has a slash, the range of one that has none; refused as these are.
    pub fn from_family_str(family: AddressFamily, text: &str) -> Result<Self, FromStrError>
        ensures { ReadsBlock family text.now result }
    {
        if text.contains('/') {
            let prefix = Prefix::from_family_str(family, text)?;
            return Ok(IpBlock::Prefix(prefix));
        }
        let range = AddressRange::from_family_str(family, text)?;
        Ok(IpBlock::Range(range))
    }

    /// Writes the block as a prefix where it is one, else as a range, of IPv4.
    pub fn fmt_v4<W: fmt::Write>(&self, f: &mut fmt::Formatter<W>) -> fmt::Result
        ensures { (text : List ℕ) × IsBlockText v4_text (run_of_block self.now) text
            × DisplaysOnOk W.Write.write_str_gives f.old result (Some text) f.new }
    {
        match self.as_prefix() {
            Ok(prefix) => prefix.fmt_v4(f),
            Err(range) => range.fmt_v4(f),
        }
    }

    /// Writes the block as a prefix where it is one, else as a range, of IPv6.
    pub fn fmt_v6<W: fmt::Write>(&self, f: &mut fmt::Formatter<W>) -> fmt::Result
        ensures { (text : List ℕ) × IsBlockText v6_text (run_of_block self.now) text
            × DisplaysOnOk W.Write.write_str_gives f.old result (Some text) f.new }
    {
        match self.as_prefix() {
            Ok(prefix) => prefix.fmt_v6(f),
            Err(range) => range.fmt_v6(f),
        }
    }

    /// The block, to be printed as IPv4.
    pub fn display_v4(self) -> DisplayV4Block
        ensures { result.0 ≡ self }
    {
        DisplayV4Block(self)
    }

    /// The block, to be printed as IPv6.
    pub fn display_v6(self) -> DisplayV6Block
        ensures { result.0 ≡ self }
    {
        DisplayV6Block(self)
    }
}

/// The block of a text of either family; an IPv6 one has a colon. A text with a slash is refused as a prefix of the family
/// of its colons, another as a range.
impl FromStr for IpBlock {
    type Err = FromStrError;

    ghost from_str_gives = { ReadsBlockOfAny };

    fn from_str(text: &str) -> Result<Self, FromStrError> {
        if text.contains('/') {
            let family = AddressFamily::of_text(text);
            let prefix = Prefix::from_family_str(family, text)?;
            return Ok(IpBlock::Prefix(prefix));
        }
        let range = text.parse::<AddressRange>()?;
        Ok(IpBlock::Range(range))
    }
}

/// Prints a block as IPv4.
#[derive(Clone, Copy, Debug)]
pub struct DisplayV4Block(pub IpBlock);

impl fmt::Display for DisplayV4Block {
    ghost output = { λ shown. Some (block_text v4_text (run_of_block shown.0)) };

    fn fmt<W: fmt::Write>(&self, f: &mut fmt::Formatter<W>) -> fmt::Result {
        self.0.fmt_v4(f)
    }
}

/// Prints a block as IPv6.
#[derive(Clone, Copy, Debug)]
pub struct DisplayV6Block(pub IpBlock);

impl fmt::Display for DisplayV6Block {
    ghost output = { λ shown. Some (block_text v6_text (run_of_block shown.0)) };

    fn fmt<W: fmt::Write>(&self, f: &mut fmt::Formatter<W>) -> fmt::Result {
        self.0.fmt_v6(f)
    }
}
