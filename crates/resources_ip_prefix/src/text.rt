//! Addresses and prefixes written and read: `10.0.0.1`, `10.0.0.0/8`.

ghost use Rattle.std.specs.Prelude.{◌≡◌, ℕ, ◌≤◌, ◌*◌, ◌^◌, IfOk, MatchResult, Some};
ghost use Rattle.std.specs.Fmt.{DisplaysOnOk};
ghost use Rattle.std.specs.Net.Addr.{ipv4_bits, ipv6_bits, MatchIp};
ghost use Rattle.std.specs.Net.Grammar.{IsIpText, IsIpv4Text, IsIpv6Text};
ghost use Rattle.resources_ip_prefix.specs.Address.{bits_of};
ghost use Rattle.resources_ip_prefix.specs.Family.{max_len_of};
ghost use Rattle.resources_ip_prefix.specs.Prefix.{prefix_addr, prefix_len, run_of_prefix};
ghost use Rattle.resources_ip_prefix.specs.ReadTexts.{IsAddrText, IsNoAddr, IsLengthText, ReadsPrefix};
ghost use Rattle.resources_ip_prefix.specs.declared.addr.AddressFamily.TheVariants.{Ipv4, Ipv6};
ghost use Rattle.resources_ip_prefix.specs.declared.error.FromStrError.TheVariants as Cause;
ghost use Rattle.resources_ip_prefix.specs.Text.{v4_text, v6_text, slashed};
ghost use Rattle.resources_ip_prefix.specs.Whole.{IsWhole};

use crate::addr::{Addr, AddressFamily};
use crate::error::FromStrError;
use crate::prefix::Prefix;
use std::fmt;
use std::net::{AddrParseError, IpAddr, Ipv4Addr, Ipv6Addr};
use std::str::FromStr;

impl Addr {
    /// The address of a dotted text.
    pub fn from_v4_str(text: &str) -> Result<Self, AddrParseError>
        ensures { MatchResult result
            (λ a. (ip : _) × IsIpv4Text text.now ip × (bits_of a ≡ ipv4_bits ip * 2 ^ 96))
            (λ _. (ip : _) → ¬ (IsIpv4Text text.now ip)) }
    {
        Ok(Addr::from_v4(text.parse::<Ipv4Addr>()?))
    }

    /// The address of a text in groups (RFC 4291 2.2), whose end may be dotted.
    pub fn from_v6_str(text: &str) -> Result<Self, AddrParseError>
        ensures { MatchResult result
            (λ a. (ip : _) × IsIpv6Text text.now ip × (bits_of a ≡ ipv6_bits ip))
            (λ _. (ip : _) → ¬ (IsIpv6Text text.now ip)) }
    {
        Ok(Addr::from_v6(text.parse::<Ipv6Addr>()?))
    }

    /// The address of a text of the family.
    pub fn from_family_str(family: AddressFamily, text: &str) -> Result<Self, FromStrError>
        ensures { MatchResult result (λ a. IsAddrText family text.now (bits_of a))
            (λ e. (e ≡ Cause.Addr) × IsNoAddr family text.now) }
    {
        match family {
            AddressFamily::Ipv4 => Ok(Addr::from_v4_str(text)?),
            AddressFamily::Ipv6 => Ok(Addr::from_v6_str(text)?),
        }
    }

    /// Writes the first 32 bits as an IPv4 address.
    pub fn fmt_v4<W: fmt::Write>(self, f: &mut fmt::Formatter<W>) -> fmt::Result
        ensures { DisplaysOnOk W.Write.write_str_gives f.old result (Some (v4_text (bits_of self)))
            f.new }
    {
        write!(f, "{}", self.to_v4())
    }

    /// Writes the bits as an IPv6 address (RFC 5952).
    pub fn fmt_v6<W: fmt::Write>(self, f: &mut fmt::Formatter<W>) -> fmt::Result
        ensures { DisplaysOnOk W.Write.write_str_gives f.old result (Some (v6_text (bits_of self)))
            f.new }
    {
        write!(f, "{}", self.to_v6())
    }
}

/// The address of a text of either family.
impl FromStr for Addr {
    type Err = AddrParseError;

    ghost from_str_gives = { λ text verdict. MatchResult verdict
        (λ a. (ip : _) × IsIpText text ip
        × MatchIp ip (λ v4. bits_of a ≡ ipv4_bits v4 * 2 ^ 96) (λ v6. bits_of a ≡ ipv6_bits v6))
        (λ _. (ip : _) → ¬ (IsIpText text ip)) };

    fn from_str(text: &str) -> Result<Self, AddrParseError> {
        Ok(match text.parse::<IpAddr>()? {
            IpAddr::V4(addr) => Addr::from_v4(addr),
            IpAddr::V6(addr) => Addr::from_v6(addr),
        })
    }
}

impl Prefix {
    /// The prefix of a text `10.0.0.0/8`; host bits are cleared. The first failing test decides, as of
    /// `from_family_str`.
    pub fn from_v4_str(text: &str) -> Result<Self, FromStrError>
        ensures len { IfOk result (λ p. prefix_len p ≤ 32) }
        ensures whole { IfOk result (λ p. IsWhole (run_of_prefix p)) }
        ensures reads { ReadsPrefix Ipv4 text.now result }
    {
        Prefix::from_family_str(AddressFamily::Ipv4, text)
    }

    /// The prefix of a text `2001:db8::/32`; host bits are cleared. The first failing test decides, as of
    /// `from_family_str`.
    pub fn from_v6_str(text: &str) -> Result<Self, FromStrError>
        ensures { ReadsPrefix Ipv6 text.now result }
    {
        Prefix::from_family_str(AddressFamily::Ipv6, text)
    }

    /// The prefix of an address of the family, a slash and a length; host bits are cleared. The first failing test
    /// decides: `MissingSeparator` where there is no slash, `Addr`, `PrefixLen`.
    pub fn from_family_str(family: AddressFamily, text: &str) -> Result<Self, FromStrError>
        ensures len { IfOk result (λ p. prefix_len p ≤ max_len_of family) }
        ensures reads { ReadsPrefix family text.now result }
    {
        let Some((address, digits)) = text.split_once('/') else {
            return Err(FromStrError::MissingSeparator);
        };
        let addr = Addr::from_family_str(family, address)?;
        let len = length_of(family, digits)?;
        Ok(Prefix::new(addr, len))
    }

    /// Writes the IPv4 prefix.
    pub fn fmt_v4<W: fmt::Write>(self, f: &mut fmt::Formatter<W>) -> fmt::Result
        ensures { DisplaysOnOk W.Write.write_str_gives f.old result
            (Some (slashed (v4_text (bits_of (prefix_addr self))) (prefix_len self))) f.new }
    {
        write!(f, "{}/{}", self.addr().to_v4(), self.addr_len())
    }

    /// Writes the IPv6 prefix.
    pub fn fmt_v6<W: fmt::Write>(self, f: &mut fmt::Formatter<W>) -> fmt::Result
        ensures { DisplaysOnOk W.Write.write_str_gives f.old result
            (Some (slashed (v6_text (bits_of (prefix_addr self))) (prefix_len self))) f.new }
    {
        write!(f, "{}/{}", self.addr().to_v6(), self.addr_len())
    }
}

// The length of a prefix, in decimal digits; zeros or one plus may stand in front.
fn length_of(family: AddressFamily, digits: &str) -> Result<u8, FromStrError>
    ensures read { MatchResult result (IsLengthText family digits.now)
        (λ e. (e ≡ Cause.PrefixLen) × ((len : ℕ) → ¬ (IsLengthText family digits.now len))) }
    ensures short { IfOk result (λ len. len ≤ 128) }
{
    match digits.parse::<u8>() {
        Ok(len) => {
            if len <= family.max_addr_len() {
                Ok(len)
            } else {
                Err(FromStrError::PrefixLen)
            }
        }
        Err(_) => Err(FromStrError::PrefixLen),
    }
}
