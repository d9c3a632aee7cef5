//! Prefixes of IPv4 and IPv6 addresses.

ghost use Rattle.std.specs.Prelude.{◌≡◌, ◌-◌, ◌+◌, ◌<◌, ◌^◌, ◌↔◌, IsTrue, MatchResult, refl};
ghost use Rattle.std.specs.Net.Addr.{MatchIp, IsIpv4OfBits, IsIpv6OfBits, ipv4_bits, ipv6_bits};
ghost use Rattle.resources_ip_prefix.specs.AddrPrefixes.{width, family_of, bits_of, IsPrefix, prefix_around, last_of, Covers, family_cmp, prefix_cmp, Ipv4, Ipv6};
ghost use Rattle.std.specs.Cmp.{partial_equiv_from_equiv, po};
ghost use Rattle.std.specs.Ordering.{as_partial_cmp};
ghost use Rattle.resources_ip_prefix.specs.Orders.{prefix_total, prefix_eq, prefix_equiv, prefix_ties, prefix_fed, prefix_alike};
ghost use Rattle.resources_ip_prefix.specs.Starts.{start_cmp};
ghost use Rattle.resources_ip_prefix.specs.Held.{family_in};
ghost use Rattle.resources_ip_prefix.specs.Refusals.{IsNoPrefix, IsTooLong};

use super::error::PrefixError;
use super::mask::host_mask;
use std::cmp::Ordering;
use std::hash::{Hash, Hasher};
use std::marker::Model;
use std::net::{IpAddr, Ipv4Addr, Ipv6Addr};

// The family of a prefix.
#[derive(Clone, Copy, Debug, PartialEq, Eq)]
enum Kind {
    V4,
    V6,
}

impl Kind {
    // How many bits an address has.
    fn width(self) -> u8
        ensures { result ≡ width (family_in self) }
    {
        match self {
            Kind::V4 => 32,
            Kind::V6 => 128,
        }
    }

    // IPv4 before IPv6.
    fn order(self, other: Self) -> Ordering
        ensures { result ≡ family_cmp (family_in self) (family_in other) }
    {
        match (self, other) {
            (Kind::V4, Kind::V6) => Ordering::Less,
            (Kind::V6, Kind::V4) => Ordering::Greater,
            _ => Ordering::Equal,
        }
    }
}

/// The addresses whose first bits are those of one address (RFC 4632 3.1, RFC 4291 2.3).
///
/// All bits of the address after the prefix's length, the host bits, are zeros.
///
/// Prefixes are ordered by family, IPv4 first, then by their last address, then by length, the longer first: so a
/// prefix comes after all prefixes that it covers.
#[derive(Clone, Copy, Debug)]
pub struct Prefix {
    kind: Kind,
    // The first address, as a number.
    first: u128,
    len: u8,
}

impl Model for Prefix {
    ghost use Rattle.resources_ip_prefix.specs.AddrPrefixes.{PrefixValue};

    ghost Value = { PrefixValue };

    ghost use Rattle.resources_ip_prefix.specs.AddrPrefixes.{IsPrefix};
    ghost use Rattle.resources_ip_prefix.specs.Held.{prefix_in, held_as, held_as_in};

    ghost view = { prefix_in };

    ghost invariant = { λ a. IsPrefix (prefix_in a) };

    ghost inverse = { held_as };

    ghost inverse_ok = { λ a h. held_as_in a };
}

// The family of an address, and its bits as a number.
fn parts(addr: IpAddr) -> (Kind, u128)
    ensures family { family_in result.0 ≡ family_of addr }
    ensures bits { result.1 ≡ bits_of addr }
    ensures within { result.1 < 2 ^ width (family_in result.0) }
{
    match addr {
        IpAddr::V4(addr) => (Kind::V4, u128::from(addr.to_bits())),
        IpAddr::V6(addr) => (Kind::V6, addr.to_bits()),
    }
}

impl Prefix {
    /// The prefix with this first address and length. Refused with `LenOverflow` where the length is above the
    /// address's number of bits, and else with `NonZeroHost` where a bit after the length is set.
    pub fn new(addr: IpAddr, len: u8) -> Result<Self, PrefixError>
        ensures { MatchResult result
            (λ p. IsPrefix p
            × (p ≡ record { family = family_of addr; first = bits_of addr; len = len }))
            (IsNoPrefix (family_of addr) (bits_of addr) len) }
    {
        let (kind, first) = parts(addr);
        if len > kind.width() {
            return Err(PrefixError::LenOverflow);
        }
        if first & host_mask(kind.width() - len) != 0 {
            return Err(PrefixError::NonZeroHost);
        }
        Ok(Prefix { kind, first, len })
    }

    /// `new` of an IPv4 address.
    pub fn new_v4(addr: Ipv4Addr, len: u8) -> Result<Self, PrefixError>
        ensures { MatchResult result
            (λ p. IsPrefix p × (p ≡ record { family = Ipv4; first = ipv4_bits addr; len = len }))
            (IsNoPrefix Ipv4 (ipv4_bits addr) len) }
    {
        Self::new(IpAddr::V4(addr), len)
    }

    /// `new` of an IPv6 address.
    pub fn new_v6(addr: Ipv6Addr, len: u8) -> Result<Self, PrefixError>
        ensures { MatchResult result
            (λ p. IsPrefix p × (p ≡ record { family = Ipv6; first = ipv6_bits addr; len = len }))
            (IsNoPrefix Ipv6 (ipv6_bits addr) len) }
    {
        Self::new(IpAddr::V6(addr), len)
    }

    /// The prefix of this length with this address: host bits are cleared. Refused with `LenOverflow` where the
    /// length is above the address's number of bits.
    pub fn new_relaxed(addr: IpAddr, len: u8) -> Result<Self, PrefixError>
        ensures { MatchResult result
            (λ p. IsPrefix p × (p ≡ prefix_around (family_of addr) (bits_of addr) len))
            (IsTooLong (family_of addr) len) }
    {
        let (kind, bits) = parts(addr);
        if len > kind.width() {
            return Err(PrefixError::LenOverflow);
        }
        let first = bits & !host_mask(kind.width() - len);
        Ok(Prefix { kind, first, len })
    }

    /// `new_relaxed` of an IPv4 address.
    pub fn new_v4_relaxed(addr: Ipv4Addr, len: u8) -> Result<Self, PrefixError>
        ensures { MatchResult result
            (λ p. IsPrefix p × (p ≡ prefix_around Ipv4 (ipv4_bits addr) len))
            (IsTooLong Ipv4 len) }
    {
        Self::new_relaxed(IpAddr::V4(addr), len)
    }

    /// `new_relaxed` of an IPv6 address.
    pub fn new_v6_relaxed(addr: Ipv6Addr, len: u8) -> Result<Self, PrefixError>
        ensures { MatchResult result
            (λ p. IsPrefix p × (p ≡ prefix_around Ipv6 (ipv6_bits addr) len))
            (IsTooLong Ipv6 len) }
    {
        Self::new_relaxed(IpAddr::V6(addr), len)
    }

    /// Whether this is a prefix of IPv4 addresses.
    pub fn is_v4(self) -> bool
        ensures { IsTrue result ↔ (self.family ≡ Ipv4) }
    {
        self.kind == Kind::V4
    }

    /// Whether this is a prefix of IPv6 addresses.
    pub fn is_v6(self) -> bool
        ensures { IsTrue result ↔ (self.family ≡ Ipv6) }
    {
        self.kind == Kind::V6
    }

    /// The first address, whose host bits are zeros.
    pub fn addr(self) -> IpAddr
        ensures family { family_of result ≡ self.family }
        ensures bits { bits_of result ≡ self.first }
        ensures octets { MatchIp result (λ a. IsIpv4OfBits a self.first)
            (λ a. IsIpv6OfBits a self.first) }
    {
        self.min_addr()
    }

    /// How many bits all addresses of the prefix share.
    pub fn len(self) -> u8
        ensures value { result ≡ self.len }
        ensures whole { IsPrefix self }
    {
        self.len
    }

    /// The first address.
    pub fn min_addr(self) -> IpAddr
        ensures family { family_of result ≡ self.family }
        ensures bits { bits_of result ≡ self.first }
        ensures octets { MatchIp result (λ a. IsIpv4OfBits a self.first)
            (λ a. IsIpv6OfBits a self.first) }
    {
        address(self.kind, self.first)
    }

    /// The last address, whose host bits are ones.
    pub fn max_addr(self) -> IpAddr
        ensures family { family_of result ≡ self.family }
        ensures bits { bits_of result ≡ last_of self }
        ensures octets { MatchIp result (λ a. IsIpv4OfBits a (last_of self))
            (λ a. IsIpv6OfBits a (last_of self)) }
    {
        address(self.kind, self.last())
    }

    /// Whether both are of one family, and each address of the other is one of this prefix.
    pub fn covers(self, other: Self) -> bool
        ensures { IsTrue result ↔ Covers self other }
    {
        self.kind == other.kind && self.first <= other.first && other.last() <= self.last()
    }

    /// The order in which prefixes are listed: by family, IPv4 first, then by the first address, then by length, the
    /// shorter first. So a prefix stands before those that it covers.
    pub fn cmp_by_start(&self, other: &Self) -> Ordering
        ensures { result ≡ start_cmp self.now other.now }
    {
        let by_address = self.first.cmp(&other.first);
        let by_length = self.len.cmp(&other.len);
        self.kind.order(other.kind).then(by_address.then(by_length))
    }

    // How many bits an address of the prefix's family has.
    pub(super) fn addr_len(self) -> u8
        ensures { result ≡ width self.family }
    {
        self.kind.width()
    }

    // The last address as a number.
    fn last(self) -> u128
        ensures value { result ≡ last_of self }
        ensures within { last_of self < 2 ^ width self.family }
    {
        self.first + host_mask(self.kind.width() - self.len)
    }
}

impl PartialEq for Prefix {
    ghost eq = { prefix_eq };

    ghost laws = { partial_equiv_from_equiv prefix_equiv };

    fn eq(&self, other: &Prefix) -> bool {
        self.kind == other.kind && self.first == other.first && self.len == other.len
    }
}

impl Eq for Prefix {
    ghost laws = { prefix_equiv };
}

impl Ord for Prefix {
    ghost cmp = { prefix_cmp };

    ghost total = { prefix_total };

    ghost matches_partial_cmp = { λ p q. refl };

    ghost matches_eq = { prefix_ties };

    fn cmp(&self, other: &Prefix) -> Ordering {
        let by_last = self.last().cmp(&other.last());
        let by_length = other.len.cmp(&self.len);
        self.kind.order(other.kind).then(by_last.then(by_length))
    }
}

impl PartialOrd for Prefix {
    ghost partial_cmp = { as_partial_cmp prefix_cmp };

    ghost laws = { po prefix_total prefix_ties };

    fn partial_cmp(&self, other: &Prefix) -> Option<Ordering> {
        Some(self.cmp(other))
    }
}

impl Hash for Prefix {
    ghost hash_input = { prefix_fed };

    ghost respects_eq = { prefix_alike };

    fn hash<H: Hasher>(&self, state: &mut H) {
        match self.kind {
            Kind::V4 => 4u8.hash(state),
            Kind::V6 => 6u8.hash(state),
        }
        self.first.hash(state);
        self.len.hash(state);
    }
}

// The address of this family with these bits.
fn address(kind: Kind, bits: u128) -> IpAddr
    requires { bits < 2 ^ width (family_in kind) }
    ensures family { family_of result ≡ family_in kind }
    ensures bits { bits_of result ≡ bits }
    ensures octets { MatchIp result (λ a. IsIpv4OfBits a bits) (λ a. IsIpv6OfBits a bits) }
{
    match kind {
        Kind::V4 => IpAddr::V4(Ipv4Addr::from_bits(bits as u32)),
        Kind::V6 => IpAddr::V6(Ipv6Addr::from_bits(bits)),
    }
}
