//! IP addresses of both families as numbers of 128 bits.

ghost use Rattle.std.specs.Prelude.{◌≡◌, ◌*◌, ◌/◌, ◌-◌, ◌^◌, ◌≤◌};
ghost use Rattle.std.specs.Int.{to_be_bytes, w128};
ghost use Rattle.std.specs.Net.Addr.{ipv4_bits, ipv6_bits, IsIpv4OfBits, IsIpv6OfBits, MatchIp};
ghost use Rattle.resources_ip_prefix.specs.All.{last_address};
ghost use Rattle.resources_ip_prefix.specs.Prefixes.{first_of, last_of};

use std::net::{IpAddr, Ipv4Addr, Ipv6Addr};

/// An IP address as 128 bits. Of an IPv4 address these are the first 32 (RFC 3779 2.1.1); the others are ones at
/// the end of a range and zeros elsewhere.
#[derive(Clone, Copy, Debug, PartialEq, Eq, PartialOrd, Ord, Hash)]
pub struct Addr {
    bits: u128,
    ghost in_range: { bits ≤ last_address },
}

impl Addr {
    ghost use Rattle.resources_ip_prefix.specs.Address.{bits_of};

    /// The address with these bits.
    pub fn from_bits(bits: u128) -> Self
        ensures { bits_of result ≡ bits }
    {
        Addr { bits }
    }

    /// The IPv4 address, with zeros after it.
    pub fn from_v4(addr: Ipv4Addr) -> Self
        ensures { bits_of result ≡ ipv4_bits addr * 2 ^ 96 }
    {
        Addr::from_bits(u128::from(addr.to_bits()) << 96)
    }

    /// The IPv6 address.
    pub fn from_v6(addr: Ipv6Addr) -> Self
        ensures { bits_of result ≡ ipv6_bits addr }
    {
        Addr::from_bits(addr.to_bits())
    }

    /// The bits.
    pub fn to_bits(self) -> u128
        ensures { result ≡ bits_of self }
    {
        self.bits
    }

    /// The IPv4 address of the first 32 bits.
    pub fn to_v4(self) -> Ipv4Addr
        ensures { IsIpv4OfBits result (bits_of self / 2 ^ 96) }
    {
        Ipv4Addr::from_bits((self.to_bits() >> 96) as u32)
    }

    /// The IPv6 address.
    pub fn to_v6(self) -> Ipv6Addr
        ensures { IsIpv6OfBits result (bits_of self) }
    {
        Ipv6Addr::from_bits(self.to_bits())
    }

    /// The octets, the most significant first.
    pub fn to_bytes(self) -> [u8; 16]
        ensures { result ≡ to_be_bytes w128 (bits_of self) }
    {
        self.to_bits().to_be_bytes()
    }

    /// The address with all but its first `prefix_len` bits cleared; itself from 128 on.
    pub fn to_min(self, prefix_len: u8) -> Self
        ensures { bits_of result ≡ first_of prefix_len (bits_of self) }
    {
        let bits = self.to_bits();
        Addr::from_bits(bits - (bits & host_mask(prefix_len)))
    }

    /// The address with all but its first `prefix_len` bits set; itself from 128 on.
    pub fn to_max(self, prefix_len: u8) -> Self
        ensures { bits_of result ≡ last_of prefix_len (bits_of self) }
    {
        Addr::from_bits(self.to_bits() | host_mask(prefix_len))
    }
}

// Ones after the first `prefix_len` bits.
fn host_mask(prefix_len: u8) -> u128
    ensures { result ≡ 2 ^ (128 - prefix_len) - 1 }
{
    if prefix_len >= 128 {
        return 0;
    }
    u128::MAX >> prefix_len
}

/// A family of addresses (RFC 3779 2.2.3.3).
#[derive(Clone, Copy, Debug, PartialEq, Eq, PartialOrd, Ord, Hash)]
pub enum AddressFamily {
    /// Addresses of 32 bits.
    Ipv4,
    /// Addresses of 128 bits.
    Ipv6,
}

impl AddressFamily {
    ghost use Rattle.std.specs.Prelude.{◌↔◌};
    ghost use Rattle.resources_ip_prefix.specs.declared.addr.AddressFamily.TheVariants.{Ipv6};
    ghost use Rattle.resources_ip_prefix.specs.Family.{max_len_of, HasColon};

    /// How many bits an address of the family has.
    pub fn max_addr_len(self) -> u8
        ensures { result ≡ max_len_of self }
    {
        match self {
            AddressFamily::Ipv4 => 32,
            AddressFamily::Ipv6 => 128,
        }
    }

    /// The family of the text of an address, a prefix or a range: IPv6 where it has a colon, else IPv4.
    pub fn of_text(text: &str) -> Self
        ensures { (result ≡ Ipv6) ↔ HasColon text.now }
    {
        if text.contains(':') {
            AddressFamily::Ipv6
        } else {
            AddressFamily::Ipv4
        }
    }
}

impl From<u128> for Addr {
    ghost use Rattle.resources_ip_prefix.specs.Address.{bits_of};

    ghost from_gives = { λ bits a. bits_of a ≡ bits };

    fn from(bits: u128) -> Self {
        Addr::from_bits(bits)
    }
}

impl From<Addr> for u128 {
    ghost use Rattle.resources_ip_prefix.specs.Address.{bits_of};

    ghost from_gives = { λ a bits. bits ≡ bits_of a };

    fn from(addr: Addr) -> u128 {
        addr.to_bits()
    }
}

impl From<Ipv4Addr> for Addr {
    ghost use Rattle.resources_ip_prefix.specs.Address.{bits_of};

    ghost from_gives = { λ ip a. bits_of a ≡ ipv4_bits ip * 2 ^ 96 };

    fn from(addr: Ipv4Addr) -> Self {
        Addr::from_v4(addr)
    }
}

impl From<Ipv6Addr> for Addr {
    ghost use Rattle.resources_ip_prefix.specs.Address.{bits_of};

    ghost from_gives = { λ ip a. bits_of a ≡ ipv6_bits ip };

    fn from(addr: Ipv6Addr) -> Self {
        Addr::from_v6(addr)
    }
}

impl From<IpAddr> for Addr {
    ghost use Rattle.resources_ip_prefix.specs.Address.{bits_of};

    ghost from_gives = { λ ip a. MatchIp ip (λ v4. bits_of a ≡ ipv4_bits v4 * 2 ^ 96)
        (λ v6. bits_of a ≡ ipv6_bits v6) };

    fn from(addr: IpAddr) -> Self {
        match addr {
            IpAddr::V4(addr) => Addr::from_v4(addr),
            IpAddr::V6(addr) => Addr::from_v6(addr),
        }
    }
}

impl From<Addr> for Ipv4Addr {
    ghost use Rattle.resources_ip_prefix.specs.Address.{bits_of};

    ghost from_gives = { λ a ip. IsIpv4OfBits ip (bits_of a / 2 ^ 96) };

    fn from(addr: Addr) -> Self {
        addr.to_v4()
    }
}

impl From<Addr> for Ipv6Addr {
    ghost use Rattle.resources_ip_prefix.specs.Address.{bits_of};

    ghost from_gives = { λ a ip. IsIpv6OfBits ip (bits_of a) };

    fn from(addr: Addr) -> Self {
        addr.to_v6()
    }
}
