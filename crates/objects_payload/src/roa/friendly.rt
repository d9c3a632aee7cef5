//! Addresses that know their family, one by one.

ghost use Rattle.std.specs.Prelude.{◌≡◌, ◌↔◌, IsTrue, MatchOption};
ghost use Rattle.std.specs.Iterator.{YieldsFirst, item_count};
ghost use Rattle.objects_payload.specs.resources_ip_prefix.MaxLens.{resolved};
ghost use Rattle.objects_payload.specs.resources_ip_prefix.AddrPrefixes.{Ipv4, bits_of, family_of};
ghost use Rattle.objects_payload.specs.Addresses.{IsOf, roa_address};
ghost use Rattle.objects_payload.specs.Friendly.{friendly, friends};

use crate::roa::address::RoaIpAddress;
use crate::roa::attestation::RouteOriginAttestation;
use resources_ip_prefix::AddressFamily;
use resources_ip_prefix::ip_addr::{MaxLenPrefix, Prefix};
use std::marker::Model;
use std::net::IpAddr;

/// An address of a route origin attestation that knows its family. Contracts see its prefix, and the greatest length
/// where one is given (RFC 9582 4.3.2).
#[derive(Clone, Copy, Debug)]
pub struct FriendlyRoaIpAddress {
    address: MaxLenPrefix,
}

impl Model for FriendlyRoaIpAddress {
    ghost use Rattle.objects_payload.specs.resources_ip_prefix.MaxLens.{MaxLenValue};

    ghost Value = { MaxLenValue };

    ghost view = { λ a. a.address };

    ghost inverse = { λ m. record { address = m } };
}

impl FriendlyRoaIpAddress {
    // The address as one of the family; none where it isn't.
    pub(crate) fn new(address: RoaIpAddress, family: AddressFamily) -> Option<Self>
        ensures { MatchOption result (¬ (IsOf family (roa_address address)))
            (λ a. a ≡ friendly family (roa_address address)) }
    {
        let prefix = address.prefix().to_addr_prefix(family)?;
        match MaxLenPrefix::new(prefix, address.max_length()) {
            Ok(address) => Some(FriendlyRoaIpAddress { address }),
            Err(_) => None,
        }
    }

    /// The prefix.
    pub fn prefix(self) -> Prefix
        ensures { result ≡ self.prefix }
    {
        self.address.prefix()
    }

    /// Whether it is one of IPv4.
    pub fn is_v4(self) -> bool
        ensures { IsTrue result ↔ (self.prefix.family ≡ Ipv4) }
    {
        self.address.prefix().is_v4()
    }

    /// The prefix's first address.
    pub fn address(self) -> IpAddr
        ensures family { family_of result ≡ self.prefix.family }
        ensures bits { bits_of result ≡ self.prefix.first }
    {
        self.address.addr()
    }

    /// The prefix's length.
    pub fn address_length(self) -> u8
        ensures { result ≡ self.prefix.len }
    {
        self.address.prefix_len()
    }

    /// The greatest length, or the prefix's own where none is given.
    pub fn max_length(self) -> u8
        ensures { result ≡ resolved self }
    {
        self.address.resolved_max_len()
    }
}

/// The addresses of both families, those of IPv4 first. Contracts see the list of those that are left.
#[derive(Clone, Debug, Drop)]
pub struct FriendlyRoaIpAddressIter<'a> {
    v4: &'a [RoaIpAddress],
    v6: &'a [RoaIpAddress],
}

impl<'a> Model for FriendlyRoaIpAddressIter<'a> {
    ghost use Rattle.std.specs.Prelude.{List, map};
    ghost use Rattle.objects_payload.specs.resources_ip_prefix.MaxLens.{MaxLenValue};
    ghost use Rattle.objects_payload.specs.resources_ip_prefix.declared.addr.AddressFamily.TheVariants as Of;
    ghost use Rattle.objects_payload.specs.Addresses.{AllOf, roa_address};
    ghost use Rattle.objects_payload.specs.Friendly.{friends};

    ghost Value = { List MaxLenValue };

    ghost view = { λ i. friends (map roa_address i.v4.now) (map roa_address i.v6.now) };

    ghost invariant = { λ i. AllOf Of.Ipv4 (map roa_address i.v4.now)
        × AllOf Of.Ipv6 (map roa_address i.v6.now) };
}

impl RouteOriginAttestation {
    /// The addresses of both families, those of IPv4 first.
    pub fn iter(&self) -> FriendlyRoaIpAddressIter<'_>
        ensures { result ≡ friends self.now.v4 self.now.v6 }
    {
        FriendlyRoaIpAddressIter {
            v4: self.v4_addrs().as_slice(),
            v6: self.v6_addrs().as_slice(),
        }
    }
}

impl<'a> Iterator for FriendlyRoaIpAddressIter<'a> {
    type Item = FriendlyRoaIpAddress;

    ghost next_gives = { YieldsFirst (λ s. s) };

    ghost remaining = { item_count (λ s. s) };

    fn next(&mut self) -> Option<FriendlyRoaIpAddress> {
        if let Some((first, rest)) = self.v4.split_first() {
            self.v4 = rest;
            return FriendlyRoaIpAddress::new(*first, AddressFamily::Ipv4);
        }
        let (first, rest) = self.v6.split_first()?;
        self.v6 = rest;
        FriendlyRoaIpAddress::new(*first, AddressFamily::Ipv6)
    }
}
