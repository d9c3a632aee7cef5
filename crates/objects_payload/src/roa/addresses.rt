//! The addresses of one family (RFC 9582 4.3.2).

ghost use Rattle.std.specs.Prelude.{◌≡◌, ◌↔◌, [], IfOk, IsTrue, OnErr, map, true};
ghost use Rattle.std.specs.Iterator.{YieldsFirstBy, item_count};
ghost use Rattle.objects_payload.specs.bcder_content.Exact.{ReadsAs};
ghost use Rattle.objects_payload.specs.bcder_content.Grammar.{Inside};
ghost use Rattle.objects_payload.specs.bcder_content.Here.{here};
ghost use Rattle.objects_payload.specs.bcder_content.InMode.{ReadsFields};
ghost use Rattle.objects_payload.specs.bcder_tree.Tags.{sequence_tag};
ghost use Rattle.objects_payload.specs.Addresses.{AreAddresses, roa_address};

use crate::roa::address::RoaIpAddress;
use resources_asn::decode::{Constructed, DecodeError, Source};
use resources_ip_prefix::AddressFamily;
use std::alloc::{AllocError, Global};
use std::marker::Model;

/// Addresses, in the order in which they stood. Contracts see their list.
#[derive(Debug, Drop)]
pub struct RoaIpAddresses {
    addresses: Vec<RoaIpAddress>,
}

impl Model for RoaIpAddresses {
    ghost use Rattle.std.specs.Prelude.{List, map};
    ghost use Rattle.objects_payload.specs.Roas.{RoaAddress};
    ghost use Rattle.objects_payload.specs.Addresses.{roa_address};

    ghost Value = { List RoaAddress };

    ghost view = { λ a. map roa_address a.addresses.items };
}

// The addresses that are left of a content.
fn take_addresses<S: Source>(
    alloc: Global,
    cons: &mut Constructed<S>,
    family: AddressFamily,
) -> Result<Vec<RoaIpAddress>, DecodeError<S::Error>>
    ensures { ReadsFields (λ v. map roa_address v.items) (AreAddresses family)
        (here S.rest cons.old) result (here S.rest cons.new) }
{
    let mut addresses = Vec::new(alloc);
    while let Some(address) = RoaIpAddress::take_opt_from(alloc, cons, family)? {
        addresses.push(address)?;
    }
    Ok(addresses)
}

impl RoaIpAddresses {
    /// No addresses.
    pub fn empty(alloc: Global) -> Self
        ensures { result ≡ [] }
    {
        RoaIpAddresses {
            addresses: Vec::new(alloc),
        }
    }

    // The addresses of a slice.
    pub(crate) fn from_slice(alloc: Global, addresses: &[RoaIpAddress]) -> Result<Self, AllocError>
        ensures { IfOk result (λ l. l ≡ map roa_address addresses.now) }
    {
        let addresses = Vec::from_slice(alloc, addresses)?;
        Ok(RoaIpAddresses { addresses })
    }

    /// Whether there are none.
    pub fn is_empty(&self) -> bool
        ensures { IsTrue result ↔ (self.now ≡ []) }
    {
        self.addresses.is_empty()
    }

    /// The addresses, in their order.
    pub fn iter(&self) -> RoaIpAddressIter<'_>
        ensures { result ≡ self.now }
    {
        RoaIpAddressIter {
            rest: self.as_slice(),
        }
    }

    // The addresses as a slice.
    pub(crate) fn as_slice(&self) -> &[RoaIpAddress]
        ensures { map roa_address result.now ≡ self.now }
    {
        self.addresses.as_slice()
    }

    // The addresses of the content of a SEQUENCE.
    fn from_constructed<S: Source>(
        alloc: Global,
        cons: &mut Constructed<S>,
        family: AddressFamily,
    ) -> Result<Self, DecodeError<S::Error>>
        ensures { ReadsFields (λ l. l) (AreAddresses family)
            (here S.rest cons.old) result (here S.rest cons.new) }
    {
        match take_addresses(alloc, cons, family) {
            Ok(addresses) => Ok(RoaIpAddresses { addresses }),
            Err(error) => Err(error),
        }
    }

    /// The next value, a SEQUENCE of addresses of that family.
    pub fn take_from<S: Source>(
        alloc: Global,
        cons: &mut Constructed<S>,
        family: AddressFamily,
    ) -> Result<Self, DecodeError<S::Error>>
        ensures reads { ReadsAs (λ l. l)
            (Inside sequence_tag (AreAddresses family (here S.rest cons.old).mode))
            (here S.rest cons.old) result (here S.rest cons.new) }
        ensures failed { OnErr result ((here S.rest cons.new).failed ≡ true) }
    {
        cons.take_sequence(
            |cons|
                ensures { ReadsFields (λ l. l) (AreAddresses family)
                    (here S.rest cons.old) result (here S.rest cons.new) }
            { RoaIpAddresses::from_constructed(alloc, cons, family) },
        )
    }
}

/// Addresses, one by one. Contracts see the list of those that are left.
#[derive(Clone, Debug, Drop)]
pub struct RoaIpAddressIter<'a> {
    rest: &'a [RoaIpAddress],
}

impl<'a> Model for RoaIpAddressIter<'a> {
    ghost use Rattle.std.specs.Prelude.{List, map};
    ghost use Rattle.objects_payload.specs.Roas.{RoaAddress};
    ghost use Rattle.objects_payload.specs.Addresses.{roa_address};

    ghost Value = { List RoaAddress };

    ghost view = { λ i. map roa_address i.rest.now };
}

impl<'a> Iterator for RoaIpAddressIter<'a> {
    type Item = RoaIpAddress;

    ghost next_gives = { YieldsFirstBy roa_address (λ s. s) };

    ghost remaining = { item_count (λ s. s) };

    fn next(&mut self) -> Option<RoaIpAddress> {
        let (first, rest) = self.rest.split_first()?;
        self.rest = rest;
        Some(*first)
    }
}
