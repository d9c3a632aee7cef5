//! One prefix of a route origin attestation, and its greatest length (RFC 9582 4.3.2).

ghost use Rattle.std.specs.Prelude.{◌≡◌, ◌≤◌, ◌↔◌, IsTrue, OnErr, true};
ghost use Rattle.objects_payload.specs.Roas.{HasMaxLen, address_of};
ghost use Rattle.objects_payload.specs.bcder_content.Exact.{ReadsOptAs};
ghost use Rattle.objects_payload.specs.bcder_content.Here.{here};
ghost use Rattle.objects_payload.specs.bcder_content.InMode.{ReadsFields};
ghost use Rattle.objects_payload.specs.bcder_tree.Tags.{sequence_tag};
ghost use Rattle.objects_payload.specs.resources_ip_prefix.Address.{bits_of};
ghost use Rattle.objects_payload.specs.resources_ip_prefix.Encodings.{prefix_bits};
ghost use Rattle.objects_payload.specs.resources_ip_prefix.Prefixes.{prefix_run};
ghost use Rattle.objects_payload.specs.Addresses.{AreAddress, AreAddressFields, IsAddressOf, address_fields, address_from, roa_address};

use resources_asn::decode::{Constructed, ContentError, DecodeError, Source};
use resources_ip_prefix::{Addr, AddressFamily, Prefix};
use std::alloc::Global;
use std::net::IpAddr;

/// A prefix, and the greatest length of the prefixes inside it that are meant too, if one is given.
///
/// `ROAIPAddress ::= SEQUENCE { address IPAddress, maxLength INTEGER OPTIONAL }` (RFC 9582 4.3.2)
#[derive(Clone, Copy, Debug, PartialEq, Eq)]
pub struct RoaIpAddress {
    prefix: Prefix,
    max_length: Option<u8>,
}

impl RoaIpAddress {
    /// The prefix with that greatest length.
    pub fn new(prefix: Prefix, max_length: Option<u8>) -> Self
        ensures { roa_address result ≡ address_of (prefix_bits prefix, (max_length, tt)) }
    {
        RoaIpAddress { prefix, max_length }
    }

    /// The prefix of the address's first `len` bits, at most 128, with that greatest length. The bits of an IPv4
    /// address are the first 32 of 128.
    pub fn new_addr(addr: IpAddr, len: u8, max_length: Option<u8>) -> Self
        requires { len ≤ 128 }
        ensures { roa_address result ≡ address_from addr len max_length }
    {
        RoaIpAddress::new(Prefix::new(Addr::from(addr), len), max_length)
    }

    /// The prefix.
    pub fn prefix(self) -> Prefix
        ensures { prefix_bits result
            ≡ record { addr = (roa_address self).addr; len = (roa_address self).len } }
    {
        self.prefix
    }

    /// The first and the last of its addresses.
    pub fn range(self) -> (Addr, Addr)
        ensures first { bits_of result.0
            ≡ (prefix_run (roa_address self).addr (roa_address self).len).first }
        ensures last { bits_of result.1
            ≡ (prefix_run (roa_address self).addr (roa_address self).len).last }
    {
        (self.prefix.min(), self.prefix.max())
    }

    /// The greatest length, if one is given.
    pub fn max_length(self) -> Option<u8>
        ensures { result ≡ (roa_address self).max_len }
    {
        self.max_length
    }

    // Whether the greatest length, if one is given, lies between the prefix's and that of an address of the family.
    fn has_max_length(self, family: AddressFamily) -> bool
        ensures { IsTrue result ↔ HasMaxLen family (roa_address self) }
    {
        match self.max_length {
            Some(most) => self.prefix.addr_len() <= most && most <= family.max_addr_len(),
            None => true,
        }
    }

    // The fields of an address, whatever its greatest length.
    fn take_fields<S: Source>(
        alloc: Global,
        cons: &mut Constructed<S>,
        family: AddressFamily,
    ) -> Result<Self, DecodeError<S::Error>>
        ensures { ReadsFields address_fields (AreAddressFields family)
            (here S.rest cons.old) result (here S.rest cons.new) }
    {
        let prefix = Prefix::take_from(alloc, cons, family)?;
        let max_length = cons.take_opt_u8()?;
        Ok(RoaIpAddress { prefix, max_length })
    }

    // The address of the content of a SEQUENCE.
    fn from_constructed<S: Source>(
        alloc: Global,
        cons: &mut Constructed<S>,
        family: AddressFamily,
    ) -> Result<Self, DecodeError<S::Error>>
        ensures { ReadsFields roa_address (AreAddress family)
            (here S.rest cons.old) result (here S.rest cons.new) }
    {
        let address = RoaIpAddress::take_fields(alloc, cons, family)?;
        if !address.has_max_length(family) {
            return Err(cons.content_err(ContentError::from_static(
                "a greatest length that is out of its bounds",
            )));
        }
        Ok(address)
    }

    /// The next address, of that family, if a SEQUENCE is next; one that is no such address is refused.
    pub fn take_opt_from<S: Source>(
        alloc: Global,
        cons: &mut Constructed<S>,
        family: AddressFamily,
    ) -> Result<Option<Self>, DecodeError<S::Error>>
        ensures reads { ReadsOptAs roa_address sequence_tag
            (IsAddressOf family (here S.rest cons.old).mode)
            (here S.rest cons.old) result (here S.rest cons.new) }
        ensures failed { OnErr result ((here S.rest cons.new).failed ≡ true) }
    {
        cons.take_opt_sequence(
            |cons|
                ensures { ReadsFields roa_address (AreAddress family)
                    (here S.rest cons.old) result (here S.rest cons.new) }
            { RoaIpAddress::from_constructed(alloc, cons, family) },
        )
    }
}
