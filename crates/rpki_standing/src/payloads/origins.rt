//! The origins of route origin attestations (RFC 9582 4).

ghost use Rattle.std.specs.Prelude.{◌≡◌, ◌++◌, OnErr, OnOk, map};
ghost use Rattle.objects_payload.specs.Addresses.{roa_address};
ghost use Rattle.rpki_rules.specs.Views.{kind_of, origin_of};
ghost use Rattle.rpki_rules.specs.Attests.{OfRoa, origins, origins_of};
ghost use Rattle.rpki_standing.specs.Views.{Extends, origin_by};

use objects_payload::roa::{RoaIpAddress, RoaIpAddresses, RouteOriginAttestation};
use rpki_rules::{AddressFamily, Asn, Origin};
use std::alloc::AllocError;

// The origin of one prefix.
fn origin_at(asn: Asn, family: AddressFamily, address: RoaIpAddress) -> Origin
    ensures { origin_of result ≡ origin_by (kind_of family) asn.value (roa_address address) }
{
    let prefix = address.prefix();
    let max_len = match address.max_length() {
        Some(max_len) => max_len,
        None => prefix.addr_len(),
    };
    Origin::new(asn, family, prefix, max_len)
}

// Adds the origins of one family's prefixes; some of them where memory runs out.
fn add_family(
    asn: Asn,
    family: AddressFamily,
    addresses: &RoaIpAddresses,
    out: &mut Vec<Origin>,
) -> Result<(), AllocError>
    ensures ok { OnOk result (map origin_of out.new.items
        ≡ map origin_of out.old.items ++ origins_of (kind_of family) asn.value addresses.now) }
    ensures kept { Extends out.old.items out.new.items }
{
    for address in addresses.iter() {
        out.push(origin_at(asn, family, address))?;
    }
    Ok(())
}

// Adds the origins of both families; some of them where memory runs out.
fn add_families(content: &RouteOriginAttestation, out: &mut Vec<Origin>) -> Result<(), AllocError>
    ensures ok { OnOk result (map origin_of out.new.items
        ≡ map origin_of out.old.items ++ origins (OfRoa content.now)) }
    ensures kept { Extends out.old.items out.new.items }
{
    let asn = content.as_id();
    add_family(asn, AddressFamily::Ipv4, content.v4_addrs(), out)?;
    add_family(asn, AddressFamily::Ipv6, content.v6_addrs(), out)
}

/// Adds the origins that a route origin attestation names: those of IPv4, then those of IPv6, in their order. Refused
/// for lack of memory alone, and then nothing is added.
pub fn add_roa_origins(
    content: &RouteOriginAttestation,
    out: &mut Vec<Origin>,
) -> Result<(), AllocError>
    ensures ok { OnOk result (map origin_of out.new.items
        ≡ map origin_of out.old.items ++ origins (OfRoa content.now)) }
    ensures err { OnErr result (out.new.items ≡ out.old.items) }
{
    let count = out.len();
    let added = add_families(content, out);
    if added.is_err() {
        out.truncate(count);
    }
    added
}
