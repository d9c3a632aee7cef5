//! Addresses of route origin attestations that are put together: whether they are of a family, and as resources
//! (RFC 9582 4.3.2, 5).

ghost use Rattle.std.specs.Prelude.{◌↔◌, All, IfOk, IsTrue, List};
ghost use Rattle.objects.specs.objects_payload.Roas.{RoaAddress};
ghost use Rattle.objects.specs.resources_chain.Sets.{InRuns, IsRunsOf};
ghost use Rattle.objects_payload.specs.Addresses.{AllOf, IsOf, roa_address};
ghost use Rattle.objects.specs.Issued.{AreResourcesOf, runs_of};

use certs_extension::IpResources;
use objects_payload::roa::{RoaIpAddress, RoaIpAddresses, RoaIpAddressesBuilder};
use resources_ip::{AddressFamily, IpBlock, IpBlocks, IpBlocksBuilder};
use std::alloc::{AllocError, Global};

// Whether an address is one of the family.
fn is_of_family(address: RoaIpAddress, family: AddressFamily) -> bool
    ensures { IsTrue result ↔ IsOf family (roa_address address) }
{
    let len = address.prefix().addr_len();
    let most = family.max_addr_len();
    match address.max_length() {
        Some(max_length) => len <= most && len <= max_length && max_length <= most,
        None => len <= most,
    }
}

// Whether all addresses are of the family, one by one.
fn are_all_of(addresses: &RoaIpAddresses, family: AddressFamily) -> bool
    ensures { IsTrue result ↔ All (IsOf family) addresses.now }
{
    addresses
        .iter()
        .all(|address| is_of_family(address, family))
}

/// Whether each of the addresses is one of the family: its length isn't above that of the family's addresses, nor is the
/// greatest length, which isn't below its length (RFC 9582 4.3.2). An attestation of others can't be put together.
pub fn are_of_family(addresses: &RoaIpAddresses, family: AddressFamily) -> bool
    ensures { IsTrue result ↔ AllOf family addresses.now }
{
    are_all_of(addresses, family)
}

// The set of all addresses that begin with one of these prefixes.
fn blocks_of(alloc: Global, addresses: &RoaIpAddresses) -> Result<IpBlocks, AllocError>
    ensures { IfOk result (IsRunsOf (InRuns (runs_of addresses.now))) }
{
    let mut blocks = IpBlocksBuilder::new(alloc);
    for address in addresses.iter() {
        blocks.push(IpBlock::Prefix(address.prefix()))?;
    }
    blocks.finalize(alloc)
}

/// These prefixes, as resources; none where there are none.
pub(crate) fn resources_of(
    alloc: Global,
    addresses: &RoaIpAddresses,
) -> Result<IpResources, AllocError>
    ensures { IfOk result (AreResourcesOf addresses.now) }
{
    if addresses.is_empty() {
        return Ok(IpResources::missing());
    }
    let blocks = blocks_of(alloc, addresses)?;
    Ok(IpResources::blocks(blocks))
}

/// Addresses that are resources.
pub trait ToIpResources {
    // The addresses.
    ghost addresses: { Self → List RoaAddress };

    /// The set of all addresses that begin with one of the prefixes, as resources; none where there are no prefixes
    /// (RFC 9582 5). Refused for lack of memory alone.
    fn to_resources(&self, alloc: Global) -> Result<IpResources, AllocError>
        ensures { IfOk result (AreResourcesOf (addresses self.now)) };
}

impl ToIpResources for RoaIpAddresses {
    ghost addresses = { λ a. a };

    fn to_resources(&self, alloc: Global) -> Result<IpResources, AllocError> {
        resources_of(alloc, self)
    }
}

impl ToIpResources for RoaIpAddressesBuilder {
    ghost addresses = { λ a. a };

    fn to_resources(&self, alloc: Global) -> Result<IpResources, AllocError> {
        let addresses = self.to_addresses(alloc)?;
        let resources = resources_of(alloc, &addresses);
        drop(addresses);
        resources
    }
}
