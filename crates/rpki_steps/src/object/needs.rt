//! The numbers that an object needs of its chain: the addresses of its prefixes, or its customer (RFC 9582 5,
//! draft-ietf-sidrops-aspa-profile 4).

ghost use Rattle.std.specs.Prelude.{◌≡◌, IfOk, map};
ghost use Rattle.rpki_walk.specs.resources_chain.Sets.{InRuns, IsRunsOf};
ghost use Rattle.rpki_walk.specs.resources_ip.Block.{run_of_block};
ghost use Rattle.rpki_walk.specs.resources_ip_prefix.Prefixes.{prefix_run};
ghost use Rattle.rpki_standing.specs.objects_payload.Addresses.{roa_address};
ghost use Rattle.rpki_standing.specs.Views.{payload_of};
ghost use Rattle.rpki_rules.specs.Attests.{OfAspa, OfRoa};
ghost use Rattle.rpki_rules.specs.Judge.{Needs, runs_of};
ghost use Rattle.rpki_judge.specs.Needed.{IsNeed};

use rpki_judge::Needed;
use rpki_judge::asres::AsBlock;
use rpki_judge::chain::{Block, OwnedChain, SharedChain};
use rpki_judge::ipres::IpBlock;
use rpki_standing::payloads::{
    AsProviderAttestation, Payload, RoaIpAddress, RoaIpAddresses, RouteOriginAttestation,
};
use std::alloc::{AllocError, Global};

// The block of the addresses of one prefix.
fn block_of(address: RoaIpAddress) -> IpBlock
    ensures { run_of_block result
        ≡ prefix_run (roa_address address).addr (roa_address address).len }
{
    IpBlock::Prefix(address.prefix())
}

// The blocks of the addresses of all prefixes, in their order.
fn blocks_of(alloc: Global, addresses: &RoaIpAddresses) -> Result<Vec<IpBlock>, AllocError>
    ensures { IfOk result (λ blocks. map run_of_block blocks.items ≡ runs_of addresses.now) }
{
    let mut blocks = Vec::new(alloc);
    for address in addresses.iter() {
        blocks.push(block_of(address))?;
    }
    Ok(blocks)
}

// The set of the numbers of blocks, which may come in any order, overlap and touch.
fn set_of<B: Block>(alloc: Global, blocks: Vec<B>) -> Result<SharedChain<B>, AllocError>
    ensures { IfOk result (IsRunsOf (InRuns (map B.run blocks.items))) }
{
    let chain = OwnedChain::from_vec(alloc, blocks)?;
    SharedChain::from_owned(alloc, chain)
}

// The set of the addresses of all prefixes.
fn addresses_of(
    alloc: Global,
    addresses: &RoaIpAddresses,
) -> Result<SharedChain<IpBlock>, AllocError>
    ensures { IfOk result (IsRunsOf (InRuns (runs_of addresses.now))) }
{
    let blocks = blocks_of(alloc, addresses)?;
    set_of(alloc, blocks)
}

// The set that has the customer alone.
fn customer_of(
    alloc: Global,
    content: &AsProviderAttestation,
) -> Result<SharedChain<AsBlock>, AllocError>
    ensures { IfOk result (IsRunsOf (λ n. n ≡ content.now.customer)) }
{
    let mut blocks = Vec::new(alloc);
    blocks.push(AsBlock::Id(content.customer_as()))?;
    set_of(alloc, blocks)
}

/// What a route origin attestation needs: all addresses of its prefixes, of either family (RFC 9582 5). It needs no AS
/// number.
pub fn roa_needs(alloc: Global, content: &RouteOriginAttestation) -> Result<Needed, AllocError>
    ensures { IfOk result (IsNeed (Needs (OfRoa content.now))) }
{
    let v4 = addresses_of(alloc, content.v4_addrs())?;
    let v6 = addresses_of(alloc, content.v6_addrs())?;
    Ok(Needed::new(SharedChain::empty(), v4, v6))
}

/// What a provider attestation needs: its customer (draft-ietf-sidrops-aspa-profile 4). It needs no addresses, and its
/// providers need not be held.
pub fn aspa_needs(alloc: Global, content: &AsProviderAttestation) -> Result<Needed, AllocError>
    ensures { IfOk result (IsNeed (Needs (OfAspa content.now))) }
{
    let asn = customer_of(alloc, content)?;
    Ok(Needed::new(asn, SharedChain::empty(), SharedChain::empty()))
}

/// What an object needs by what it attests.
pub fn needs_of(alloc: Global, payload: &Payload) -> Result<Needed, AllocError>
    ensures { IfOk result (IsNeed (Needs (payload_of payload.now))) }
{
    match payload {
        Payload::Roa(content) => roa_needs(alloc, content),
        Payload::Aspa(content) => aspa_needs(alloc, content),
    }
}
