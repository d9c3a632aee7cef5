//! Whether a claim fits in what is held.

ghost use Rattle.std.specs.Prelude.{IfOk, OnErr};
ghost use Rattle.rpki_walk.specs.resources_chain.Sets.{InRuns};
ghost use Rattle.rpki_walk.specs.resources_chain.Claims.{FitsIn};
ghost use Rattle.rpki_walk.specs.resources_chain.declared.claims.Overclaim.TheVariants.{Refuse};
ghost use Rattle.rpki_walk.specs.Steps.{Covers, FitsAll, FitsOrTells};

use crate::step::lent::{Claim, Holding};
use resources::{
    AsBlocks, AsResources, ClaimError, IpBlocks, IpResources, Overclaim, OverclaimedAsResources,
    OverclaimedIpResources,
};
use rpki_rules::reason::Overclaimed;
use std::alloc::{AllocError, Global};

// Whether the addresses that are listed of one family are held, or which aren't.
fn covered_addresses(
    alloc: Global,
    held: &IpBlocks,
    claim: &IpResources,
) -> Result<Result<(), OverclaimedIpResources>, AllocError>
    ensures told { IfOk result (Covers claim.now held.now) }
    ensures memory { OnErr result (¬ (FitsIn Refuse claim.now (InRuns held.now))) }
{
    match held.verify_covered(alloc, claim) {
        Ok(()) => Ok(Ok(())),
        Err(ClaimError::Overclaimed(numbers)) => Ok(Err(numbers)),
        Err(ClaimError::Memory) => Err(AllocError),
    }
}

// Whether the AS numbers that are listed are held, or which aren't.
fn covered_numbers(
    alloc: Global,
    held: &AsBlocks,
    claim: &AsResources,
) -> Result<Result<(), OverclaimedAsResources>, AllocError>
    ensures told { IfOk result (Covers claim.now held.now) }
    ensures memory { OnErr result (¬ (FitsIn Refuse claim.now (InRuns held.now))) }
{
    match held.verify_covered(alloc, claim) {
        Ok(()) => Ok(Ok(())),
        Err(ClaimError::Overclaimed(numbers)) => Ok(Err(numbers)),
        Err(ClaimError::Memory) => Err(AllocError),
    }
}

/// Whether the claim fits: under `Refuse` each number that it lists, of each kind, is held (RFC 6487 7.2); under `Trim` any
/// claim does (RFC 8360 4.2). Where it doesn't fit: the first kind of which it lists what isn't held, IPv4 first, then
/// IPv6, and the numbers of it that aren't. Memory is wanted only to tell these.
pub fn claim_fits(
    alloc: Global,
    holding: &Holding<'_>,
    claim: &Claim<'_>,
) -> Result<Result<(), Overclaimed>, AllocError>
    ensures told { IfOk result (FitsOrTells claim.now holding.now) }
    ensures memory { OnErr result (¬ (FitsAll claim.now holding.now)) }
{
    match claim.mode {
        Overclaim::Trim => Ok(Ok(())),
        Overclaim::Refuse => {
            if let Err(numbers) = covered_addresses(alloc, holding.ipv4, claim.ipv4)? {
                return Ok(Err(Overclaimed::V4(numbers.v4())));
            }
            if let Err(numbers) = covered_addresses(alloc, holding.ipv6, claim.ipv6)? {
                return Ok(Err(Overclaimed::V6(numbers.v6())));
            }
            if let Err(numbers) = covered_numbers(alloc, holding.asn, claim.asn)? {
                return Ok(Err(Overclaimed::Asn(numbers)));
            }
            Ok(Ok(()))
        }
    }
}
