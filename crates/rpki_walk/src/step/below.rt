//! What is held below.

ghost use Rattle.std.specs.Prelude.{◌≡◌, IfOk};
ghost use Rattle.rpki_walk.specs.Steps.{FindsHeld, FindsKept};

use crate::step::lent::{Claim, Holding};
use resources::{
    AsBlocks, AsResources, ClaimError, IpBlocks, IpResources, Overclaim, OverclaimedAsResources,
    OverclaimedIpResources,
};
use rpki_rules::reason::Overclaimed;
use std::alloc::{AllocError, Global};
use std::marker::Model;

/// What a certificate holds of each kind of number resources. Contracts see the sets.
#[derive(Drop)]
pub struct Held {
    asn: AsBlocks,
    ipv4: IpBlocks,
    ipv6: IpBlocks,
}

impl Model for Held {
    ghost use Rattle.rpki_walk.specs.resources.Resources.{Resources};

    ghost Value = { Resources };

    ghost view = { λ h. record { asn = h.asn; ipv4 = h.ipv4; ipv6 = h.ipv6 } };
}

impl Held {
    /// The AS numbers.
    pub fn asn(&self) -> &AsBlocks
        ensures { result.now ≡ self.now.asn }
    {
        &self.asn
    }

    /// The IPv4 addresses.
    pub fn ipv4(&self) -> &IpBlocks
        ensures { result.now ≡ self.now.ipv4 }
    {
        &self.ipv4
    }

    /// The IPv6 addresses.
    pub fn ipv6(&self) -> &IpBlocks
        ensures { result.now ≡ self.now.ipv6 }
    {
        &self.ipv6
    }
}

// The addresses of one family that are held below, or those that are listed and not held.
fn kept_addresses(
    alloc: Global,
    held: &IpBlocks,
    claim: &IpResources,
    mode: Overclaim,
) -> Result<Result<IpBlocks, OverclaimedIpResources>, AllocError>
    ensures { IfOk result (FindsKept mode claim.now held.now) }
{
    match held.verify_issued(alloc, claim, mode) {
        Ok(kept) => Ok(Ok(kept)),
        Err(ClaimError::Overclaimed(numbers)) => Ok(Err(numbers)),
        Err(ClaimError::Memory) => Err(AllocError),
    }
}

// The AS numbers that are held below, or those that are listed and not held.
fn kept_numbers(
    alloc: Global,
    held: &AsBlocks,
    claim: &AsResources,
    mode: Overclaim,
) -> Result<Result<AsBlocks, OverclaimedAsResources>, AllocError>
    ensures { IfOk result (FindsKept mode claim.now held.now) }
{
    match held.verify_issued(alloc, claim, mode) {
        Ok(kept) => Ok(Ok(kept)),
        Err(ClaimError::Overclaimed(numbers)) => Ok(Err(numbers)),
        Err(ClaimError::Memory) => Err(AllocError),
    }
}

/// What a certificate that claims so much then holds: of a kind that is missing nothing, of one that is inherited all that
/// is held above, and of one that is listed what it lists and is held above (RFC 6487 7.2, RFC 8360 4.2). Where its claim
/// doesn't fit: the first kind of which it lists what isn't held, IPv4 first, then IPv6, and the numbers of it that aren't.
pub fn held_below(
    alloc: Global,
    holding: &Holding<'_>,
    claim: &Claim<'_>,
) -> Result<Result<Held, Overclaimed>, AllocError>
    ensures { IfOk result (FindsHeld claim.now holding.now) }
{
    let ipv4 = match kept_addresses(alloc, holding.ipv4, claim.ipv4, claim.mode)? {
        Ok(kept) => kept,
        Err(numbers) => return Ok(Err(Overclaimed::V4(numbers.v4()))),
    };
    let ipv6 = match kept_addresses(alloc, holding.ipv6, claim.ipv6, claim.mode)? {
        Ok(kept) => kept,
        Err(numbers) => return Ok(Err(Overclaimed::V6(numbers.v6()))),
    };
    let asn = match kept_numbers(alloc, holding.asn, claim.asn, claim.mode)? {
        Ok(kept) => kept,
        Err(numbers) => return Ok(Err(Overclaimed::Asn(numbers))),
    };
    Ok(Ok(Held { asn, ipv4, ipv6 }))
}
