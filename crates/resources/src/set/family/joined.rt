//! Sets of one family, joined and cut.

ghost use Rattle.std.specs.Prelude.{IfOk};
ghost use Rattle.resources.specs.resources_chain.Sets.{IsRunsOf, InEither, InBoth, InFirstOnly};

use crate::set::family::Family;
use crate::set::family::blocks::FamilyBlocks;
use std::alloc::{AllocError, Global};

/// The addresses of either set.
#[tactic(auto, using(crate::proofs::Joined::fit_either))]
pub fn union<F: Family>(
    alloc: Global,
    one: &FamilyBlocks<F>,
    other: &FamilyBlocks<F>,
) -> Result<FamilyBlocks<F>, AllocError>
    ensures { IfOk result (λ set. IsRunsOf (InEither one.now other.now) set) }
{
    let set = one.as_blocks().union(alloc, other.as_blocks())?;
    Ok(FamilyBlocks::from_blocks(set))
}

/// The addresses of both sets.
#[tactic(auto, using(crate::proofs::Joined::fit_both))]
pub fn intersection<F: Family>(
    alloc: Global,
    one: &FamilyBlocks<F>,
    other: &FamilyBlocks<F>,
) -> Result<FamilyBlocks<F>, AllocError>
    ensures { IfOk result (λ set. IsRunsOf (InBoth one.now other.now) set) }
{
    let set = one.as_blocks().intersection(alloc, other.as_blocks())?;
    Ok(FamilyBlocks::from_blocks(set))
}

/// The addresses of the first set that aren't in the other.
#[tactic(auto, using(crate::proofs::Joined::fit_only))]
pub fn difference<F: Family>(
    alloc: Global,
    one: &FamilyBlocks<F>,
    other: &FamilyBlocks<F>,
) -> Result<FamilyBlocks<F>, AllocError>
    ensures { IfOk result (λ set. IsRunsOf (InFirstOnly one.now other.now) set) }
{
    let set = one.as_blocks().difference(alloc, other.as_blocks())?;
    Ok(FamilyBlocks::from_blocks(set))
}
