//! The cost of a bundle.

ghost use Rattle.std.specs.Prelude.{◌≡◌, IfOk};
ghost use Rattle.rpki_walk.specs.Cost.{IsCost};

use crate::cost::count::Cost;
use crate::cost::tally::Tally;
use crate::cost::walk::count_at;
use crate::repository::Repository;
use std::alloc::{AllocError, Global};

/// How many accepted chains go on below each authority: what a walk that goes over each chain spends on what the authority
/// publishes. A chain goes on below an authority that has a certificate of it which isn't the last. Each chain takes one of
/// the budget; where that is spent and there are more, `AtLeast` has the counts of those that were counted.
pub fn cost<S: Repository>(
    alloc: Global,
    repository: &mut S,
    budget: u64,
) -> Result<Cost, AllocError>
    ensures cost { IfOk result (IsCost (S.world repository.old) budget) }
    ensures same { S.world repository.new ≡ S.world repository.old }
    ensures lender { S.lender repository.new ≡ S.lender repository.old }
{
    let mut tally = Tally::new(alloc, budget);
    for at in 0..repository.locator_count() {
        if !count_at(alloc, repository, &mut tally, at)? {
            return Ok(Cost::AtLeast(tally.counts(alloc)?));
        }
    }
    Ok(Cost::Exactly(tally.counts(alloc)?))
}
