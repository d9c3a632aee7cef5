//! A tally of chains, by the authorities that they go on below.

ghost use Rattle.std.specs.Prelude.{◌≡◌, ◌⊎◌, ◌≤◌, ◌<◌, ◌↔◌, ◌+◌, ◌^◌, ℕ, List, [], map, IfOk, OnOk, IsTrue};
ghost use Rattle.std.specs.List.Sorted.{IsStrictlySortedBy};
ghost use Rattle.std.specs.Option.{unwrap_or};
ghost use Rattle.rpki_rules.specs.Words.{NoRepeat};
ghost use Rattle.rpki_walk.specs.Cost.{count_of, count_cmp};
ghost use Rattle.rpki_walk.specs.Tallied.{Adds, Bumps, IsTally, Lists, told};

use crate::cost::count::Count;
use bytes::Bytes;
use rpki_rules::sorted::sort_once;
use std::alloc::{AllocError, Global};
use std::collections::BTreeMap;

/// How many chains were counted, of which there may be as many as the budget has; and of each authority how many go on
/// below it.
#[derive(Drop)]
pub(crate) struct Tally {
    pub(crate) counts: BTreeMap<Bytes, u64>,
    pub(crate) spent: u64,
    pub(crate) budget: u64,
}

// One more at the authority.
fn bump(counts: &mut BTreeMap<Bytes, u64>, authority: &Bytes) -> Result<(), AllocError>
    ensures { OnOk result (unwrap_or (told counts.old authority.now) 0 + 1 < 2 ^ 64
        → Bumps counts.old counts.new authority.now) }
{
    let before = counts.get(authority).copied().unwrap_or(0);
    counts.insert(authority.clone()?, before.saturating_add(1))?;
    Ok(())
}

impl Tally {
    /// Nothing is counted yet.
    pub(crate) fn new(alloc: Global, budget: u64) -> Self
        ensures tally { IsTally result [] }
        ensures budget { result.budget ≡ budget }
    {
        Tally {
            counts: BTreeMap::new(alloc),
            spent: 0,
            budget,
        }
    }

    /// Counts a chain that goes on below these authorities, if the budget has room for one; whether it has.
    pub(crate) fn add(&mut self, above: &[Bytes]) -> Result<bool, AllocError>
        ensures room { IfOk result (λ b. IsTrue b ↔ (self.old.spent < self.old.budget)) }
        ensures none { IfOk result (λ b. IsTrue b ⊎ (self.new ≡ self.old)) }
        ensures added { IfOk result (λ b. IsTrue b
            → (self.new.spent ≡ self.old.spent + 1) × (NoRepeat above.now
            → ((u : List ℕ) → unwrap_or (told self.old.counts u) 0 ≤ self.old.spent)
            → Adds self.old.counts self.new.counts above.now)) }
        ensures budget { self.new.budget ≡ self.old.budget }
    {
        if self.spent >= self.budget {
            return Ok(false);
        }
        for authority in above {
            bump(&mut self.counts, authority)?;
        }
        self.spent += 1;
        Ok(true)
    }

    /// The authorities with their numbers, the most first.
    pub(crate) fn counts(&self, alloc: Global) -> Result<Vec<Count>, AllocError>
        ensures listed { IfOk result (λ v. Lists self.now (map count_of v.items)) }
        ensures ascend { IfOk result (λ v. IsStrictlySortedBy count_cmp (map count_of v.items)) }
    {
        let mut counts = Vec::new(alloc);
        for (authority, chains) in self.counts.iter() {
            counts.push(Count::new(authority.clone()?, *chains))?;
        }
        sort_once(&mut counts)?;
        Ok(counts)
    }
}
