//! The search by halving in lists that ascend.

ghost use Rattle.std.specs.Prelude.{◌≡◌, ◌<◌, ◌≤◌, ℕ, List, MatchOption, length};
ghost use Rattle.std.specs.Ordering.{nat_cmp};
ghost use Rattle.std.specs.Cmp.Lexicographic.{slice_cmp};
ghost use Rattle.rpki_standing.specs.resources_chain.Rows.{ProbesAtMost};
ghost use Rattle.rpki_standing.specs.rpki_bundle.Orders.{Ascends};
ghost use Rattle.rpki_standing.specs.Places.{IsPlace, stands_at};

use resources_chain::{Row, halve};
use std::cmp::Ordering;

/// The greatest count of looks to which a search may add its own, which are 64 at most.
pub const MAX_PROBES: u64 = u64::MAX - 64;

/// What is sought in a list of entries, each of which has a row of octets.
pub trait Sought {
    /// What the list has.
    type Entry;

    // The row of an entry.
    ghost sort_key: { Self.Entry → List ℕ };

    // The row that is sought.
    ghost key: { Self → List ℕ };

    /// How the entry's row stands to the one that is sought.
    fn stands(&self, entry: &Self::Entry) -> Ordering
        ensures { result ≡ slice_cmp nat_cmp (sort_key entry.now) (key self.now) };
}

// Entries as they stand to what is sought.
#[derive(Drop)]
struct Around<'a, S: Sought> {
    entries: &'a [S::Entry],
    sought: &'a S,
    looks: u64,
}

impl<'a, S: Sought> Row for Around<'a, S> {
    ghost size = { λ r. length r.entries.now };

    ghost stands = { λ r. stands_at S.sort_key r.entries.now (S.key r.sought.now) };

    ghost count = { λ r. r.looks };

    fn len(&self) -> usize {
        self.entries.len()
    }

    fn looks(&self) -> u64 {
        self.looks
    }

    fn look(&mut self, place: usize) -> Ordering {
        self.looks += 1;
        let entry = &self.entries[place];
        self.sought.stands(entry)
    }
}

/// The place of what is sought, where an entry has its row. The looks at entries that it takes are added to `probes`: at
/// most as many as their number has binary digits.
pub fn search<S: Sought>(entries: &[S::Entry], sought: &S, probes: &mut u64) -> Option<usize>
    requires order { Ascends S.sort_key entries.now }
    requires room { probes.old ≤ MAX_PROBES }
    ensures place { MatchOption result
        ((k : ℕ) → IsPlace S.sort_key entries.now (S.key sought.now) k → ⊥)
        (IsPlace S.sort_key entries.now (S.key sought.now)) }
    ensures probes { ProbesAtMost (length entries.now) probes.old probes.new }
{
    let mut around = Around {
        entries,
        sought,
        looks: *probes,
    };
    let place = halve(&mut around);
    *probes = around.looks();
    place
}
