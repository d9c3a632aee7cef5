//! Rows of places that stand in order around what is sought, and the search that halves them.

ghost use Rattle.std.specs.Prelude.{◌≡◌, ◌≢◌, ℕ, ◌+◌, ◌<◌, ◌≤◌, MatchOption};
ghost use Rattle.std.specs.declared.cmp.Ordering.{Ordering as OrderingValue};
ghost use Rattle.std.specs.declared.cmp.Ordering.TheVariants.{Equal};
ghost use Rattle.resources_chain.specs.Rows.{IsOrdered, ProbesAtMost};

use std::cmp::Ordering;

/// A row of places, each before what is sought, at it or after it. A look at a place is counted.
pub trait Row {
    // How many places there are.
    ghost size: { Self → ℕ };

    // How a place stands to what is sought.
    ghost stands: { Self → ℕ → OrderingValue };

    // How many looks there were.
    ghost count: { Self → ℕ };

    /// How many places there are.
    fn len(&self) -> usize
        ensures { result ≡ size self.now };

    /// How many looks there were.
    fn looks(&self) -> u64
        ensures { result ≡ count self.now };

    /// How the place stands to what is sought: one look more, and nothing else changes.
    fn look(&mut self, place: usize) -> Ordering
        requires place { place < size self.old }
        requires room { count self.old < 18446744073709551615 }
        ensures answer { result ≡ stands self.old place }
        ensures counted { count self.new ≡ count self.old + 1 }
        ensures same_size { size self.new ≡ size self.old }
        ensures same_places { (k : ℕ) → stands self.new k ≡ stands self.old k };
}

/// The place that is at what is sought; none where no place is. It looks at one place of those that are left, and goes
/// on with the half of them on one side of it: so at most as often as the number of places has binary digits.
pub fn halve<R: Row>(row: &mut R) -> Option<usize>
    requires order { IsOrdered (R.size row.old) (R.stands row.old) }
    requires room { R.count row.old ≤ 18446744073709551551 }
    ensures place { MatchOption result ((k : ℕ) → k < R.size row.old → R.stands row.old k ≢ Equal)
        (λ k. (k < R.size row.old) × (R.stands row.old k ≡ Equal)) }
    ensures looks { ProbesAtMost (R.size row.old) (R.count row.old) (R.count row.new) }
    ensures same_size { R.size row.new ≡ R.size row.old }
    ensures same_places { (k : ℕ) → R.stands row.new k ≡ R.stands row.old k }
{
    let mut low = 0;
    let mut high = row.len();
    while low < high {
        let middle = low + (high - low) / 2;
        match row.look(middle) {
            Ordering::Less => low = middle + 1,
            Ordering::Equal => return Some(middle),
            Ordering::Greater => high = middle,
        }
    }
    None
}
