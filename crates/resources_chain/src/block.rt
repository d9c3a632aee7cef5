//! Blocks: ranges of numbers of one kind.

ghost use Rattle.std.specs.Prelude.{◌≡◌, ℕ, ◌+◌, ◌<◌, ◌≤◌, ◌⊎◌, ◌↔◌, IsTrue, MatchOption};
ghost use Rattle.std.specs.Ordering.{nat_cmp};
ghost use Rattle.std.specs.Range.{range_inclusive_start, range_inclusive_end};
ghost use Rattle.resources_chain.specs.Sets.{Run, InRun, Touch};

use std::cmp::Ordering;
use std::ops::RangeInclusive;

/// A range of items, each of which means a number from 0 up to a last one.
pub trait Block: Copy {
    /// What means a number.
    type Item: Copy + Ord;

    // The number that an item means.
    ghost place: { Self.Item → ℕ };

    // The greatest number that an item means.
    ghost last_place: { ℕ };

    // The numbers of a block.
    ghost run: { Self → Run };

    /// The block from the first bound to the second, both included.
    fn new(bounds: RangeInclusive<Self::Item>) -> Self
        requires { place (range_inclusive_start bounds) ≤ place (range_inclusive_end bounds) }
        ensures first { (run result).first ≡ place (range_inclusive_start bounds) }
        ensures last { (run result).last ≡ place (range_inclusive_end bounds) };

    /// The smallest item of the block.
    fn min(&self) -> Self::Item
        ensures { place result ≡ (run self.now).first };

    /// The largest item of the block.
    fn max(&self) -> Self::Item
        ensures { place result ≡ (run self.now).last };

    /// The item after this one; none after the last.
    fn next(item: Self::Item) -> Option<Self::Item>
        ensures { MatchOption result (place item ≡ last_place)
            (λ after. place after ≡ place item + 1) };

    /// The item before this one; none before the first.
    fn previous(item: Self::Item) -> Option<Self::Item>
        ensures { MatchOption result (place item ≡ 0) (λ before. place before + 1 ≡ place item) };

    // No item means a number above the greatest.
    ghost item_within: { (x : Self.Item) → place x ≤ last_place };

    // Items that mean one number are one.
    ghost item_is_its_place: { (x y : Self.Item) → place x ≡ place y → x ≡ y };

    // Items are in the order of their numbers.
    ghost item_order: { (x y : Self.Item) → Self.Item.cmp x y ≡ nat_cmp (place x) (place y) };

    // A block has a number, and none above the greatest.
    ghost run_within: { (b : Self) → ((run b).first ≤ (run b).last) × ((run b).last ≤ last_place) };

    /// The block's bounds.
    final fn bounds(&self) -> RangeInclusive<Self::Item>
        ensures first { place (range_inclusive_start result) ≡ (run self.now).first }
        ensures last { place (range_inclusive_end result) ≡ (run self.now).last }
    {
        RangeInclusive::new(self.min(), self.max())
    }

    /// Whether the block has the item.
    final fn contains(&self, item: Self::Item) -> bool
        ensures { IsTrue result ↔ InRun (run self.now) (place item) }
    {
        !comes_before::<Self>(item, self.min()) && !comes_before::<Self>(self.max(), item)
    }

    /// Whether some item is in both blocks.
    final fn intersects(&self, other: &Self) -> bool
        ensures { IsTrue result ↔ ((n : ℕ) × InRun (run self.now) n × InRun (run other.now) n) }
    {
        !ends_before(self, other) && !ends_before(other, self)
    }

    /// Whether all items of the block are in the other.
    final fn is_encompassed(&self, other: &Self) -> bool
        ensures { IsTrue result ↔ ((n : ℕ) → InRun (run self.now) n → InRun (run other.now) n) }
    {
        !comes_before::<Self>(self.min(), other.min())
            && !comes_before::<Self>(other.max(), self.max())
    }

    /// The block of all items of both where the two overlap or touch.
    final fn sum(&self, other: &Self) -> Option<Self>
        ensures { MatchOption result (¬ (Touch (run self.now) (run other.now)))
            (λ s. Touch (run self.now) (run other.now)
            × ((n : ℕ) → InRun (run s) n ↔ (InRun (run self.now) n ⊎ InRun (run other.now) n))) }
    {
        if is_apart(self, other) || is_apart(other, self) {
            return None;
        }
        let min = if comes_before::<Self>(other.min(), self.min()) {
            other.min()
        } else {
            self.min()
        };
        let max = if comes_before::<Self>(self.max(), other.max()) {
            other.max()
        } else {
            self.max()
        };
        Some(Self::new(RangeInclusive::new(min, max)))
    }

    /// Whether the two blocks have the same items.
    final fn is_equivalent(&self, other: &Self) -> bool
        ensures { IsTrue result ↔ ((n : ℕ) → InRun (run self.now) n ↔ InRun (run other.now) n) }
    {
        self.is_encompassed(other) && other.is_encompassed(self)
    }
}

/// Whether the first item means the smaller number.
pub(crate) fn comes_before<B: Block>(first: B::Item, second: B::Item) -> bool
    ensures { IsTrue result ↔ (B.place first < B.place second) }
{
    first.cmp(&second) == Ordering::Less
}

/// Whether the first block ends before the second begins.
pub(crate) fn ends_before<B: Block>(first: &B, second: &B) -> bool
    ensures { IsTrue result ↔ ((B.run first.now).last < (B.run second.now).first) }
{
    comes_before::<B>(first.max(), second.min())
}

/// Whether at least one item is missing after the first block and before the second.
pub(crate) fn is_apart<B: Block>(first: &B, second: &B) -> bool
    ensures { IsTrue result ↔ ((B.run first.now).last + 1 < (B.run second.now).first) }
{
    match B::next(first.max()) {
        Some(after) => comes_before::<B>(after, second.min()),
        None => false,
    }
}
