//! Where items stand in sorted lists of blocks.

ghost use Rattle.std.specs.Prelude.{◌≡◌, ◌+◌, ◌<◌, ◌≤◌, ◌-◌, ◌⊎◌, ℕ, MatchOption, length, map};
ghost use Rattle.resources_chain.specs.Sets.{InRun, InRuns, AreMaximal};
ghost use Rattle.resources_chain.specs.Places.{run_at, stand, reach};
ghost use Rattle.resources_chain.specs.Rows.{ProbesAtMost};
ghost use Rattle.resources_chain.specs.Walks.{SameFrom, FirstReaches};

use crate::block::{Block, comes_before};
use crate::row::{Row, halve};
use std::cmp::Ordering;

/// The blocks as they stand to an item: before it, with it, or after it.
#[derive(Drop)]
struct Around<'a, B: Block> {
    blocks: &'a [B],
    item: B::Item,
    looks: u64,
}

impl<'a, B: Block> Row for Around<'a, B> {
    ghost size = { λ row. length row.blocks.now };

    ghost stands = { λ row k. stand (B.place row.item) (run_at (map B.run row.blocks.now) k) };

    ghost count = { λ row. row.looks };

    fn len(&self) -> usize {
        self.blocks.len()
    }

    fn looks(&self) -> u64 {
        self.looks
    }

    fn look(&mut self, place: usize) -> Ordering {
        self.looks += 1;
        let block = self.blocks[place];
        if comes_before::<B>(block.max(), self.item) {
            Ordering::Less
        } else if comes_before::<B>(self.item, block.min()) {
            Ordering::Greater
        } else {
            Ordering::Equal
        }
    }
}

/// The first `near` of the blocks as they stand to the first block that ends at an item or after it.
#[derive(Drop)]
struct Reaching<'a, B: Block> {
    blocks: &'a [B],
    near: usize,
    item: B::Item,
    looks: u64,
    ghost within: { near ≤ length blocks.now },
}

impl<'a, B: Block> Row for Reaching<'a, B> {
    ghost size = { λ row. row.near };

    ghost stands = { λ row k. reach (B.place row.item) (map B.run row.blocks.now) k };

    ghost count = { λ row. row.looks };

    fn len(&self) -> usize {
        self.near
    }

    fn looks(&self) -> u64 {
        self.looks
    }

    fn look(&mut self, place: usize) -> Ordering {
        self.looks += 1;
        let block = self.blocks[place];
        if comes_before::<B>(block.max(), self.item) {
            return Ordering::Less;
        }
        if place == 0 {
            return Ordering::Equal;
        }
        let before = self.blocks[place - 1];
        if comes_before::<B>(before.max(), self.item) {
            Ordering::Equal
        } else {
            Ordering::Greater
        }
    }
}

/// The place of the block that has the item, where one has. The looks at blocks that it takes are added to `probes`.
pub(crate) fn place_of<B: Block>(blocks: &[B], item: B::Item, probes: &mut u64) -> Option<usize>
    requires maximal { AreMaximal (map B.run blocks.now) }
    requires room { probes.old ≤ 18446744073709551551 }
    ensures place { MatchOption result (¬ (InRuns (map B.run blocks.now) (B.place item)))
        (λ k. (k < length blocks.now) × InRun (run_at (map B.run blocks.now) k) (B.place item)) }
    ensures probes { ProbesAtMost (length blocks.now) probes.old probes.new }
{
    let mut row = Around {
        blocks,
        item,
        looks: *probes,
    };
    let place = halve(&mut row);
    *probes = row.looks();
    place
}

/// The blocks from the first one on that reaches the item, which is one of the first `near` where any does.
fn from_near<B: Block>(blocks: &[B], near: usize, item: B::Item) -> &[B]
    requires maximal { AreMaximal (map B.run blocks.now) }
    requires within { near ≤ length blocks.now }
    requires reached { (near ≡ length blocks.now)
        ⊎ ((k : ℕ) × (near ≡ k + 1) × (B.place item ≤ (run_at (map B.run blocks.now) k).last)) }
    ensures same { SameFrom (B.place item) (map B.run blocks.now) (map B.run result.now) }
    ensures reaches { FirstReaches (B.place item) (map B.run result.now) }
    ensures fewer { length result.now ≤ length blocks.now }
{
    let mut row = Reaching {
        blocks,
        near,
        item,
        looks: 0,
    };
    match halve(&mut row) {
        Some(place) => &blocks[place..],
        None => &[],
    }
}

/// The blocks from the first one on that reaches the item. It looks ahead as far as it has come, beginning with the first
/// block, and halves only the blocks of its last leap: a walk from item to item takes a few looks for each block that it
/// passes at most, and few for many blocks that it leaps over.
pub(crate) fn from_item<B: Block>(blocks: &[B], item: B::Item) -> &[B]
    requires { AreMaximal (map B.run blocks.now) }
    ensures same { SameFrom (B.place item) (map B.run blocks.now) (map B.run result.now) }
    ensures reaches { FirstReaches (B.place item) (map B.run result.now) }
    ensures fewer { length result.now ≤ length blocks.now }
{
    let mut rest = blocks;
    let mut ahead = 0;
    while ahead < rest.len() {
        if !comes_before::<B>(rest[ahead].max(), item) {
            return from_near(rest, ahead + 1, item);
        }
        rest = &rest[ahead + 1..];
        ahead = blocks.len() - rest.len();
    }
    from_near(rest, rest.len(), item)
}
