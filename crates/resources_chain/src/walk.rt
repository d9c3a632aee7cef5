//! Walks over sorted lists of blocks. Where they skip blocks, they find the next place by halving.

ghost use Rattle.std.specs.Prelude.{◌≡◌, ℕ, ◌+◌, ◌<◌, ◌≤◌, ◌⊎◌, ◌↔◌, IsTrue, MatchOption, OnOk, IfOk, ◌∷◌, map, min, max};
ghost use Rattle.resources_chain.specs.Sets.{InRun, InRuns, AreMaximal, IsRunsOf, InEither, InBoth, InFirstOnly, IsInside};
ghost use Rattle.std.specs.Ordering.{nat_cmp};
ghost use Rattle.resources_chain.specs.Walks.{BeginBy, AreAscending, BeginByFirst, BeginFrom, Adds, AddsSet, SameFrom, InsideUpTo, FirstOutside};

use crate::block::{Block, comes_before, ends_before};
use crate::place::from_item;
use std::alloc::{AllocError, Global};
use std::cmp::Ordering;
use std::ops::RangeInclusive;

/// Adds the items of a block that begins after all others begin.
pub(crate) fn add<B: Block>(blocks: &mut Vec<B>, block: B) -> Result<(), AllocError>
    requires maximal { AreMaximal (map B.run blocks.old.items) }
    requires order { BeginBy (B.run block).first (map B.run blocks.old.items) }
    ensures { OnOk result
        (Adds (map B.run blocks.old.items) (map B.run blocks.new.items) (B.run block)) }
{
    let Some(last) = blocks.pop() else {
        blocks.push(block)?;
        return Ok(());
    };
    match last.sum(&block) {
        Some(joined) => blocks.push(joined)?,
        None => {
            blocks.push(last)?;
            blocks.push(block)?;
        }
    }
    Ok(())
}

/// The block of the items before this one, where there are any.
fn part_before<B: Block>(block: &B, item: B::Item) -> Option<B>
    ensures { MatchOption result (B.place item ≤ (B.run block.now).first)
        (λ part. ((B.run part).first ≡ (B.run block.now).first)
        × ((B.run part).last + 1 ≡ min ((B.run block.now).last + 1) (B.place item))) }
{
    let end = B::previous(item)?;
    if comes_before::<B>(end, block.min()) {
        return None;
    }
    let last = if comes_before::<B>(end, block.max()) {
        end
    } else {
        block.max()
    };
    Some(B::new(RangeInclusive::new(block.min(), last)))
}

/// The block of the items after this one, where there are any.
fn part_behind<B: Block>(block: &B, item: B::Item) -> Option<B>
    ensures { MatchOption result ((B.run block.now).last ≤ B.place item)
        (λ part. ((B.run part).first ≡ max (B.run block.now).first (B.place item + 1))
        × ((B.run part).last ≡ (B.run block.now).last)) }
{
    let start = B::next(item)?;
    if comes_before::<B>(block.max(), start) {
        return None;
    }
    let first = if comes_before::<B>(start, block.min()) {
        block.min()
    } else {
        start
    };
    Some(B::new(RangeInclusive::new(first, block.max())))
}

/// The block of the items of both, where there are any.
fn common_part<B: Block>(one: &B, other: &B) -> Option<B>
    ensures { MatchOption result
        (((B.run one.now).last < (B.run other.now).first)
        ⊎ ((B.run other.now).last < (B.run one.now).first))
        (λ part. ((B.run part).first ≡ max (B.run one.now).first (B.run other.now).first)
        × ((B.run part).last ≡ min (B.run one.now).last (B.run other.now).last)) }
{
    if ends_before(one, other) || ends_before(other, one) {
        return None;
    }
    let first = if comes_before::<B>(one.min(), other.min()) {
        other.min()
    } else {
        one.min()
    };
    let last = if comes_before::<B>(one.max(), other.max()) {
        one.max()
    } else {
        other.max()
    };
    Some(B::new(RangeInclusive::new(first, last)))
}

/// Adds the items of a block before this item.
fn add_before<B: Block>(blocks: &mut Vec<B>, block: &B, item: B::Item) -> Result<(), AllocError>
    requires maximal { AreMaximal (map B.run blocks.old.items) }
    requires below { (n : ℕ) → InRuns (map B.run blocks.old.items) n → n < (B.run block.now).first }
    ensures { OnOk result
        (AddsSet (map B.run blocks.old.items) (map B.run blocks.new.items)
        (λ n. InRun (B.run block.now) n × (n < B.place item))) }
{
    match part_before(block, item) {
        Some(part) => add(blocks, part),
        None => Ok(()),
    }
}

/// Adds the items of both blocks.
fn add_common<B: Block>(blocks: &mut Vec<B>, one: &B, other: &B) -> Result<(), AllocError>
    requires maximal { AreMaximal (map B.run blocks.old.items) }
    requires below { (m n : ℕ) → InRuns (map B.run blocks.old.items) m → InRun (B.run one.now) n
        → InRun (B.run other.now) n → m < n }
    ensures { OnOk result
        (AddsSet (map B.run blocks.old.items) (map B.run blocks.new.items)
        (λ n. InRun (B.run one.now) n × InRun (B.run other.now) n)) }
{
    match common_part(one, other) {
        Some(part) => add(blocks, part),
        None => Ok(()),
    }
}

/// Adds the items of a block that aren't in `taken`; what is left of `taken` after the block.
fn add_outside<'a, B: Block>(
    blocks: &mut Vec<B>,
    block: B,
    taken: &'a [B],
) -> Result<&'a [B], AllocError>
    requires maximal { AreMaximal (map B.run blocks.old.items) }
    requires taken_maximal { AreMaximal (map B.run taken.now) }
    requires below { (n : ℕ) → InRuns (map B.run blocks.old.items) n → n < (B.run block).first }
    ensures added { OnOk result
        (AddsSet (map B.run blocks.old.items) (map B.run blocks.new.items)
        (λ n. InRun (B.run block) n × ¬ (InRuns (map B.run taken.now) n))) }
    ensures left { IfOk result
        (λ rest. SameFrom ((B.run block).last + 1) (map B.run taken.now) (map B.run rest.now)) }
{
    let mut piece = block;
    let mut rest = taken;
    while let Some((first, behind)) = rest.split_first() {
        add_before(blocks, &piece, first.min())?;
        let Some(part) = part_behind(&piece, first.max()) else {
            return Ok(rest);
        };
        piece = part;
        rest = behind;
    }
    add(blocks, piece)?;
    Ok(rest)
}

/// The items of the first list that aren't in the second.
pub(crate) fn difference<B: Block>(
    alloc: Global,
    blocks: &[B],
    taken: &[B],
) -> Result<Vec<B>, AllocError>
    requires maximal { AreMaximal (map B.run blocks.now) }
    requires taken_maximal { AreMaximal (map B.run taken.now) }
    ensures { IfOk result (λ v. IsRunsOf (InFirstOnly (map B.run blocks.now) (map B.run taken.now))
        (map B.run v.items)) }
{
    let mut found = Vec::new(alloc);
    let mut rest = blocks;
    let mut taken = taken;
    while let Some((first, behind)) = rest.split_first() {
        taken = add_outside(&mut found, *first, from_item(taken, first.min()))?;
        rest = behind;
    }
    Ok(found)
}

/// Adds the items of both lists, which come after all others.
fn add_all_common<B: Block>(blocks: &mut Vec<B>, one: &[B], other: &[B]) -> Result<(), AllocError>
    requires maximal { AreMaximal (map B.run blocks.old.items) }
    requires one_maximal { AreMaximal (map B.run one.now) }
    requires other_maximal { AreMaximal (map B.run other.now) }
    requires below { (m n : ℕ) → InRuns (map B.run blocks.old.items) m
        → InRuns (map B.run one.now) n → InRuns (map B.run other.now) n → m < n }
    ensures { OnOk result
        (AddsSet (map B.run blocks.old.items) (map B.run blocks.new.items)
        (InBoth (map B.run one.now) (map B.run other.now))) }
{
    let mut left = one;
    let mut right = other;
    while let Some((x, left_behind)) = left.split_first() {
        right = from_item(right, x.min());
        let Some((y, right_behind)) = right.split_first() else {
            return Ok(());
        };
        add_common(blocks, x, y)?;
        if comes_before::<B>(x.max(), y.max()) {
            left = from_item(left_behind, y.min());
        } else {
            right = right_behind;
        }
    }
    Ok(())
}

/// The items of both lists.
pub(crate) fn intersection<B: Block>(
    alloc: Global,
    one: &[B],
    other: &[B],
) -> Result<Vec<B>, AllocError>
    requires one_maximal { AreMaximal (map B.run one.now) }
    requires other_maximal { AreMaximal (map B.run other.now) }
    ensures { IfOk result
        (λ v. IsRunsOf (InBoth (map B.run one.now) (map B.run other.now)) (map B.run v.items)) }
{
    let mut found = Vec::new(alloc);
    add_all_common(&mut found, one, other)?;
    Ok(found)
}

/// The blocks from the first one on that isn't inside the other list, and what is left of that list from there on.
fn from_outside<'a, 'b, B: Block>(blocks: &'a [B], others: &'b [B]) -> (&'a [B], &'b [B])
    requires maximal { AreMaximal (map B.run blocks.now) }
    requires others_maximal { AreMaximal (map B.run others.now) }
    ensures parts { InsideUpTo (map B.run blocks.now) (map B.run others.now)
        (map B.run result.0.now) (map B.run result.1.now) }
    ensures stops { FirstOutside (map B.run result.0.now) (map B.run result.1.now) }
{
    let mut rest = blocks;
    let mut left = others;
    while let Some((first, behind)) = rest.split_first() {
        left = from_item(left, first.min());
        let Some((other, _)) = left.split_first() else {
            return (rest, left);
        };
        if !first.is_encompassed(other) {
            return (rest, left);
        }
        rest = behind;
    }
    (rest, left)
}

/// Whether all items of the first list are in the second.
pub(crate) fn is_inside<B: Block>(blocks: &[B], others: &[B]) -> bool
    requires maximal { AreMaximal (map B.run blocks.now) }
    requires others_maximal { AreMaximal (map B.run others.now) }
    ensures { IsTrue result ↔ IsInside (map B.run blocks.now) (map B.run others.now) }
{
    let (rest, _) = from_outside(blocks, others);
    rest.is_empty()
}

/// Whether all items of the block are in the list.
pub(crate) fn has_block<B: Block>(blocks: &[B], block: &B) -> bool
    requires { AreMaximal (map B.run blocks.now) }
    ensures { IsTrue result
        ↔ ((n : ℕ) → InRun (B.run block.now) n → InRuns (map B.run blocks.now) n) }
{
    match from_item(blocks, block.min()).split_first() {
        Some((first, _)) => block.is_encompassed(first),
        None => false,
    }
}

/// The items of both lists, unless all of the first list are in the second.
pub(crate) fn trim<B: Block>(
    alloc: Global,
    blocks: &[B],
    others: &[B],
) -> Result<Option<Vec<B>>, AllocError>
    requires maximal { AreMaximal (map B.run blocks.now) }
    requires others_maximal { AreMaximal (map B.run others.now) }
    ensures { IfOk result (λ t. MatchOption t
        (IsInside (map B.run blocks.now) (map B.run others.now))
        (λ v. ¬ (IsInside (map B.run blocks.now) (map B.run others.now))
        × IsRunsOf (InBoth (map B.run blocks.now) (map B.run others.now)) (map B.run v.items))) }
{
    let (rest, left) = from_outside(blocks, others);
    if rest.is_empty() {
        return Ok(None);
    }
    let mut found = Vec::from_slice(alloc, &blocks[..blocks.len() - rest.len()])?;
    add_all_common(&mut found, rest, left)?;
    Ok(Some(found))
}

/// Whether the two lists have the same items.
pub(crate) fn is_same<B: Block>(one: &[B], other: &[B]) -> bool
    requires one_maximal { AreMaximal (map B.run one.now) }
    requires other_maximal { AreMaximal (map B.run other.now) }
    ensures { IsTrue result
        ↔ ((n : ℕ) → InRuns (map B.run one.now) n ↔ InRuns (map B.run other.now) n) }
{
    is_inside(one, other) && is_inside(other, one)
}

/// Adds the items of blocks that are sorted by where they begin, none of them before where others begin.
fn add_all<B: Block>(blocks: &mut Vec<B>, others: &[B]) -> Result<(), AllocError>
    requires maximal { AreMaximal (map B.run blocks.old.items) }
    requires ascending { AreAscending (map B.run others.now) }
    requires order { BeginByFirst (map B.run blocks.old.items) (map B.run others.now) }
    ensures { OnOk result
        (AddsSet (map B.run blocks.old.items) (map B.run blocks.new.items)
        (InRuns (map B.run others.now))) }
{
    let mut rest = others;
    while let Some((first, behind)) = rest.split_first() {
        add(blocks, *first)?;
        rest = behind;
    }
    Ok(())
}

/// The canonical list of the items of blocks that are sorted by where they begin.
pub(crate) fn joined<B: Block>(alloc: Global, blocks: &[B]) -> Result<Vec<B>, AllocError>
    requires { AreAscending (map B.run blocks.now) }
    ensures { IfOk result (λ v. IsRunsOf (InRuns (map B.run blocks.now)) (map B.run v.items)) }
{
    let mut found = Vec::new(alloc);
    add_all(&mut found, blocks)?;
    Ok(found)
}

/// The first block where it begins before the item, and the blocks after it.
fn first_before<B: Block>(blocks: &[B], item: B::Item) -> Option<(&B, &[B])>
    ensures { MatchOption result (BeginFrom (B.place item) (map B.run blocks.now))
        (λ parts. (blocks.now ≡ parts.0.now ∷ parts.1.now)
        × ((B.run parts.0.now).first < B.place item)) }
{
    let (first, behind) = blocks.split_first()?;
    if comes_before::<B>(first.min(), item) {
        Some((first, behind))
    } else {
        None
    }
}

/// The items of one of the lists or of both.
pub(crate) fn union<B: Block>(alloc: Global, one: &[B], other: &[B]) -> Result<Vec<B>, AllocError>
    requires one_maximal { AreMaximal (map B.run one.now) }
    requires other_maximal { AreMaximal (map B.run other.now) }
    ensures { IfOk result
        (λ v. IsRunsOf (InEither (map B.run one.now) (map B.run other.now)) (map B.run v.items)) }
{
    let mut found = Vec::new(alloc);
    let mut left = one;
    let mut right = other;
    while let Some((x, left_behind)) = left.split_first() {
        match first_before(right, x.min()) {
            Some((y, right_behind)) => {
                add(&mut found, *y)?;
                right = right_behind;
            }
            None => {
                add(&mut found, *x)?;
                left = left_behind;
            }
        }
    }
    add_all(&mut found, right)?;
    Ok(found)
}

/// The order of two blocks by where they begin.
fn by_beginning<B: Block>(one: &B, other: &B) -> Ordering
    ensures { result ≡ nat_cmp (B.run one.now).first (B.run other.now).first }
{
    one.min().cmp(&other.min())
}

/// Sorts blocks by where they begin.
pub(crate) fn sort<B: Block>(blocks: &mut Vec<B>)
    ensures ascending { AreAscending (map B.run blocks.new.items) }
    ensures same { (n : ℕ) → InRuns (map B.run blocks.new.items) n
        ↔ InRuns (map B.run blocks.old.items) n }
{
    blocks.sort_unstable_by(|one, other| by_beginning(one, other));
}
