//! Blocks of AS numbers: one number, or a range.

ghost use Rattle.std.specs.Prelude.{◌≡◌, ◌+◌, ◌≤◌, ◌==◌, ◌↔◌, IsTrue, Some, refl};
ghost use Rattle.std.proofs.Common.{rules};
ghost use Rattle.std.specs.Cmp.Rules.{comparing};
ghost use Rattle.std.specs.Ordering.{on, eq_of_both};
ghost use Rattle.std.specs.Range.{range_inclusive_start, range_inclusive_end};
ghost use Rattle.resources_asn.specs.Numbers.{last_number};
ghost use Rattle.resources_asn.specs.Blocks.{as_run, run_text, HasOneForm};

use crate::Asn;
use crate::as_block::range::{AsRange, predecessor, successor};
use resources_chain::Block;
use std::fmt;
use std::ops::RangeInclusive;

/// One AS number, or a range of them (RFC 3779 section 3.2.3.5).
#[derive(Clone, Copy, Debug)]
pub enum AsBlock {
    /// One number.
    Id(Asn),
    /// All numbers from one on up to another.
    Range(AsRange),
}

impl AsBlock {
    /// The block of all AS numbers.
    pub fn all() -> Self
        ensures first { (as_run result).first ≡ 0 }
        ensures last { (as_run result).last ≡ last_number }
        ensures form { HasOneForm result }
    {
        AsBlock::Range(AsRange::all())
    }

    /// The smallest AS number of the block.
    pub fn min(&self) -> Asn
        ensures { result.value ≡ (as_run self.now).first }
    {
        match self {
            AsBlock::Id(asn) => *asn,
            AsBlock::Range(range) => range.min(),
        }
    }

    /// The largest AS number of the block.
    pub fn max(&self) -> Asn
        ensures { result.value ≡ (as_run self.now).last }
    {
        match self {
            AsBlock::Id(asn) => *asn,
            AsBlock::Range(range) => range.max(),
        }
    }

    /// How many AS numbers the block has: 4294967296 where it has all.
    pub fn asn_count(&self) -> u64
        ensures { result + (as_run self.now).first ≡ (as_run self.now).last + 1 }
    {
        match self {
            AsBlock::Id(_) => 1,
            AsBlock::Range(range) => range.asn_count(),
        }
    }

    /// The block from the first AS number to the second, which isn't smaller; one number alone is no range.
    pub(crate) fn between(min: Asn, max: Asn) -> Self
        requires { min.value ≤ max.value }
        ensures first { (as_run result).first ≡ min.value }
        ensures last { (as_run result).last ≡ max.value }
        ensures form { HasOneForm result }
    {
        if min == max {
            AsBlock::Id(min)
        } else {
            AsBlock::Range(AsRange::new(min, max))
        }
    }

    /// Sets the smallest AS number, which may not be greater than the largest.
    pub fn set_min(&mut self, min: Asn)
        requires { min.value ≤ (as_run self.old).last }
        ensures first { (as_run self.new).first ≡ min.value }
        ensures last { (as_run self.new).last ≡ (as_run self.old).last }
        ensures form { HasOneForm self.new }
    {
        *self = AsBlock::between(min, self.max());
    }

    /// Sets the largest AS number, which may not be smaller than the smallest.
    pub fn set_max(&mut self, max: Asn)
        requires { (as_run self.old).first ≤ max.value }
        ensures first { (as_run self.new).first ≡ (as_run self.old).first }
        ensures last { (as_run self.new).last ≡ max.value }
        ensures form { HasOneForm self.new }
    {
        *self = AsBlock::between(self.min(), max);
    }

    /// Whether the block has all AS numbers.
    pub fn is_whole_range(&self) -> bool
        ensures { IsTrue result
            ↔ (((as_run self.now).first ≡ 0) × ((as_run self.now).last ≡ last_number)) }
    {
        self.min() == Asn::MIN && self.max() == Asn::MAX
    }
}

impl Block for AsBlock {
    ghost use Rattle.resources_asn.specs.Numbers.{same_number};
    ghost use Rattle.resources_asn.specs.Blocks.{as_run_within};

    type Item = Asn;

    ghost place = { λ n. n.value };

    ghost last_place = { last_number };

    ghost run = { as_run };

    fn new(bounds: RangeInclusive<Asn>) -> Self
        requires { (range_inclusive_start bounds).value ≤ (range_inclusive_end bounds).value }
        ensures first { (as_run result).first ≡ (range_inclusive_start bounds).value }
        ensures last { (as_run result).last ≡ (range_inclusive_end bounds).value }
        ensures form { HasOneForm result }
    {
        let (min, max) = bounds.into_inner();
        AsBlock::between(min, max)
    }

    fn min(&self) -> Asn {
        AsBlock::min(self)
    }

    fn max(&self) -> Asn {
        AsBlock::max(self)
    }

    fn next(item: Asn) -> Option<Asn> {
        successor(item)
    }

    fn previous(item: Asn) -> Option<Asn> {
        predecessor(item)
    }

    ghost item_within = { λ n. n.in_range };

    ghost item_is_its_place = { same_number };

    ghost item_order = { λ x y. refl };

    ghost run_within = { as_run_within };
}

/// Blocks of the same numbers are equal.
impl PartialEq for AsBlock {
    ghost eq = { eq_of_both (on (λ b. (as_run b).first) ◌==◌) (on (λ b. (as_run b).last) ◌==◌) };

    ghost laws = { Prim.search (comparing, rules) };

    fn eq(&self, other: &Self) -> bool
        ensures value { result
            ≡ eq_of_both (on (λ b. (as_run b).first) ◌==◌) (on (λ b. (as_run b).last) ◌==◌) self.now
            other.now }
        ensures numbers { IsTrue result ↔ (as_run self.now ≡ as_run other.now) }
    {
        self.min() == other.min() && self.max() == other.max()
    }
}

impl Eq for AsBlock {
    ghost laws = { Prim.search (comparing, rules) };
}

impl From<Asn> for AsBlock {
    ghost from_gives = { λ n b. ((as_run b).first ≡ n.value) × ((as_run b).last ≡ n.value) };

    fn from(number: Asn) -> Self {
        AsBlock::Id(number)
    }
}

impl From<AsRange> for AsBlock {
    ghost from_gives = { λ r b. ((as_run b).first ≡ r.first.value)
        × ((as_run b).last ≡ r.last.value) };

    fn from(numbers: AsRange) -> Self {
        AsBlock::Range(numbers)
    }
}

/// `AS` and the number, or the first and the last with a dash between: blocks of the same numbers print alike.
impl fmt::Display for AsBlock {
    ghost output = { λ b. Some (run_text (as_run b)) };

    fn fmt<W: fmt::Write>(&self, f: &mut fmt::Formatter<W>) -> fmt::Result {
        let (min, max) = (self.min(), self.max());
        if min == max {
            write!(f, "{min}")
        } else {
            write!(f, "{min}-{max}")
        }
    }
}
