//! Ranges of AS numbers.

ghost use Rattle.std.specs.Prelude.{◌≡◌, ◌+◌, ◌≤◌, ◌++◌, codes, Some, MatchOption, refl};
ghost use Rattle.std.specs.Fmt.{decimal};
ghost use Rattle.std.specs.Range.{range_inclusive_start, range_inclusive_end};
ghost use Rattle.resources_asn.specs.Numbers.{last_number};

use crate::Asn;
use resources_chain::Block;
use std::fmt;
use std::marker::Model;
use std::ops::RangeInclusive;

/// The AS numbers from one on up to another, both included (RFC 3779 section 3.2.3.8).
#[derive(Clone, Copy, Debug, PartialEq, Eq)]
pub struct AsRange {
    min: Asn,
    max: Asn,
    ghost ordered: { min.value ≤ max.value },
}

impl Model for AsRange {
    ghost use Rattle.resources_asn.specs.Ranges.{Range, range_code};

    ghost Value = { Range };

    ghost coded = { range_code };

    ghost view = { λ r. record { first = r.min; last = r.max; ordered = r.ordered } };

    ghost inverse = { λ r. record { min = r.first; max = r.last; ordered = r.ordered } };
}

impl AsRange {
    /// The range from the first AS number to the second, which isn't smaller.
    pub fn new(min: Asn, max: Asn) -> Self
        requires { min.value ≤ max.value }
        ensures first { result.first ≡ min }
        ensures last { result.last ≡ max }
    {
        AsRange { min, max }
    }

    /// The range of all AS numbers.
    pub fn all() -> Self
        ensures first { result.first.value ≡ 0 }
        ensures last { result.last.value ≡ last_number }
    {
        AsRange::new(Asn::MIN, Asn::MAX)
    }

    /// The smallest AS number of the range.
    pub fn min(self) -> Asn
        ensures { result ≡ self.first }
    {
        self.min
    }

    /// The largest AS number of the range.
    pub fn max(self) -> Asn
        ensures { result ≡ self.last }
    {
        self.max
    }

    /// How many AS numbers the range has: 4294967296 where it has all.
    pub fn asn_count(self) -> u64
        ensures { result + self.first.value ≡ self.last.value + 1 }
    {
        u64::from(self.max.into_u32()) - u64::from(self.min.into_u32()) + 1
    }
}

impl Block for AsRange {
    ghost use Rattle.resources_asn.specs.Ranges.{range_run};
    ghost use Rattle.resources_asn.specs.Numbers.{same_number};

    type Item = Asn;

    ghost place = { λ n. n.value };

    ghost last_place = { last_number };

    ghost run = { range_run };

    fn new(bounds: RangeInclusive<Asn>) -> Self
        requires { (range_inclusive_start bounds).value ≤ (range_inclusive_end bounds).value }
        ensures first { result.first.value ≡ (range_inclusive_start bounds).value }
        ensures last { result.last.value ≡ (range_inclusive_end bounds).value }
    {
        let (min, max) = bounds.into_inner();
        AsRange::new(min, max)
    }

    fn min(&self) -> Asn {
        AsRange::min(*self)
    }

    fn max(&self) -> Asn {
        AsRange::max(*self)
    }

    fn next(item: Asn) -> Option<Asn> {
        successor(item)
    }

    fn previous(item: Asn) -> Option<Asn> {
        predecessor(item)
    }

    ghost item_within = { λ n. n.in_range };

    ghost item_is_its_place = { same_number };

    ghost item_order = { λ x y. refl };

    ghost run_within = { λ r. (r.ordered, r.last.in_range) };
}

/// The first number and the last with a dash between: `AS1-AS5`.
impl fmt::Display for AsRange {
    ghost output = { λ r. Some
        (codes "AS" ++ decimal r.first.value ++ codes "-AS" ++ decimal r.last.value) };

    fn fmt<W: fmt::Write>(&self, f: &mut fmt::Formatter<W>) -> fmt::Result {
        let (min, max) = (self.min, self.max);
        write!(f, "{min}-{max}")
    }
}

/// The AS number after this one; none after the largest.
pub(crate) fn successor(asn: Asn) -> Option<Asn>
    ensures { MatchOption result (asn.value ≡ last_number) (λ after. after.value ≡ asn.value + 1) }
{
    asn.into_u32().checked_add(1).map(Asn::from_u32)
}

/// The AS number before this one; none before the smallest.
pub(crate) fn predecessor(asn: Asn) -> Option<Asn>
    ensures { MatchOption result (asn.value ≡ 0) (λ before. before.value + 1 ≡ asn.value) }
{
    asn.into_u32().checked_sub(1).map(Asn::from_u32)
}
