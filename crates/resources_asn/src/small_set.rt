//! Small sets of AS numbers, kept as ascending lists.

ghost use Rattle.std.specs.Prelude.{◌≡◌, ℕ, ◌⊎◌, ◌↔◌, List, [], IsTrue, IfOk, OnErr, OnOk, false, length, ⊤};
ghost use Rattle.std.specs.Iterator.{IsFinite, DrainsIf, YieldsFirstBy, item_count};
ghost use Rattle.resources_asn.specs.Chosen.{values};
ghost use Rattle.resources_asn.specs.Listed.{AreDistinct, InList, IsAscending, IsListOf};

use crate::asn::Asn;
use crate::selection::{Choice, Selection};
use std::alloc::{AllocError, Global};
use std::marker::Model;

/// A small set of AS numbers. Contracts see the list of its numbers, ascending.
#[derive(Debug, Drop)]
pub struct SmallAsnSet {
    asns: Vec<Asn>,
}

impl Model for SmallAsnSet {
    ghost use Rattle.std.specs.Prelude.{List, ℕ};
    ghost use Rattle.resources_asn.specs.Chosen.{values};
    ghost use Rattle.resources_asn.specs.Listed.{IsAscending};

    ghost Value = { List ℕ };

    ghost view = { λ a. values a.asns.items };

    ghost invariant = { λ a. IsAscending (values a.asns.items) };
}

impl SmallAsnSet {
    /// The set with no AS numbers.
    pub fn new(alloc: Global) -> Self
        ensures { IsListOf (λ n. ⊥) result }
    {
        SmallAsnSet {
            asns: Vec::new(alloc),
        }
    }

    /// The set of AS numbers that are sorted already, each once.
    pub fn from_vec_unchecked(asns: Vec<Asn>) -> Self
        requires { IsAscending (values asns.items) }
        ensures { result ≡ values asns.items }
    {
        SmallAsnSet { asns }
    }

    /// The set of these AS numbers, in any order; those that come again are left out. It has as many as came just where none
    /// came twice.
    pub fn from_vec(asns: Vec<Asn>) -> Self
        ensures set { IsListOf (InList (values asns.items)) result }
        ensures distinct { (length result ≡ length asns.items) ↔ AreDistinct asns.items }
    {
        let mut sorted = asns;
        sorted.sort_unstable();
        sorted.dedup();
        SmallAsnSet { asns: sorted }
    }

    /// The set of the AS numbers that come, in any order; those that come again are left out.
    pub fn from_iter<I: Iterator<Item = Asn> + Drop>(
        alloc: Global,
        asns: I,
    ) -> Result<Self, AllocError>
        requires can { I.can_next asns }
        requires ends { IsFinite (I.remaining asns) }
        ensures { IfOk result (λ s. (came : List Asn) × DrainsIf I.next_gives ⊤ asns came
            × IsListOf (InList (values came)) s) }
    {
        let asns: Vec<Asn> = asns.collect(alloc)?;
        Ok(SmallAsnSet::from_vec(asns))
    }

    /// One AS number more, in its place. Answers whether it is new; where it is there already nothing changes.
    ///
    /// Refused for lack of memory alone, which is asked for only where the number is new; then nothing changes.
    pub fn insert(&mut self, asn: Asn) -> Result<bool, AllocError>
        ensures added { OnOk result (IsListOf
            (λ n. (n ≡ asn.value) ⊎ InList self.old n) self.new) }
        ensures new { IfOk result (λ is_new. IsTrue is_new ↔ ¬ (InList self.old asn.value)) }
        ensures known { IfOk result (λ is_new. (is_new ≡ false) ↔ InList self.old asn.value) }
        ensures same { InList self.old asn.value → self.new ≡ self.old }
        ensures err { OnErr result (self.new ≡ self.old) }
        ensures memory { OnErr result (¬ (InList self.old asn.value)) }
    {
        match self.asns.binary_search(&asn) {
            Ok(_) => Ok(false),
            Err(place) => {
                self.asns.insert(place, asn)?;
                Ok(true)
            }
        }
    }

    /// The AS numbers, ascending, as a slice.
    pub fn as_slice(&self) -> &[Asn]
        ensures same { values result.now ≡ self.now }
        ensures ascending { IsAscending self.now }
    {
        &self.asns
    }

    /// The AS numbers, ascending.
    pub fn iter(&self) -> SmallSetIter<'_>
        ensures { result ≡ self.now }
    {
        SmallSetIter { asns: &self.asns }
    }

    /// How many AS numbers there are.
    pub fn len(&self) -> usize
        ensures { result ≡ length self.now }
    {
        self.asns.len()
    }

    /// Whether there are no AS numbers.
    pub fn is_empty(&self) -> bool
        ensures { IsTrue result ↔ (self.now ≡ []) }
    {
        self.asns.is_empty()
    }

    /// Whether the AS number is in the set.
    pub fn contains(&self, asn: Asn) -> bool
        ensures { IsTrue result ↔ InList self.now asn.value }
    {
        self.asns.binary_search(&asn).is_ok()
    }

    /// The AS numbers of one of the sets or of both, ascending.
    pub fn union<'a>(&'a self, other: &'a SmallAsnSet) -> SmallSetUnion<'a>
        ensures { IsListOf (λ n. InList self.now n ⊎ InList other.now n) result }
    {
        SmallSetUnion {
            selection: Selection::new(Choice::Either, &self.asns, &other.asns),
        }
    }

    /// The AS numbers of both sets, ascending.
    pub fn intersection<'a>(&'a self, other: &'a SmallAsnSet) -> SmallSetIntersection<'a>
        ensures { IsListOf (λ n. InList self.now n × InList other.now n) result }
    {
        SmallSetIntersection {
            selection: Selection::new(Choice::Both, &self.asns, &other.asns),
        }
    }

    /// The AS numbers of this set that aren't in the other, ascending.
    pub fn difference<'a>(&'a self, other: &'a SmallAsnSet) -> SmallSetDifference<'a>
        ensures { IsListOf (λ n. InList self.now n × ¬ (InList other.now n)) result }
    {
        SmallSetDifference {
            selection: Selection::new(Choice::FirstOnly, &self.asns, &other.asns),
        }
    }

    /// The AS numbers of one of the sets alone, ascending.
    pub fn symmetric_difference<'a>(
        &'a self,
        other: &'a SmallAsnSet,
    ) -> SmallSetSymmetricDifference<'a>
        ensures { IsListOf
            (λ n. (InList self.now n × ¬ (InList other.now n))
            ⊎ (InList other.now n × ¬ (InList self.now n))) result }
    {
        SmallSetSymmetricDifference {
            selection: Selection::new(Choice::OneOnly, &self.asns, &other.asns),
        }
    }
}

impl Clone for SmallAsnSet {
    ghost is_clone = { λ set copy. copy ≡ set };

    /// A clone has equal numbers.
    fn clone(&self) -> Result<Self, AllocError> {
        let asns = Vec::from_slice(*self.asns.allocator(), &self.asns)?;
        Ok(SmallAsnSet::from_vec_unchecked(asns))
    }
}

/// The AS numbers, ascending.
impl<'a> IntoIterator for &'a SmallAsnSet {
    type Item = Asn;

    type IntoIter = SmallSetIter<'a>;

    ghost into_iter_gives = { λ set left. left ≡ set.now };

    fn into_iter(self) -> SmallSetIter<'a> {
        self.iter()
    }
}

/// The AS numbers of a set, ascending. Contracts see the list of those that are left.
#[derive(Debug, Drop)]
pub struct SmallSetIter<'a> {
    asns: &'a [Asn],
}

impl<'a> Model for SmallSetIter<'a> {
    ghost use Rattle.std.specs.Prelude.{List, ℕ};
    ghost use Rattle.resources_asn.specs.Chosen.{values};

    ghost Value = { List ℕ };

    ghost view = { λ a. values a.asns.now };
}

impl<'a> Iterator for SmallSetIter<'a> {
    type Item = Asn;

    ghost next_gives = { YieldsFirstBy (λ a. a.value) (λ s. s) };

    ghost remaining = { item_count (λ s. s) };

    fn next(&mut self) -> Option<Asn> {
        let (first, behind) = self.asns.split_first()?;
        self.asns = behind;
        Some(*first)
    }
}

/// The AS numbers of one of two sets or of both, ascending. Contracts see the list of those that are left.
#[derive(Debug, Drop)]
pub struct SmallSetUnion<'a> {
    selection: Selection<'a>,
}

impl<'a> Model for SmallSetUnion<'a> {
    ghost use Rattle.std.specs.Prelude.{List, ℕ};

    ghost Value = { List ℕ };

    ghost view = { λ a. a.selection };
}

impl<'a> Iterator for SmallSetUnion<'a> {
    type Item = Asn;

    ghost next_gives = { YieldsFirstBy (λ a. a.value) (λ s. s) };

    ghost remaining = { item_count (λ s. s) };

    fn next(&mut self) -> Option<Asn> {
        self.selection.next()
    }
}

/// The AS numbers of two sets both, ascending. Contracts see the list of those that are left.
#[derive(Debug, Drop)]
pub struct SmallSetIntersection<'a> {
    selection: Selection<'a>,
}

impl<'a> Model for SmallSetIntersection<'a> {
    ghost use Rattle.std.specs.Prelude.{List, ℕ};

    ghost Value = { List ℕ };

    ghost view = { λ a. a.selection };
}

impl<'a> Iterator for SmallSetIntersection<'a> {
    type Item = Asn;

    ghost next_gives = { YieldsFirstBy (λ a. a.value) (λ s. s) };

    ghost remaining = { item_count (λ s. s) };

    fn next(&mut self) -> Option<Asn> {
        self.selection.next()
    }
}

/// The AS numbers of one set that another lacks, ascending. Contracts see the list of those that are left.
#[derive(Debug, Drop)]
pub struct SmallSetDifference<'a> {
    selection: Selection<'a>,
}

impl<'a> Model for SmallSetDifference<'a> {
    ghost use Rattle.std.specs.Prelude.{List, ℕ};

    ghost Value = { List ℕ };

    ghost view = { λ a. a.selection };
}

impl<'a> Iterator for SmallSetDifference<'a> {
    type Item = Asn;

    ghost next_gives = { YieldsFirstBy (λ a. a.value) (λ s. s) };

    ghost remaining = { item_count (λ s. s) };

    fn next(&mut self) -> Option<Asn> {
        self.selection.next()
    }
}

/// The AS numbers that one of two sets alone has, ascending. Contracts see the list of those that are left.
#[derive(Debug, Drop)]
pub struct SmallSetSymmetricDifference<'a> {
    selection: Selection<'a>,
}

impl<'a> Model for SmallSetSymmetricDifference<'a> {
    ghost use Rattle.std.specs.Prelude.{List, ℕ};

    ghost Value = { List ℕ };

    ghost view = { λ a. a.selection };
}

impl<'a> Iterator for SmallSetSymmetricDifference<'a> {
    type Item = Asn;

    ghost next_gives = { YieldsFirstBy (λ a. a.value) (λ s. s) };

    ghost remaining = { item_count (λ s. s) };

    fn next(&mut self) -> Option<Asn> {
        self.selection.next()
    }
}
