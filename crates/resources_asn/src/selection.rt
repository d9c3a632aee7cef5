//! Walks over two ascending lists of AS numbers.

ghost use Rattle.std.specs.Prelude.{◌≡◌, ℕ, List, [], ◌∷◌, IfSome, IfNone, MatchOption, true, false};
ghost use Rattle.std.specs.Iterator.{YieldsFirstBy, item_count};
ghost use Rattle.resources_asn.specs.Listed.{IsAscending};

use crate::asn::Asn;
use std::cmp::Ordering;
use std::marker::Model;

/// Which numbers of two lists are wanted.
#[derive(Clone, Copy, Debug)]
pub(crate) enum Choice {
    /// Those in one of the lists or in both.
    Either,
    /// Those in both lists.
    Both,
    /// Those in the first list that aren't in the second.
    FirstOnly,
    /// Those in one of the lists alone.
    OneOnly,
}

/// What is left of two ascending lists when their least number is taken from both.
#[derive(Clone, Copy)]
struct Step<'a> {
    asn: Asn,
    in_first: bool,
    in_second: bool,
    first: &'a [Asn],
    second: &'a [Asn],
}

/// A number that is wanted, and what is left after it.
#[derive(Clone, Copy)]
struct Found<'a> {
    asn: Asn,
    first: &'a [Asn],
    second: &'a [Asn],
}

/// The wanted numbers of two ascending lists, ascending. Contracts see the list of those that are left.
#[derive(Debug, Drop)]
pub(crate) struct Selection<'a> {
    choice: Choice,
    first: &'a [Asn],
    second: &'a [Asn],
}

impl<'a> Model for Selection<'a> {
    ghost use Rattle.std.specs.Prelude.{List, ℕ};
    ghost use Rattle.resources_asn.specs.Listed.{IsAscending};
    ghost use Rattle.resources_asn.specs.Chosen.{values, is_chosen, passing};

    ghost Value = { List ℕ };

    ghost view = { λ a. passing (is_chosen a.choice (values a.first.now) (values a.second.now)) };

    ghost invariant = { λ a. IsAscending (values a.first.now) × IsAscending (values a.second.now) };
}

impl Choice {
    ghost use Rattle.resources_asn.specs.Chosen.{chooses};

    /// Whether a number is wanted that is in these lists.
    fn takes(self, in_first: bool, in_second: bool) -> bool
        ensures { result ≡ chooses self in_first in_second }
    {
        match self {
            Choice::Either => in_first || in_second,
            Choice::Both => in_first && in_second,
            Choice::FirstOnly => in_first && !in_second,
            Choice::OneOnly => in_first != in_second,
        }
    }
}

impl<'a> Step<'a> {
    ghost use Rattle.resources_asn.specs.Chosen.{values, TakesLeast};

    /// Takes the least number from two ascending lists.
    fn least(first: &'a [Asn], second: &'a [Asn]) -> Option<Self>
        requires first { IsAscending (values first.now) }
        requires second { IsAscending (values second.now) }
        ensures { MatchOption result ((values first.now ≡ []) × (values second.now ≡ []))
            (λ s. TakesLeast (values first.now) (values second.now) (values s.first.now)
            (values s.second.now) s.asn.value s.in_first s.in_second) }
    {
        match (first.split_first(), second.split_first()) {
            (None, None) => None,
            (Some((asn, behind)), None) => Some(Step::of_first(*asn, behind, second)),
            (None, Some((asn, behind))) => Some(Step::of_second(*asn, first, behind)),
            (Some((one, first_behind)), Some((other, second_behind))) => {
                match one.cmp(other) {
                    Ordering::Less => Some(Step::of_first(*one, first_behind, second)),
                    Ordering::Equal => Some(Step {
                        asn: *one,
                        in_first: true,
                        in_second: true,
                        first: first_behind,
                        second: second_behind,
                    }),
                    Ordering::Greater => Some(Step::of_second(*other, first, second_behind)),
                }
            }
        }
    }

    /// Takes a number from the first list alone.
    fn of_first(asn: Asn, first: &'a [Asn], second: &'a [Asn]) -> Self
        ensures { result
            ≡ record {
              asn = asn;
              in_first = true;
              in_second = false;
              first = first.entry;
              second = second.entry;
            } }
    {
        Step {
            asn,
            in_first: true,
            in_second: false,
            first,
            second,
        }
    }

    /// Takes a number from the second list alone.
    fn of_second(asn: Asn, first: &'a [Asn], second: &'a [Asn]) -> Self
        ensures { result
            ≡ record {
              asn = asn;
              in_first = false;
              in_second = true;
              first = first.entry;
              second = second.entry;
            } }
    {
        Step {
            asn,
            in_first: false,
            in_second: true,
            first,
            second,
        }
    }
}

impl<'a> Found<'a> {
    ghost use Rattle.resources_asn.specs.Chosen.{values, is_chosen, passing};

    /// The least number that is wanted of two ascending lists.
    fn find(choice: Choice, mut first: &'a [Asn], mut second: &'a [Asn]) -> Option<Self>
        requires first { IsAscending (values first.now) }
        requires second { IsAscending (values second.now) }
        ensures none { IfNone result
            (passing (is_chosen choice (values first.now) (values second.now)) ≡ []) }
        ensures found { IfSome result (λ f. passing
            (is_chosen choice (values first.now) (values second.now))
            ≡ f.asn.value ∷ passing (is_chosen choice (values f.first.now) (values f.second.now))) }
        ensures ascending { IfSome result
            (λ f. IsAscending (values f.first.now) × IsAscending (values f.second.now)) }
    {
        while let Some(step) = Step::least(first, second) {
            if choice.takes(step.in_first, step.in_second) {
                return Some(Found {
                    asn: step.asn,
                    first: step.first,
                    second: step.second,
                });
            }
            first = step.first;
            second = step.second;
        }
        None
    }
}

impl<'a> Selection<'a> {
    ghost use Rattle.resources_asn.specs.Chosen.{values, is_chosen, passing};

    /// The wanted numbers of two ascending lists.
    pub(crate) fn new(choice: Choice, first: &'a [Asn], second: &'a [Asn]) -> Self
        requires first { IsAscending (values first.now) }
        requires second { IsAscending (values second.now) }
        ensures { result ≡ passing (is_chosen choice (values first.now) (values second.now)) }
    {
        Selection {
            choice,
            first,
            second,
        }
    }
}

impl<'a> Iterator for Selection<'a> {
    type Item = Asn;

    ghost next_gives = { YieldsFirstBy (λ a. a.value) (λ s. s) };

    ghost remaining = { item_count (λ s. s) };

    fn next(&mut self) -> Option<Asn> {
        let Some(found) = Found::find(self.choice, self.first, self.second) else {
            self.first = &[];
            self.second = &[];
            return None;
        };
        self.first = found.first;
        self.second = found.second;
        Some(found.asn)
    }
}
