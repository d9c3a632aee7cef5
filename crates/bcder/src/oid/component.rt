//! Components of object identifiers.

ghost use Rattle.std.specs.Prelude.{◌≡◌, ◌↔◌, ◌+◌, ◌-◌, ◌*◌, ◌^◌, ◌<◌, ◌≤◌, length, min, nat_eq, IsTrue, Some};
ghost use Rattle.std.specs.Cmp.{nat_eq_equiv, on_equiv, on_per, partial_equiv_from_equiv};
ghost use Rattle.std.specs.Option.{SomeIff};
ghost use Rattle.bcder.specs.Components.{less_at, number_at, number_of};
ghost use Rattle.bcder.specs.Printed.{component_text};
ghost use Rattle.bcder.specs.Subidentifiers.{base128};

use std::fmt;

/// One component of an object identifier: a number from 0 up, of any size.
#[derive(Clone, Copy, Debug)]
pub struct Component<'a> {
    /// Where the component stands.
    pub(crate) place: Place,
    /// The subidentifier that it is or is part of (X.690 8.19.2).
    pub(crate) octets: &'a [u8],
}

/// Where a component stands: the first two are of one subidentifier (X.690 8.19.4).
#[derive(Clone, Copy, Debug)]
pub(crate) enum Place {
    First,
    Second,
    Later,
}

// More than each subidentifier of a component below 2^32.
const TOO_LARGE: u64 = 1 << 33;

// The number of a subidentifier, where it is below that.
fn capped_number(octets: &[u8]) -> u64
    ensures { result ≡ min (base128 octets.now) (2 ^ 33) }
{
    let mut number = 0;
    for octet in octets {
        number = (number * 128 + u64::from(*octet % 128)).min(TOO_LARGE);
    }
    number
}

// The component at that place of a subidentifier.
fn component_at(place: Place, number: u64) -> u64
    ensures { result ≡ number_at place number }
{
    match place {
        Place::First => (number / 40).min(2),
        Place::Second => number - 40 * (number / 40).min(2),
        Place::Later => number,
    }
}

// The last seven bits of a subidentifier, after the octets before them; zero where there are none.
fn last_digit(octets: &[u8]) -> (&[u8], u32)
    ensures value { base128 octets.now ≡ base128 result.0.now * 128 + result.1 }
    ensures digit { result.1 < 128 }
    ensures shorter { length result.0.now ≡ length octets.now - 1 }
{
    match octets.split_last() {
        Some((last, front)) => (front, u32::from(*last % 128)),
        None => (octets, 0),
    }
}

// Whether the numbers of two subidentifiers, each with so much more, are the same.
fn are_same(one: &[u8], one_more: u32, other: &[u8], other_more: u32) -> bool
    requires one { one_more ≤ 80 }
    requires other { other_more ≤ 80 }
    ensures { IsTrue result ↔ (base128 one.now + one_more ≡ base128 other.now + other_more) }
{
    let mut first = one;
    let mut second = other;
    let mut first_more = one_more;
    let mut second_more = other_more;
    let count = one.len().max(other.len());
    for _done in 0..count {
        let (first_front, first_digit) = last_digit(first);
        let (second_front, second_digit) = last_digit(second);
        let first_sum = first_more + first_digit;
        let second_sum = second_more + second_digit;
        if first_sum % 128 != second_sum % 128 {
            return false;
        }
        first = first_front;
        second = second_front;
        first_more = first_sum / 128;
        second_more = second_sum / 128;
    }
    first_more == second_more
}

// What a subidentifier from 80 up has more than the component at that place.
fn less(place: Place) -> u32
    ensures { result ≡ less_at place }
{
    match place {
        Place::Second => 80,
        _ => 0,
    }
}

impl Component<'_> {
    /// The number of the component; None where it is above `u32::MAX`.
    #[tactic(auto, using(crate::proofs::Numbers::far_at, crate::proofs::Numbers::near_at))]
    pub fn to_u32(self) -> Option<u32>
        ensures { SomeIff result (number_of self.entry < 2 ^ 32) (number_of self.entry) }
    {
        let number = component_at(self.place, capped_number(self.octets));
        if number > u64::from(u32::MAX) {
            return None;
        }
        Some(number as u32)
    }
}

/// Components are equal where their numbers are.
impl PartialEq for Component<'_> {
    ghost eq = { λ x y. nat_eq (number_of x) (number_of y) };

    ghost laws = { on_per number_of (partial_equiv_from_equiv nat_eq_equiv) };

    fn eq(&self, other: &Self) -> bool {
        match ((*self).to_u32(), (*other).to_u32()) {
            (Some(number), Some(other)) => number == other,
            (None, None) => are_same(
                self.octets,
                less(other.place),
                other.octets,
                less(self.place),
            ),
            _ => false,
        }
    }
}

impl Eq for Component<'_> {
    ghost laws = { on_equiv number_of nat_eq_equiv };
}

/// The decimal digits of the component; above `u32::MAX`, `(not implemented)`.
impl fmt::Display for Component<'_> {
    ghost output = { λ c. Some (component_text (number_of c)) };

    fn fmt<W: fmt::Write>(&self, f: &mut fmt::Formatter<W>) -> fmt::Result {
        match (*self).to_u32() {
            Some(number) => write!(f, "{number}"),
            None => write!(f, "(not implemented)"),
        }
    }
}
