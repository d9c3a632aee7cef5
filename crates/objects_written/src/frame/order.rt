//! The order of the encodings in a SET OF (X.690 11.6).

ghost use Rattle.std.specs.Prelude.{◌≡◌, ◌↔◌, IsTrue, MatchBool};
ghost use Rattle.objects_written.specs.Orders.{AreThese, IsOrdered, behind, front};

use certs::written::Captured;

// The first octet, 0 where there is none, and those after it.
fn split(octets: &[u8]) -> (u8, &[u8])
    ensures front { result.0 ≡ front octets.now }
    ensures behind { result.1.now ≡ behind octets.now }
{
    match octets.split_first() {
        Some((first, others)) => (*first, others),
        None => (0, octets),
    }
}

// Whether octets don't come after others: they are compared one by one, and octets that are missing at the end count
// as 0.
fn is_ordered(first: &[u8], second: &[u8]) -> bool
    ensures { IsTrue result ↔ IsOrdered first.now second.now }
{
    let mut left = first;
    let mut right = second;
    while let Some((a, others)) = left.split_first() {
        let (b, rest) = split(right);
        if *a != b {
            return *a < b;
        }
        left = others;
        right = rest;
    }
    true
}

// Whether the first of two doesn't come after the second; else the second doesn't come after the first.
fn is_first(first: &Captured, second: &Captured) -> bool
    ensures { MatchBool result (IsOrdered first.now.octets second.now.octets)
        (IsOrdered second.now.octets first.now.octets) }
{
    is_ordered(first.as_slice(), second.as_slice())
}

/// Three, ascending.
pub(crate) fn in_order<'a>(
    a: &'a Captured,
    b: &'a Captured,
    c: &'a Captured,
) -> (&'a Captured, &'a Captured, &'a Captured)
    ensures these { AreThese (a.now, (b.now, c.now)) result.0.now result.1.now result.2.now }
    ensures first { IsOrdered result.0.now.octets result.1.now.octets }
    ensures second { IsOrdered result.1.now.octets result.2.now.octets }
{
    if is_first(a, b) {
        if is_first(b, c) {
            return (a, b, c);
        }
        if is_first(a, c) {
            return (a, c, b);
        }
        return (c, a, b);
    }
    if is_first(a, c) {
        return (b, a, c);
    }
    if is_first(b, c) {
        return (b, c, a);
    }
    (c, b, a)
}
