//! What content octets of INTEGERs say (X.690 8.3).

ghost use Rattle.std.specs.Prelude.{◌≡◌, ◌↔◌, ◌^◌, ◌<◌, ℕ, ℤ, [], ◌∷◌, IsTrue, IfSome, IfNone};
ghost use Rattle.std.specs.Ordering.{int_cmp};
ghost use Rattle.bcder_number.specs.bcder_tree.declared.mode.Mode.TheVariants.{Der};
ghost use Rattle.bcder_number.specs.bcder_tree.Integers.{number_of};
ghost use Rattle.bcder_number.specs.bcder_primitive.Plain.{plain};
ghost use Rattle.bcder_number.specs.bcder_primitive.Sliced.{content_of as whole_content};
ghost use Rattle.bcder_number.specs.bcder_primitive.Values.{IsSigned, IsUnsigned, IsNegative};
ghost use Rattle.bcder_number.specs.Integers.{IsInteger, IsNatural, told};

use crate::bcder_primitive::Primitive;
use crate::bcder_primitive::integers::is_shortest;
use crate::bcder_source::{LimitedSource, Mode, SliceSource, Source};
use std::cmp::Ordering;

/// Whether octets are the content of an INTEGER.
pub(crate) fn is_integer(octets: &[u8]) -> bool
    ensures { IsTrue result ↔ IsInteger octets.now (told octets.now) }
{
    is_shortest(octets)
}

/// Whether the highest bit, the sign, is set (8.3.3).
pub(crate) fn is_negative(octets: &[u8]) -> bool
    ensures { IsTrue result ↔ IsNegative octets.now }
{
    match octets {
        [] => false,
        [first, ..] => *first >= 128,
    }
}

/// Whether octets are the content of an INTEGER from 0 up.
pub(crate) fn is_natural(octets: &[u8]) -> bool
    ensures { IsTrue result ↔ IsNatural octets.now (number_of octets.now) }
{
    is_integer(octets) && !is_negative(octets)
}

/// Whether octets are those of 0.
pub(crate) fn is_zero(octets: &[u8]) -> bool
    ensures { IsTrue result ↔ (octets.now ≡ 0 ∷ []) }
{
    match octets {
        [octet] => *octet == 0,
        _ => false,
    }
}

/// The order of the numbers that have these contents. Of two with one sign the longer is further from 0, and octets of
/// one length and sign stand in the order of their numbers.
pub(crate) fn order(a: &[u8], b: &[u8]) -> Ordering
    ensures { (x y : ℤ) → IsInteger a.now x → IsInteger b.now y → result ≡ int_cmp x y }
{
    match (is_negative(a), is_negative(b)) {
        (false, true) => Ordering::Greater,
        (true, false) => Ordering::Less,
        (false, false) => a.len().cmp(&b.len()).then(a.cmp(&b)),
        (true, true) => b.len().cmp(&a.len()).then(a.cmp(&b)),
    }
}

// A primitive content of just these octets.
fn content_of(octets: &[u8]) -> Primitive<SliceSource<'_>>
    ensures { plain (λ s. s.rest) result ≡ whole_content Der octets.now }
{
    let source = SliceSource::new(octets);
    let start = source.pos();
    Primitive {
        source: LimitedSource {
            source,
            limit: Some(octets.len()),
        },
        mode: Mode::Der,
        failed: false,
        start,
    }
}

/// The number of an INTEGER with this content, if it fits an `i128`.
pub(crate) fn signed(octets: &[u8]) -> Option<i128>
    ensures found { IfSome result (λ n. IsSigned (2 ^ 127) octets.now n) }
    ensures none { IfNone result ((n : ℤ) → IsSigned (2 ^ 127) octets.now n → ⊥) }
{
    let mut content = content_of(octets);
    let Ok(number) = content.to_i128() else {
        return None;
    };
    if content.remaining() > 0 {
        return None;
    }
    Some(number)
}

/// The number of an INTEGER with this content, if it fits a `u128`.
pub(crate) fn unsigned(octets: &[u8]) -> Option<u128>
    ensures found { IfSome result (λ n. IsUnsigned (2 ^ 128) octets.now n) }
    ensures none { IfNone result ((n : ℕ) → IsUnsigned (2 ^ 128) octets.now n → ⊥) }
{
    let mut content = content_of(octets);
    let Ok(number) = content.to_u128() else {
        return None;
    };
    if content.remaining() > 0 {
        return None;
    }
    Some(number)
}
