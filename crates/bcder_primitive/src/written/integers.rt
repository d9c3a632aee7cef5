//! Numbers, as the content of INTEGERs (X.690 8.3).

ghost use Rattle.std.proofs.Common.{rules};
ghost use Rattle.std.specs.Prelude.{◌≡◌, ◌-◌, ◌*◌, ◌^◌, ◌<◌, ◌≤◌, ℕ, ℤ, pos, length, IfErr, OnOk};
ghost use Rattle.bcder_primitive.specs.bcder_tree.declared.mode.Mode.{Mode as ModeValue};
ghost use Rattle.bcder_primitive.specs.bcder_tree.Tags.{integer_tag};
ghost use Rattle.bcder_primitive.specs.bcder_tree.Integers.{IsShortest};
ghost use Rattle.bcder_primitive.specs.Values.{IsSigned, IsTwosComplement, IsWithin};
ghost use Rattle.bcder_primitive.specs.Contents.{ContentRefused};
ghost use Rattle.bcder_primitive.specs.Integers.{WritesUnsigned, IsFewest, steps_of, one_unsigned, one_signed};
ghost use Rattle.bcder_primitive.specs.Writing.{HasLength, Wrote};

use crate::bcder_tree::{Mode, Tag};
use crate::written::write::write_octets;
use crate::written::{EncodeError, PrimitiveContent};
use std::io::Write;

// In how few octets a number stands that is so many steps from 0 or from -1, its sign with them (8.3.2).
fn fewest(steps: u128) -> usize
    ensures { IsFewest steps result }
{
    (128 - steps.leading_zeros()) as usize / 8 + 1
}

// The last octets, as few as the number takes that is so many steps from 0 or from -1.
fn shortest(octets: &[u8], steps: u128) -> &[u8]
    requires some { 1 ≤ length octets.now }
    requires close { steps < 128 * 256 ^ (length octets.now - 1) }
    ensures shortest { (x : ℤ) → steps_of x ≡ steps → IsTwosComplement octets.now x
        → IsShortest result.now }
    ensures same { (x : ℤ) → steps_of x ≡ steps → IsTwosComplement octets.now x
        → IsTwosComplement result.now x }
{
    &octets[octets.len() - fewest(steps)..]
}

// A number's octets, after a zero.
fn padded(number: u128) -> [u8; 17]
    ensures { IsTwosComplement result (pos number) }
{
    let mut octets = [0; 17];
    octets[1..].copy_from_slice(&number.to_be_bytes());
    octets
}

// The octets of a number in two's complement.
fn twos_complement(number: i128) -> [u8; 16]
    ensures { IsTwosComplement result number }
{
    number.to_be_bytes()
}

// How many steps a number is from 0, or from -1.
fn steps_from_zero(number: i128) -> u128
    ensures { result ≡ steps_of number }
{
    if number < 0 {
        !number.cast_unsigned()
    } else {
        number as u128
    }
}

// How many content octets a number from 0 up has.
fn unsigned_len(number: u128) -> usize
    ensures len { (bound : ℕ) → number < bound → HasLength (WritesUnsigned bound number) result }
    ensures few { result ≤ 17 }
{
    fewest(number)
}

// Writes the content octets of a number from 0 up.
fn put_unsigned<W: Write>(target: &mut W, number: u128) -> Result<(), EncodeError>
    ensures written { (bound : ℕ) → number < bound
        → OnOk result
        (Wrote (WritesUnsigned bound number) (W.contents target.old) (W.contents target.new)) }
    ensures refused { (bound : ℕ) (m : ModeValue) → number < bound
        → IfErr result
        (ContentRefused m (WritesUnsigned bound number) (target.new ≡ target.old)
        (W.contents target.old) (W.contents target.new)) }
{
    let octets = padded(number);
    let content = shortest(&octets, number);
    write_octets(target, content)
}

// How many content octets a number has.
fn signed_len(number: i128) -> usize
    ensures len { (bound : ℕ) → IsWithin bound number
        → HasLength (λ content. IsSigned bound content number) result }
    ensures few { result ≤ 16 }
{
    fewest(steps_from_zero(number))
}

// Writes the content octets of a number.
fn put_signed<W: Write>(target: &mut W, number: i128) -> Result<(), EncodeError>
    ensures written { (bound : ℕ) → IsWithin bound number
        → OnOk result
        (Wrote (λ content. IsSigned bound content number) (W.contents target.old)
        (W.contents target.new)) }
    ensures refused { (bound : ℕ) (m : ModeValue) → IsWithin bound number
        → IfErr result
        (ContentRefused m (λ content. IsSigned bound content number) (target.new ≡ target.old)
        (W.contents target.old) (W.contents target.new)) }
{
    let octets = twos_complement(number);
    let content = shortest(&octets, steps_from_zero(number));
    write_octets(target, content)
}

/// An INTEGER from 0 up (X.690 8.3), in the fewest octets.
impl PrimitiveContent for u8 {
    ghost type_tag = { integer_tag };

    ghost content = { λ x m. WritesUnsigned (2 ^ 8) x };

    fn tag() -> Tag {
        Tag::INTEGER
    }

    fn encoded_len(&self, _mode: Mode) -> Result<usize, EncodeError> {
        Ok(unsigned_len(u128::from(*self)))
    }

    fn write_encoded<W: Write>(&self, _mode: Mode, target: &mut W) -> Result<(), EncodeError> {
        put_unsigned(target, u128::from(*self))
    }

    ghost is_tag = { Prim.search rules };

    ghost one_content = { λ x m. one_unsigned x };
}

/// An INTEGER from 0 up (X.690 8.3), in the fewest octets.
impl PrimitiveContent for u16 {
    ghost type_tag = { integer_tag };

    ghost content = { λ x m. WritesUnsigned (2 ^ 16) x };

    fn tag() -> Tag {
        Tag::INTEGER
    }

    fn encoded_len(&self, _mode: Mode) -> Result<usize, EncodeError> {
        Ok(unsigned_len(u128::from(*self)))
    }

    fn write_encoded<W: Write>(&self, _mode: Mode, target: &mut W) -> Result<(), EncodeError> {
        put_unsigned(target, u128::from(*self))
    }

    ghost is_tag = { Prim.search rules };

    ghost one_content = { λ x m. one_unsigned x };
}

/// An INTEGER from 0 up (X.690 8.3), in the fewest octets.
impl PrimitiveContent for u32 {
    ghost type_tag = { integer_tag };

    ghost content = { λ x m. WritesUnsigned (2 ^ 32) x };

    fn tag() -> Tag {
        Tag::INTEGER
    }

    fn encoded_len(&self, _mode: Mode) -> Result<usize, EncodeError> {
        Ok(unsigned_len(u128::from(*self)))
    }

    fn write_encoded<W: Write>(&self, _mode: Mode, target: &mut W) -> Result<(), EncodeError> {
        put_unsigned(target, u128::from(*self))
    }

    ghost is_tag = { Prim.search rules };

    ghost one_content = { λ x m. one_unsigned x };
}

/// An INTEGER from 0 up (X.690 8.3), in the fewest octets.
impl PrimitiveContent for u64 {
    ghost type_tag = { integer_tag };

    ghost content = { λ x m. WritesUnsigned (2 ^ 64) x };

    fn tag() -> Tag {
        Tag::INTEGER
    }

    fn encoded_len(&self, _mode: Mode) -> Result<usize, EncodeError> {
        Ok(unsigned_len(u128::from(*self)))
    }

    fn write_encoded<W: Write>(&self, _mode: Mode, target: &mut W) -> Result<(), EncodeError> {
        put_unsigned(target, u128::from(*self))
    }

    ghost is_tag = { Prim.search rules };

    ghost one_content = { λ x m. one_unsigned x };
}

/// An INTEGER from 0 up (X.690 8.3), in the fewest octets.
impl PrimitiveContent for u128 {
    ghost type_tag = { integer_tag };

    ghost content = { λ x m. WritesUnsigned (2 ^ 128) x };

    fn tag() -> Tag {
        Tag::INTEGER
    }

    fn encoded_len(&self, _mode: Mode) -> Result<usize, EncodeError> {
        Ok(unsigned_len(*self))
    }

    fn write_encoded<W: Write>(&self, _mode: Mode, target: &mut W) -> Result<(), EncodeError> {
        put_unsigned(target, *self)
    }

    ghost is_tag = { Prim.search rules };

    ghost one_content = { λ x m. one_unsigned x };
}

/// An INTEGER (X.690 8.3), in the fewest octets.
impl PrimitiveContent for i8 {
    ghost type_tag = { integer_tag };

    ghost content = { λ x m content. IsSigned (2 ^ 7) content x };

    fn tag() -> Tag {
        Tag::INTEGER
    }

    fn encoded_len(&self, _mode: Mode) -> Result<usize, EncodeError> {
        Ok(signed_len(i128::from(*self)))
    }

    fn write_encoded<W: Write>(&self, _mode: Mode, target: &mut W) -> Result<(), EncodeError> {
        put_signed(target, i128::from(*self))
    }

    ghost is_tag = { Prim.search rules };

    ghost one_content = { λ x m. one_signed x };
}

/// An INTEGER (X.690 8.3), in the fewest octets.
impl PrimitiveContent for i16 {
    ghost type_tag = { integer_tag };

    ghost content = { λ x m content. IsSigned (2 ^ 15) content x };

    fn tag() -> Tag {
        Tag::INTEGER
    }

    fn encoded_len(&self, _mode: Mode) -> Result<usize, EncodeError> {
        Ok(signed_len(i128::from(*self)))
    }

    fn write_encoded<W: Write>(&self, _mode: Mode, target: &mut W) -> Result<(), EncodeError> {
        put_signed(target, i128::from(*self))
    }

    ghost is_tag = { Prim.search rules };

    ghost one_content = { λ x m. one_signed x };
}

/// An INTEGER (X.690 8.3), in the fewest octets.
impl PrimitiveContent for i32 {
    ghost type_tag = { integer_tag };

    ghost content = { λ x m content. IsSigned (2 ^ 31) content x };

    fn tag() -> Tag {
        Tag::INTEGER
    }

    fn encoded_len(&self, _mode: Mode) -> Result<usize, EncodeError> {
        Ok(signed_len(i128::from(*self)))
    }

    fn write_encoded<W: Write>(&self, _mode: Mode, target: &mut W) -> Result<(), EncodeError> {
        put_signed(target, i128::from(*self))
    }

    ghost is_tag = { Prim.search rules };

    ghost one_content = { λ x m. one_signed x };
}

/// An INTEGER (X.690 8.3), in the fewest octets.
impl PrimitiveContent for i64 {
    ghost type_tag = { integer_tag };

    ghost content = { λ x m content. IsSigned (2 ^ 63) content x };

    fn tag() -> Tag {
        Tag::INTEGER
    }

    fn encoded_len(&self, _mode: Mode) -> Result<usize, EncodeError> {
        Ok(signed_len(i128::from(*self)))
    }

    fn write_encoded<W: Write>(&self, _mode: Mode, target: &mut W) -> Result<(), EncodeError> {
        put_signed(target, i128::from(*self))
    }

    ghost is_tag = { Prim.search rules };

    ghost one_content = { λ x m. one_signed x };
}

/// An INTEGER (X.690 8.3), in the fewest octets.
impl PrimitiveContent for i128 {
    ghost type_tag = { integer_tag };

    ghost content = { λ x m content. IsSigned (2 ^ 127) content x };

    fn tag() -> Tag {
        Tag::INTEGER
    }

    fn encoded_len(&self, _mode: Mode) -> Result<usize, EncodeError> {
        Ok(signed_len(*self))
    }

    fn write_encoded<W: Write>(&self, _mode: Mode, target: &mut W) -> Result<(), EncodeError> {
        put_signed(target, *self)
    }

    ghost is_tag = { Prim.search rules };

    ghost one_content = { λ x m. one_signed x };
}
