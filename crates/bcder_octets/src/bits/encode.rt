//! Bit strings that are written.
ghost use Rattle.std.proofs.Common.{rules};
ghost use Rattle.std.specs.Prelude.{◌≡◌, ◌-◌, ◌^◌, ◌<◌, ◌≤◌, ◌%◌, false, length, IsTrue, IfOk, IfErr, OnOk};
ghost use Rattle.bcder_octets.specs.bcder_tree.Tags.{IsTag};
ghost use Rattle.bcder_octets.specs.bcder_primitive.Contents.{NoContent, ContentRefused};
ghost use Rattle.bcder_octets.specs.bcder_primitive.Writing.{HasLength, Wrote, TookFront};
ghost use Rattle.bcder_octets.specs.bcder_primitive.declared.written.error.EncodeError.TheVariants.{Write as refusal};
ghost use Rattle.bcder_octets.specs.Bits.{IsBits};
ghost use Rattle.bcder_octets.specs.BitContents.{WritesBits, bit_string_tag, cleared, padded_in};
ghost use Rattle.bcder_octets.specs.BitsWritten.{one_bits};

use crate::bcder_tree::{Mode, Tag};
use crate::bits::BitString;
use crate::bits::parse::MAX_CER_LEN;
use bcder_values::{EncodeError, Octets, Primitive, PrimitiveContent};
use std::convert::AsSlice;
use std::io::Write;

// The most content octets that four length octets can tell.
const MAX_LEN: usize = 0xFFFF_FFFF;

// Whether so many octets and their count of unused bits have no primitive form in CER (X.690 9.2).
fn is_long(mode: Mode, len: usize) -> bool
    ensures long { IsTrue result → (mode ≡ Mode.Cer) × (1000 ≤ len) }
    ensures short { result ≡ false → mode ≡ Mode.Cer → len < 1000 }
{
    mode.is_cer() && len >= MAX_CER_LEN
}

// How many content octets a bit string has.
fn content_len(mode: Mode, unused: u8, octets: &[u8]) -> Result<usize, EncodeError>
    requires { IsBits (record { unused = unused; octets = octets.now }) }
    ensures len { IfOk result
        (HasLength (WritesBits mode (record { unused = unused; octets = octets.now }))) }
    ensures few { IfOk result (λ n. n < 2 ^ 32) }
    ensures refused { IfErr result
        (NoContent mode (WritesBits mode (record { unused = unused; octets = octets.now }))) }
{
    let len = octets.len();
    if is_long(mode, len) {
        return Err(EncodeError::CerUnsupported);
    }
    if len >= MAX_LEN {
        return Err(EncodeError::TooLong);
    }
    Ok(len + 1)
}

// Writes octets, fewer than 2^32.
fn put<W: Write>(target: &mut W, octets: &[u8]) -> Result<(), EncodeError>
    requires { length octets.now < 2 ^ 32 }
    ensures written { OnOk result
        (Wrote (λ text. text ≡ octets.now) (W.contents target.old) (W.contents target.new)) }
    ensures refused { IfErr result (λ e. (e ≡ refusal)
        × TookFront (λ text. text ≡ octets.now) (W.contents target.old) (W.contents target.new)) }
{
    Octets(octets).write_encoded(Mode::Der, target)
}

// The octet, where the unused bits are zero.
fn clear(unused: u8, octet: u8) -> u8
    requires { unused < 8 }
    ensures { result ≡ octet - octet % 2 ^ unused }
{
    octet - octet % (1 << unused)
}

// Writes octets, the unused bits of the last one as zeros.
fn put_clear<W: Write>(target: &mut W, unused: u8, octets: &[u8]) -> Result<(), EncodeError>
    requires unused { unused < 8 }
    requires few { length octets.now < 2 ^ 32 }
    ensures written { OnOk result
        (Wrote (λ text. text ≡ cleared unused octets.now) (W.contents target.old)
        (W.contents target.new)) }
    ensures refused { IfErr result (λ e. (e ≡ refusal)
        × TookFront (λ text. text ≡ cleared unused octets.now) (W.contents target.old)
        (W.contents target.new)) }
{
    let Some((last, front)) = octets.split_last() else {
        return put(target, octets);
    };
    put(target, front)?;
    put(target, &[clear(unused, *last)])
}

// Writes the octets of a bit string, with the mode's padding.
fn put_padded<W: Write>(
    target: &mut W,
    mode: Mode,
    unused: u8,
    octets: &[u8],
) -> Result<(), EncodeError>
    requires unused { unused < 8 }
    requires few { length octets.now < 2 ^ 32 }
    ensures written { OnOk result
        (Wrote
        (λ text. text ≡ (padded_in mode (record { unused = unused; octets = octets.now })).octets)
        (W.contents target.old) (W.contents target.new)) }
    ensures refused { IfErr result (λ e. (e ≡ refusal)
        × TookFront
        (λ text. text ≡ (padded_in mode (record { unused = unused; octets = octets.now })).octets)
        (W.contents target.old) (W.contents target.new)) }
{
    match mode {
        Mode::Ber => put(target, octets),
        Mode::Cer => put_clear(target, unused, octets),
        Mode::Der => put_clear(target, unused, octets),
    }
}

// Writes the content octets of a bit string.
fn put_content<W: Write>(
    target: &mut W,
    mode: Mode,
    unused: u8,
    octets: &[u8],
) -> Result<(), EncodeError>
    requires { IsBits (record { unused = unused; octets = octets.now }) }
    ensures written { OnOk result
        (Wrote (WritesBits mode (record { unused = unused; octets = octets.now }))
        (W.contents target.old) (W.contents target.new)) }
    ensures refused { IfErr result
        (ContentRefused mode (WritesBits mode (record { unused = unused; octets = octets.now }))
        (target.new ≡ target.old) (W.contents target.old) (W.contents target.new)) }
{
    let len = content_len(mode, unused, octets)?;
    put(target, &[unused])?;
    put_padded(target, mode, unused, octets)
}

/// A BIT STRING (X.690 8.6): in CER and DER its unused bits are written as zeros, whatever they are (11.2.1);
/// in BER they are written as they are.
///
/// `CerUnsupported` where it has more than 1000 content octets in CER, the count of unused bits among them
/// (9.2); `TooLong` where it has more than 2^32 - 1.
impl PrimitiveContent for BitString {
    ghost type_tag = { bit_string_tag };

    ghost content = { λ v m. WritesBits m v };

    fn tag() -> Tag {
        Tag::BIT_STRING
    }

    fn encoded_len(&self, mode: Mode) -> Result<usize, EncodeError> {
        content_len(mode, self.unused(), self.as_slice())
    }

    fn write_encoded<W: Write>(&self, mode: Mode, target: &mut W) -> Result<(), EncodeError> {
        put_content(target, mode, self.unused(), self.as_slice())
    }

    ghost is_tag = { Prim.search rules };

    ghost one_content = { λ v m. one_bits m v };
}

/// Octets as the content of a BIT STRING, and how many bits of the last one are unused.
#[derive(Drop)]
pub struct BitSlice<T: AsSlice<u8>> {
    /// The octets: a slice, or what lends one.
    pub octets: T,
    /// How many bits of the last octet are unused.
    pub unused: u8,
    pub ghost lawful: { IsBits (record { unused = unused; octets = T.items octets }) },
}

/// Octets that are written as a BIT STRING.
pub type BitSliceEncoder<T> = Primitive<BitSlice<T>>;

/// What is written, and what isn't, is as of a `BitString`.
impl<T: AsSlice<u8>> PrimitiveContent for BitSlice<T> {
    ghost type_tag = { bit_string_tag };

    ghost content = { λ x m. WritesBits m
        (record { unused = x.unused; octets = T.items x.octets }) };

    fn tag() -> Tag {
        Tag::BIT_STRING
    }

    fn encoded_len(&self, mode: Mode) -> Result<usize, EncodeError> {
        content_len(mode, self.unused, self.octets.as_slice())
    }

    fn write_encoded<W: Write>(&self, mode: Mode, target: &mut W) -> Result<(), EncodeError> {
        put_content(target, mode, self.unused, self.octets.as_slice())
    }

    ghost is_tag = { Prim.search rules };

    ghost one_content = { λ x m. one_bits m
        (record { unused = x.unused; octets = T.items x.octets }) };
}

impl BitString {
    /// Octets as a BIT STRING; so many bits of the last one are unused.
    pub fn encode_slice<T: AsSlice<u8>>(octets: T, unused: u8) -> BitSliceEncoder<T>
        requires { IsBits (record { unused = unused; octets = T.items octets }) }
        ensures octets { result.content.octets ≡ octets }
        ensures unused { result.content.unused ≡ unused }
        ensures tag { result.tag ≡ bit_string_tag }
    {
        BitSlice { octets, unused }.encode()
    }

    /// Encodes the bits of a slice under an implicit tag (X.690 8.14).
    pub fn encode_slice_as<T: AsSlice<u8>>(octets: T, unused: u8, tag: Tag) -> BitSliceEncoder<T>
        requires lawful { IsBits (record { unused = unused; octets = T.items octets }) }
        requires is_tag { IsTag tag }
        ensures octets { result.content.octets ≡ octets }
        ensures unused { result.content.unused ≡ unused }
        ensures tag { result.tag ≡ tag }
    {
        BitSlice { octets, unused }.encode_as(tag)
    }
}
