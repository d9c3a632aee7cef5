//! Strings that are written.

ghost use Rattle.std.specs.Prelude.{◌≡◌, IfOk, IfErr, OnOk};
ghost use Rattle.bcder_octets.specs.bcder_tree.Tags.{IsTag};
ghost use Rattle.bcder_octets.specs.bcder_tree.Strings.{octet_string_tag};
ghost use Rattle.bcder_octets.specs.Segments.{is_cut as is_cut_of, StringTrees, WritesString, string_spelled, string_one};
ghost use Rattle.bcder_octets.specs.bcder_primitive.Writing.{HasLength, Wrote, CannotWrite, WriteRefused};

use crate::bcder_source::{Mode, Tag};
use crate::pieces::SEGMENT;
use crate::segments::Segments;
use crate::string::OctetString;
use bcder_values::{Constructed, EncodeError, Octets, Primitive, Values};
use std::convert::AsSlice;
use std::io::Write;

// Whether a string is written in segments.
fn is_cut(mode: Mode, octets: &[u8]) -> bool
    ensures { result ≡ is_cut_of mode octets.now }
{
    match mode {
        Mode::Ber | Mode::Der => false,
        Mode::Cer => SEGMENT < octets.len(),
    }
}

// How many octets a string has when it is written.
fn string_len(tag: Tag, octets: &[u8], mode: Mode) -> Result<usize, EncodeError>
    requires { IsTag tag }
    ensures len { IfOk result (HasLength (WritesString mode tag octets.now)) }
    ensures refused { IfErr result
        (CannotWrite (StringTrees mode tag octets.now) (WritesString mode tag octets.now)) }
{
    if is_cut(mode, octets) {
        let value = Constructed {
            tag,
            inner: Segments { octets },
        };
        return value.encoded_len(mode);
    }
    let value = Primitive {
        tag,
        content: Octets(octets),
    };
    value.encoded_len(mode)
}

// Writes a string.
fn write_string<W: Write>(
    tag: Tag,
    octets: &[u8],
    mode: Mode,
    target: &mut W,
) -> Result<(), EncodeError>
    requires { IsTag tag }
    ensures written { OnOk result
        (Wrote (WritesString mode tag octets.now) (W.contents target.old) (W.contents target.new)) }
    ensures refused { IfErr result
        (WriteRefused (StringTrees mode tag octets.now) (WritesString mode tag octets.now)
        (target.new ≡ target.old) (W.contents target.old) (W.contents target.new)) }
{
    if is_cut(mode, octets) {
        let value = Constructed {
            tag,
            inner: Segments { octets },
        };
        return value.write_encoded(mode, target);
    }
    let value = Primitive {
        tag,
        content: Octets(octets),
    };
    value.write_encoded(mode, target)
}

/// An OCTET STRING of octets that are lent, as it is written (X.690 8.7): primitive, or in CER, where it has more
/// than 1000 octets, in segments of 1000 and a last one of 1 to 1000 (9.2).
///
/// `TooLong` where a content has more than 2^32 - 1 octets.
#[derive(Drop)]
pub struct OctetSliceEncoder<T> {
    /// The tag of the string.
    pub tag: Tag,
    /// The octets that are lent.
    pub octets: T,
    ghost is_tag: { IsTag tag },
}

impl<T: AsSlice<u8>> Values for OctetSliceEncoder<T> {
    ghost trees = { λ x m. StringTrees m x.tag (T.items x.octets) };

    ghost writes = { λ x m. WritesString m x.tag (T.items x.octets) };

    fn encoded_len(&self, mode: Mode) -> Result<usize, EncodeError> {
        string_len(self.tag, self.octets.as_slice(), mode)
    }

    fn write_encoded<W: Write>(&self, mode: Mode, target: &mut W) -> Result<(), EncodeError> {
        write_string(self.tag, self.octets.as_slice(), mode, target)
    }

    ghost spelled = { λ x m. string_spelled m x.tag (T.items x.octets) };

    ghost one_text = { λ x m. string_one m x.tag (T.items x.octets) };
}

/// An OCTET STRING as it is written, as by `OctetSliceEncoder`.
#[derive(Drop)]
pub struct OctetStringEncoder {
    /// The tag of the string.
    pub tag: Tag,
    /// The string.
    pub string: OctetString,
    ghost is_tag: { IsTag tag },
}

impl Values for OctetStringEncoder {
    ghost trees = { λ x m. StringTrees m x.tag x.string };

    ghost writes = { λ x m. WritesString m x.tag x.string };

    fn encoded_len(&self, mode: Mode) -> Result<usize, EncodeError> {
        string_len(self.tag, self.string.as_octets(), mode)
    }

    fn write_encoded<W: Write>(&self, mode: Mode, target: &mut W) -> Result<(), EncodeError> {
        write_string(self.tag, self.string.as_octets(), mode, target)
    }

    ghost spelled = { λ x m. string_spelled m x.tag x.string };

    ghost one_text = { λ x m. string_one m x.tag x.string };
}

/// Strings that are written.
impl OctetString {
    /// The OCTET STRING as a value.
    pub fn encode(self) -> OctetStringEncoder
        ensures tag { result.tag ≡ octet_string_tag }
        ensures string { result.string ≡ self }
    {
        OctetStringEncoder {
            tag: Tag::OCTET_STRING,
            string: self,
        }
    }

    /// Encodes the string under an implicit tag (X.690 8.14).
    pub fn encode_as(self, tag: Tag) -> OctetStringEncoder
        requires { IsTag tag }
        ensures tag { result.tag ≡ tag }
        ensures string { result.string ≡ self }
    {
        OctetStringEncoder { tag, string: self }
    }

    /// The OCTET STRING as a value, which is lent.
    pub fn encode_ref(&self) -> OctetSliceEncoder<&[u8]>
        ensures tag { result.tag ≡ octet_string_tag }
        ensures octets { result.octets.now ≡ self.now }
    {
        OctetSliceEncoder {
            tag: Tag::OCTET_STRING,
            octets: self.as_octets(),
        }
    }

    /// Encodes the borrowed string under an implicit tag (X.690 8.14).
    pub fn encode_ref_as(&self, tag: Tag) -> OctetSliceEncoder<&[u8]>
        requires { IsTag tag }
        ensures tag { result.tag ≡ tag }
        ensures octets { result.octets.now ≡ self.now }
    {
        OctetSliceEncoder {
            tag,
            octets: self.as_octets(),
        }
    }

    /// An OCTET STRING of these octets as a value.
    pub fn encode_slice<T: AsSlice<u8>>(octets: T) -> OctetSliceEncoder<T>
        ensures tag { result.tag ≡ octet_string_tag }
        ensures octets { result.octets ≡ octets }
    {
        OctetSliceEncoder {
            tag: Tag::OCTET_STRING,
            octets,
        }
    }

    /// Encodes a slice under an implicit tag (X.690 8.14).
    pub fn encode_slice_as<T: AsSlice<u8>>(octets: T, tag: Tag) -> OctetSliceEncoder<T>
        requires { IsTag tag }
        ensures tag { result.tag ≡ tag }
        ensures octets { result.octets ≡ octets }
    {
        OctetSliceEncoder { tag, octets }
    }
}
