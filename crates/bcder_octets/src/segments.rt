//! The segments of a string in CER.

ghost use Rattle.std.specs.Prelude.{◌≡◌, ◌<◌, [], ◌∷◌, length, IfOk, IfErr, IfSome, IfNone, OnOk};
ghost use Rattle.bcder_octets.specs.Segments.{segments, IsSegment, WritesSegment, AreSegmentsOf, WritesSegments, segments_spelled, segments_one};
ghost use Rattle.bcder_octets.specs.bcder_primitive.Writing.{HasLength, Wrote, CannotWrite, WriteRefused};

use crate::bcder_source::{Mode, Tag};
use crate::pieces::SEGMENT;
use bcder_values::{EncodeError, Octets, Primitive, Values};
use std::io::Write;

// Octets that are written in segments: primitive OCTET STRINGs of 1000 octets, and a last one of 1 to 1000
// (X.690 9.2).
#[derive(Clone, Copy, Debug)]
pub(crate) struct Segments<'a> {
    pub(crate) octets: &'a [u8],
}

// The first segment, and the octets after it.
fn first_segment<'a>(octets: &'a [u8]) -> Option<(&'a [u8], &'a [u8])>
    ensures found { IfSome result (λ r. segments octets.now ≡ r.0.now ∷ segments r.1.now) }
    ensures shorter { IfSome result (λ r. length r.1.now < length octets.now) }
    ensures none { IfNone result (segments octets.now ≡ []) }
{
    if octets.is_empty() {
        return None;
    }
    if octets.len() <= SEGMENT {
        return Some(octets.split_at(octets.len()));
    }
    Some(octets.split_at(SEGMENT))
}

// How many octets a segment has when it is written.
fn segment_len(segment: &[u8], mode: Mode) -> Result<usize, EncodeError>
    ensures len { IfOk result (HasLength (WritesSegment mode segment.now)) }
    ensures refused { IfErr result
        (CannotWrite (IsSegment segment.now) (WritesSegment mode segment.now)) }
{
    let value = Primitive {
        tag: Tag::OCTET_STRING,
        content: Octets(segment),
    };
    value.encoded_len(mode)
}

// Writes one segment.
fn write_segment<W: Write>(segment: &[u8], mode: Mode, target: &mut W) -> Result<(), EncodeError>
    ensures written { OnOk result
        (Wrote (WritesSegment mode segment.now) (W.contents target.old) (W.contents target.new)) }
    ensures refused { IfErr result
        (WriteRefused (IsSegment segment.now) (WritesSegment mode segment.now)
        (target.new ≡ target.old) (W.contents target.old) (W.contents target.new)) }
{
    let value = Primitive {
        tag: Tag::OCTET_STRING,
        content: Octets(segment),
    };
    value.write_encoded(mode, target)
}

// How many octets all segments have when they are written.
fn segments_len(octets: &[u8], mode: Mode) -> Result<usize, EncodeError>
    ensures len { IfOk result (HasLength (WritesSegments mode octets.now)) }
    ensures refused { IfErr result
        (CannotWrite (AreSegmentsOf octets.now) (WritesSegments mode octets.now)) }
{
    let mut sum = 0usize;
    let mut rest = octets;
    while let Some((first, others)) = first_segment(rest) {
        let len = segment_len(first, mode)?;
        match sum.checked_add(len) {
            Some(total) => sum = total,
            None => return Err(EncodeError::TooLong),
        }
        rest = others;
    }
    Ok(sum)
}

// Writes all segments, or nothing where `segments_len` refuses.
fn write_segments<W: Write>(octets: &[u8], mode: Mode, target: &mut W) -> Result<(), EncodeError>
    ensures written { OnOk result
        (Wrote (WritesSegments mode octets.now) (W.contents target.old) (W.contents target.new)) }
    ensures refused { IfErr result
        (WriteRefused (AreSegmentsOf octets.now) (WritesSegments mode octets.now)
        (target.new ≡ target.old) (W.contents target.old) (W.contents target.new)) }
{
    segments_len(octets, mode)?;
    let mut rest = octets;
    while let Some((first, others)) = first_segment(rest) {
        write_segment(first, mode, target)?;
        rest = others;
    }
    Ok(())
}

impl<'a> Values for Segments<'a> {
    ghost trees = { λ x m. AreSegmentsOf x.octets.now };

    ghost writes = { λ x m. WritesSegments m x.octets.now };

    fn encoded_len(&self, mode: Mode) -> Result<usize, EncodeError> {
        segments_len(self.octets, mode)
    }

    fn write_encoded<W: Write>(&self, mode: Mode, target: &mut W) -> Result<(), EncodeError> {
        write_segments(self.octets, mode, target)
    }

    ghost spelled = { λ x m. segments_spelled m x.octets.now };

    ghost one_text = { λ x m. segments_one m x.octets.now };
}
