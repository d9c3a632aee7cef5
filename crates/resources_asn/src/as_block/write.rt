//! Blocks of AS numbers that are written (RFC 3779 section 3.2.3.5).

ghost use Rattle.std.specs.Prelude.{◌≡◌, ◌==◌, IfOk, IfErr, OnOk};
ghost use Rattle.resources_asn.specs.bcder_primitive.Writing.{HasLength, Wrote, CannotWrite, WriteRefused};
ghost use Rattle.resources_asn.specs.Blocks.{as_run};
ghost use Rattle.resources_asn.specs.Ranges.{range_run};
ghost use Rattle.resources_asn.specs.Written.{AreAsId, WritesAsId, AreAsRange, WritesAsRange, AreAsBlock, WritesAsBlock, range_spelled, range_one, block_spelled, block_one};

use crate::Asn;
use crate::as_block::block::AsBlock;
use crate::as_block::range::AsRange;
use crate::codec::encode::{Constructed, EncodeError, Primitive, Values};
use crate::codec::{Mode, Tag};
use std::io::Write;

// How many octets a number has.
fn id_len(mode: Mode, number: Asn) -> Result<usize, EncodeError>
    ensures len { IfOk result (HasLength (WritesAsId mode number.value)) }
    ensures refused { IfErr result
        (CannotWrite (AreAsId number.value) (WritesAsId mode number.value)) }
{
    let values = Primitive {
        tag: Tag::INTEGER,
        content: number,
    };
    values.encoded_len(mode)
}

// Writes a number.
fn write_id<W: Write>(mode: Mode, number: Asn, target: &mut W) -> Result<(), EncodeError>
    ensures written { OnOk result
        (Wrote (WritesAsId mode number.value) (W.contents target.old) (W.contents target.new)) }
    ensures refused { IfErr result
        (WriteRefused (AreAsId number.value) (WritesAsId mode number.value)
        (target.new ≡ target.old) (W.contents target.old) (W.contents target.new)) }
{
    let values = Primitive {
        tag: Tag::INTEGER,
        content: number,
    };
    values.write_encoded(mode, target)
}

// How many octets the two numbers of a range have, in their SEQUENCE.
fn range_len(mode: Mode, min: Asn, max: Asn) -> Result<usize, EncodeError>
    ensures len { IfOk result
        (HasLength (WritesAsRange mode (record { first = min.value; last = max.value }))) }
    ensures refused { IfErr result
        (CannotWrite (AreAsRange (record { first = min.value; last = max.value }))
        (WritesAsRange mode (record { first = min.value; last = max.value }))) }
{
    let min = Primitive {
        tag: Tag::INTEGER,
        content: min,
    };
    let max = Primitive {
        tag: Tag::INTEGER,
        content: max,
    };
    let values = Constructed {
        tag: Tag::SEQUENCE,
        inner: (min, max),
    };
    values.encoded_len(mode)
}

// Writes the two numbers of a range, in their SEQUENCE.
fn write_range<W: Write>(mode: Mode, min: Asn, max: Asn, target: &mut W) -> Result<(), EncodeError>
    ensures written { OnOk result
        (Wrote (WritesAsRange mode (record { first = min.value; last = max.value }))
        (W.contents target.old) (W.contents target.new)) }
    ensures refused { IfErr result
        (WriteRefused (AreAsRange (record { first = min.value; last = max.value }))
        (WritesAsRange mode (record { first = min.value; last = max.value }))
        (target.new ≡ target.old) (W.contents target.old) (W.contents target.new)) }
{
    let min = Primitive {
        tag: Tag::INTEGER,
        content: min,
    };
    let max = Primitive {
        tag: Tag::INTEGER,
        content: max,
    };
    let values = Constructed {
        tag: Tag::SEQUENCE,
        inner: (min, max),
    };
    values.write_encoded(mode, target)
}

// How many octets a block has: a number where it has one alone, else a range.
fn block_len(mode: Mode, min: Asn, max: Asn) -> Result<usize, EncodeError>
    ensures len { IfOk result
        (HasLength (WritesAsBlock mode (record { first = min.value; last = max.value }))) }
    ensures refused { IfErr result
        (CannotWrite (AreAsBlock (record { first = min.value; last = max.value }))
        (WritesAsBlock mode (record { first = min.value; last = max.value }))) }
{
    if min.into_u32() == max.into_u32() {
        id_len(mode, min)
    } else {
        range_len(mode, min, max)
    }
}

// Writes a block: a number where it has one alone, else a range.
fn write_block<W: Write>(mode: Mode, min: Asn, max: Asn, target: &mut W) -> Result<(), EncodeError>
    ensures written { OnOk result
        (Wrote (WritesAsBlock mode (record { first = min.value; last = max.value }))
        (W.contents target.old) (W.contents target.new)) }
    ensures refused { IfErr result
        (WriteRefused (AreAsBlock (record { first = min.value; last = max.value }))
        (WritesAsBlock mode (record { first = min.value; last = max.value }))
        (target.new ≡ target.old) (W.contents target.old) (W.contents target.new)) }
{
    if min.into_u32() == max.into_u32() {
        write_id(mode, min, target)
    } else {
        write_range(mode, min, max, target)
    }
}

/// The SEQUENCE of its first number and its last (RFC 3779 section 3.2.3.8).
impl Values for AsRange {
    ghost trees = { λ r m. AreAsRange (range_run r) };

    ghost writes = { λ r m. WritesAsRange m (range_run r) };

    fn encoded_len(&self, mode: Mode) -> Result<usize, EncodeError> {
        range_len(mode, (*self).min(), (*self).max())
    }

    fn write_encoded<W: Write>(&self, mode: Mode, target: &mut W) -> Result<(), EncodeError> {
        write_range(mode, (*self).min(), (*self).max(), target)
    }

    ghost spelled = { λ r m. range_spelled m (range_run r) };

    ghost one_text = { λ r m. range_one m (range_run r) };
}

/// A number where the block has one alone, else a range, whatever it was made of.
impl Values for AsBlock {
    ghost trees = { λ b m. AreAsBlock (as_run b) };

    ghost writes = { λ b m. WritesAsBlock m (as_run b) };

    fn encoded_len(&self, mode: Mode) -> Result<usize, EncodeError> {
        block_len(mode, self.min(), self.max())
    }

    fn write_encoded<W: Write>(&self, mode: Mode, target: &mut W) -> Result<(), EncodeError> {
        write_block(mode, self.min(), self.max(), target)
    }

    ghost spelled = { λ b m. block_spelled m (as_run b) };

    ghost one_text = { λ b m. block_one m (as_run b) };
}
