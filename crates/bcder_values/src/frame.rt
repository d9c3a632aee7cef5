//! What stands around the contents of constructed values.

ghost use Rattle.std.specs.Prelude.{◌≡◌, ◌^◌, ◌<◌, ◌≤◌, IfErr, OnOk};
ghost use Rattle.bcder_values.specs.bcder_tree.Tags.{IsTag};
ghost use Rattle.bcder_values.specs.Frames.{IsOpen, IsOpening, IsClosing};
ghost use Rattle.bcder_values.specs.bcder_primitive.Writing.{HasLength, Wrote, TookFront};
ghost use Rattle.bcder_values.specs.bcder_primitive.declared.written.error.EncodeError.TheVariants.{Write as refusal};

use crate::bcder_tree::{Mode, Tag};
use bcder_content::bcder_primitive::written::header::{header_len, put_header};
use bcder_content::bcder_primitive::written::{EncodeError, write_octets};
use std::io::Write;

// How many octets open a value of indefinite length.
fn open_len(tag: Tag) -> usize
    requires { IsTag tag }
    ensures len { HasLength (IsOpen tag) result }
    ensures bound { result ≤ 9 }
{
    let (_, count) = tag.encoded(true);
    count + 1
}

// Opens a value of indefinite length.
fn put_open<W: Write>(target: &mut W, tag: Tag) -> Result<(), EncodeError>
    requires { IsTag tag }
    ensures written { OnOk result
        (Wrote (IsOpen tag) (W.contents target.old) (W.contents target.new)) }
    ensures refused { IfErr result (λ e. (e ≡ refusal)
        × TookFront (IsOpen tag) (W.contents target.old) (W.contents target.new)) }
{
    let (octets, count) = tag.encoded(true);
    write_octets(target, &octets[..count])?;
    write_octets(target, &[128])
}

// How many octets stand in front of a content.
pub(crate) fn opening_len(mode: Mode, tag: Tag, content_len: usize) -> usize
    requires tag { IsTag tag }
    requires few { content_len < 2 ^ 32 }
    ensures len { HasLength (IsOpening mode tag content_len) result }
    ensures bound { result ≤ 9 }
{
    match mode {
        Mode::Ber => header_len(tag, true, content_len),
        Mode::Cer => open_len(tag),
        Mode::Der => header_len(tag, true, content_len),
    }
}

// Writes what stands in front of a content.
pub(crate) fn put_opening<W: Write>(
    target: &mut W,
    mode: Mode,
    tag: Tag,
    content_len: usize,
) -> Result<(), EncodeError>
    requires tag { IsTag tag }
    requires few { content_len < 2 ^ 32 }
    ensures written { OnOk result
        (Wrote (IsOpening mode tag content_len) (W.contents target.old) (W.contents target.new)) }
    ensures refused { IfErr result (λ e. (e ≡ refusal)
        × TookFront (IsOpening mode tag content_len) (W.contents target.old)
        (W.contents target.new)) }
{
    match mode {
        Mode::Ber => put_header(target, tag, true, content_len),
        Mode::Cer => put_open(target, tag),
        Mode::Der => put_header(target, tag, true, content_len),
    }
}

// How many octets come after a content.
pub(crate) fn closing_len(mode: Mode) -> usize
    ensures len { HasLength (IsClosing mode) result }
    ensures bound { result ≤ 2 }
{
    match mode {
        Mode::Ber => 0,
        Mode::Cer => 2,
        Mode::Der => 0,
    }
}

// Writes what comes after a content.
pub(crate) fn put_closing<W: Write>(target: &mut W, mode: Mode) -> Result<(), EncodeError>
    ensures written { OnOk result
        (Wrote (IsClosing mode) (W.contents target.old) (W.contents target.new)) }
    ensures refused { IfErr result (λ e. (e ≡ refusal)
        × TookFront (IsClosing mode) (W.contents target.old) (W.contents target.new)) }
{
    match mode {
        Mode::Ber => write_octets(target, &[]),
        Mode::Cer => write_octets(target, &[0, 0]),
        Mode::Der => write_octets(target, &[]),
    }
}
