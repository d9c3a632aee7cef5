//! What stands in front of contents.

ghost use Rattle.std.specs.Prelude.{◌≡◌, ◌+◌, ◌^◌, ◌<◌, ◌≤◌, Bool, List, ℕ, length, IfOk, IfErr, OnOk};
ghost use Rattle.bcder_primitive.specs.bcder_tree.Lengths.{SpellsEverywhere};
ghost use Rattle.bcder_primitive.specs.bcder_tree.Octets.{IsIdentifier};
ghost use Rattle.bcder_primitive.specs.bcder_tree.Tags.{IsTag};
ghost use Rattle.bcder_primitive.specs.Headers.{IsHeaderIn, HeaderRefused};
ghost use Rattle.bcder_primitive.specs.Writing.{HasLength, Wrote, TookFront};
ghost use Rattle.bcder_primitive.specs.declared.written.error.EncodeError.TheVariants.{TooLong as too_long, Write as refusal};

use crate::bcder_tree::{Length, Tag};
use crate::written::EncodeError;
use crate::written::write::write_octets;
use std::io::Write;

/// The most octets of a content that four length octets can tell (X.690 8.1.3.5).
pub const MAX_LEN: usize = 0xFFFF_FFFF;

/// How many octets the header of a content of less than 2^32 octets has.
pub fn header_len(tag: Tag, constructed: bool, content_len: usize) -> usize
    requires tag { IsTag tag }
    requires few { content_len < 2 ^ 32 }
    ensures len { HasLength (IsHeaderIn constructed tag content_len) result }
    ensures bound { result ≤ 9 }
{
    let (_, identifier) = tag.encoded(constructed);
    let (_, size) = Length::encoded(content_len);
    identifier + size
}

/// How many octets a value in definite form has whose content has so many.
///
/// `TooLong` where these are more than 2^32 - 1.
pub fn total_encoded_len(tag: Tag, content_len: usize) -> Result<usize, EncodeError>
    ensures len { IfOk result (λ n. (form : Bool) (identifier size : List ℕ)
        → IsIdentifier identifier form tag → SpellsEverywhere (Length.Definite content_len) size
        → n ≡ length identifier + length size + content_len) }
    ensures few { IfOk result (λ n. content_len < 2 ^ 32) }
    ensures refused { IfErr result (λ e. (e ≡ too_long) × (2 ^ 32 ≤ content_len)) }
{
    if content_len > MAX_LEN {
        return Err(EncodeError::TooLong);
    }
    let identifier = tag.encoded_len();
    let size = Length::Definite(content_len).encoded_len();
    Ok(identifier + size + content_len)
}

/// Writes the header of a content of less than 2^32 octets.
pub fn put_header<W: Write>(
    target: &mut W,
    tag: Tag,
    constructed: bool,
    content_len: usize,
) -> Result<(), EncodeError>
    requires tag { IsTag tag }
    requires few { content_len < 2 ^ 32 }
    ensures written { OnOk result
        (Wrote (IsHeaderIn constructed tag content_len) (W.contents target.old)
        (W.contents target.new)) }
    ensures refused { IfErr result (λ e. (e ≡ refusal)
        × TookFront (IsHeaderIn constructed tag content_len) (W.contents target.old)
        (W.contents target.new)) }
{
    let (identifier, long) = tag.encoded(constructed);
    let (size, wide) = Length::encoded(content_len);
    if long == 1 && wide == 1 {
        return write_octets(target, &[identifier[0], size[0]]);
    }
    write_octets(target, &identifier[..long])?;
    write_octets(target, &size[..wide])
}

/// Writes the identifier octets and the length octets of a value in definite form (X.690 8.1.2, 8.1.3), the
/// length in the fewest octets.
///
/// `TooLong` where the content has more than 2^32 - 1 octets; then nothing is written.
pub fn write_header<W: Write>(
    target: &mut W,
    tag: Tag,
    constructed: bool,
    content_len: usize,
) -> Result<(), EncodeError>
    requires { IsTag tag }
    ensures written { OnOk result
        (Wrote (IsHeaderIn constructed tag content_len) (W.contents target.old)
        (W.contents target.new)) }
    ensures refused { IfErr result
        (HeaderRefused constructed tag content_len (target.new ≡ target.old) (W.contents target.old)
        (W.contents target.new)) }
{
    if content_len > MAX_LEN {
        return Err(EncodeError::TooLong);
    }
    put_header(target, tag, constructed, content_len)
}
