//! Strings that are read.

ghost use Rattle.std.specs.Prelude.{◌≡◌, ◌↔◌, IsOk, IfErr, OnErr, true, false};
ghost use Rattle.bcder_octets.specs.bcder_tree.Strings.{AreSegments, IsOctetString, IsString, octet_string_tag};
ghost use Rattle.bcder_octets.specs.bcder_tree.declared.mode.Mode.TheVariants.{Der};
ghost use Rattle.bcder_octets.specs.bcder_content.Captures.{rest_of};
ghost use Rattle.bcder_octets.specs.bcder_content.Either.{left_of};
ghost use Rattle.bcder_octets.specs.bcder_content.Exact.{ReadsAllAs, ReadsAs, ReadsNextAs};
ghost use Rattle.bcder_octets.specs.bcder_content.Grammar.{ExactlyAll, OctetsOf};
ghost use Rattle.bcder_octets.specs.bcder_content.Here.{here, plain};
ghost use Rattle.bcder_octets.specs.bcder_content.Memory.{OnMemory};
ghost use Rattle.bcder_octets.specs.bcder_primitive.Plain.{ReadsOctetsAs};
ghost use Rattle.bcder_octets.specs.bcder_primitive.Values.{AnyOctets};
ghost use Rattle.bcder_values.specs.bcder_content.Ahead.{HasOctets, HasNext};
ghost use Rattle.bcder_octets.specs.Wants.{WantsString, WantsNext};
ghost use Rattle.bcder_octets.specs.bcder_content.Tagged.{ReadsTagged};
ghost use Rattle.bcder_octets.specs.Parts.{IsWhole, AreCut, AreParts, FitsPart, IsPart, AllParts};

use crate::bcder_content::content::Content;
use crate::bcder_content::whole::{front, refuse, request_all, take_front};
use crate::bcder_content::{Captured, Constructed, Primitive};
use crate::bcder_source::{ContentError, DecodeError, Mode, Source, Tag};
use crate::pieces::{join, join_cut};
use crate::string::OctetString;
use bytes::Bytes;
use std::alloc::Global;

// A string in one piece: in CER it has at most 1000 octets (X.690 9.2).
fn take_whole<S: Source>(
    alloc: Global,
    prim: &mut Primitive<S>,
) -> Result<OctetString, DecodeError<S::Error>>
    ensures reads { ReadsOctetsAs (λ octets. octets) (IsWhole (plain S.rest prim.old).mode)
        (plain S.rest prim.old) result (plain S.rest prim.new) }
    ensures memory { IfErr result (λ e. OnMemory e
        (HasOctets (IsWhole (plain S.rest prim.old).mode) (plain S.rest prim.old))) }
{
    let count = request_all(prim)?;
    let fits = OctetString::fits_whole(prim.mode, front(prim, count));
    if !fits {
        return Err(refuse(prim, "a long string in one piece"));
    }
    match take_front(alloc, prim, count) {
        Ok(octets) => Ok(OctetString::new(octets)),
        Err(error) => Err(error),
    }
}

// Goes past the next segment with all that is in it, where one is next: an OCTET STRING in which all values
// are such.
fn skip_nested<S: Source>(
    alloc: Global,
    cons: &mut Constructed<S>,
) -> Result<Option<()>, DecodeError<S::Error>>
    ensures { ReadsNextAs (λ x. x) (IsPart true) (here S.rest cons.old) result
        (here S.rest cons.new) }
{
    cons.skip_opt(
        alloc,
        |tag, constructed, _|
            ensures { IsOk result ↔ FitsPart true tag constructed }
        {
            if tag == Tag::OCTET_STRING {
                Ok(())
            } else {
                Err(ContentError::from_static("no segment of an octet string"))
            }
        },
    )
}

// Skips primitive segments alone.
fn skip_plain<S: Source>(
    alloc: Global,
    cons: &mut Constructed<S>,
) -> Result<Option<()>, DecodeError<S::Error>>
    ensures { ReadsNextAs (λ x. x) (IsPart false) (here S.rest cons.old) result
        (here S.rest cons.new) }
{
    cons.skip_opt(
        alloc,
        |tag, constructed, _|
            ensures { IsOk result ↔ FitsPart false tag constructed }
        {
            if tag == Tag::OCTET_STRING && !constructed {
                Ok(())
            } else {
                Err(ContentError::from_static("no primitive segment of an octet string"))
            }
        },
    )
}

// Goes past the next segment, where one is next.
fn skip_part<S: Source>(
    alloc: Global,
    cons: &mut Constructed<S>,
    nested: bool,
) -> Result<Option<()>, DecodeError<S::Error>>
    ensures { ReadsNextAs (λ x. x) (IsPart nested) (here S.rest cons.old) result
        (here S.rest cons.new) }
{
    match nested {
        true => skip_nested(alloc, cons),
        false => skip_plain(alloc, cons),
    }
}

// Goes past all segments that are left.
fn skip_parts<S: Source>(
    alloc: Global,
    cons: &mut Constructed<S>,
    nested: bool,
) -> Result<(), DecodeError<S::Error>>
    ensures { ReadsAllAs (λ x. x) (AllParts nested) (here S.rest cons.old) result
        (here S.rest cons.new) }
{
    loop {
        match skip_part(alloc, cons, nested) {
            Ok(Some(())) => {}
            Ok(None) => return Ok(()),
            Err(error) => return Err(error),
        }
    }
}

// The octets of all segments.
fn capture_parts<S: Source>(
    alloc: Global,
    cons: &mut Constructed<S>,
    nested: bool,
) -> Result<Captured, DecodeError<S::Error>>
    ensures { ReadsAllAs (λ c. c.octets) (ExactlyAll (here S.rest cons.old).mode (AllParts nested))
        (here S.rest cons.old) result (here S.rest cons.new) }
{
    cons.capture(
        alloc,
        |cons|
            ensures { ReadsAllAs (λ x. x) (AllParts nested) (here rest_of cons.old) result
                (here rest_of cons.new) }
        { skip_parts(alloc, cons, nested) },
    )
}

// A string in segments, nested at will (8.7.3).
fn take_nested<S: Source>(
    alloc: Global,
    cons: &mut Constructed<S>,
) -> Result<OctetString, DecodeError<S::Error>>
    ensures { ReadsAllAs (λ octets. octets) AreSegments (here S.rest cons.old) result
        (here S.rest cons.new) }
{
    let captured = capture_parts(alloc, cons, true)?;
    let octets = join(alloc, captured.as_slice())?;
    let octets = Bytes::from_vec(octets)?;
    Ok(OctetString::new(octets))
}

// A string of more than 1000 octets in segments of 1000, and a last one of 1 to 1000 (9.2).
fn take_cut<S: Source>(
    alloc: Global,
    cons: &mut Constructed<S>,
) -> Result<OctetString, DecodeError<S::Error>>
    ensures { ReadsAllAs (λ octets. octets) AreCut (here S.rest cons.old) result
        (here S.rest cons.new) }
{
    let captured = capture_parts(alloc, cons, false)?;
    let Some(octets) = join_cut(alloc, captured.as_slice())? else {
        return Err((*cons).content_err(ContentError::from_static("segments of other lengths")));
    };
    let octets = Bytes::from_vec(octets)?;
    Ok(OctetString::new(octets))
}

// A string in segments, as the mode has it.
fn take_parts<S: Source>(
    alloc: Global,
    cons: &mut Constructed<S>,
) -> Result<OctetString, DecodeError<S::Error>>
    ensures reads { ReadsAllAs (λ octets. octets) (AreParts (here S.rest cons.old).mode)
        (here S.rest cons.old) result (here S.rest cons.new) }
    ensures memory { IfErr result (λ e. OnMemory e ((here S.rest cons.old).mode ≡ Der → ⊥)) }
{
    match (*cons).mode() {
        Mode::Ber => take_nested(alloc, cons),
        Mode::Cer => take_cut(alloc, cons),
        Mode::Der => Err((*cons).content_err(ContentError::from_static("a string in segments"))),
    }
}

// The content of a string, of either form.
fn read_content<S: Source>(
    alloc: Global,
    content: &mut Content<'_, S>,
) -> Result<OctetString, DecodeError<S::Error>>
    ensures reads { ReadsTagged S.rest (λ octets. octets) IsString
        content.old result content.new }
    ensures memory { IfErr result (λ e. OnMemory e (WantsString IsWhole S.rest content.old)) }
{
    if (*content).is_primitive() {
        return content.primitive(
            |prim|
                ensures reads { ReadsOctetsAs (λ octets. octets)
                    (IsWhole (plain S.rest prim.old).mode) (plain S.rest prim.old) result
                    (plain S.rest prim.new) }
                ensures memory { IfErr result (λ e. OnMemory e
                    (HasOctets (IsWhole (plain S.rest prim.old).mode) (plain S.rest prim.old))) }
            { take_whole(alloc, prim) },
        );
    }
    content.constructed(
        |cons|
            ensures reads { ReadsAllAs (λ octets. octets) (AreParts (here S.rest cons.old).mode)
                (here S.rest cons.old) result (here S.rest cons.new) }
            ensures memory { IfErr result
                (λ e. OnMemory e ((here S.rest cons.old).mode ≡ Der → ⊥)) }
        { take_parts(alloc, cons) },
    )
}

// Takes a string from a content; where it is refused, the content is failed.
pub(crate) fn take_content<S: Source>(
    alloc: Global,
    content: &mut Content<'_, S>,
) -> Result<OctetString, DecodeError<S::Error>>
    ensures reads { ReadsTagged S.rest (λ octets. octets) IsString
        content.old result content.new }
    ensures failed { OnErr result ((left_of S.rest content.new).failed ≡ true) }
    ensures memory { IfErr result (λ e. OnMemory e (WantsString IsWhole S.rest content.old)) }
{
    match read_content(alloc, content) {
        Ok(octets) => Ok(octets),
        Err(error) => {
            content.fail();
            Err(error)
        }
    }
}

// The next value, a string as the mode has it.
pub(crate) fn take_string<S: Source>(
    alloc: Global,
    cons: &mut Constructed<S>,
) -> Result<OctetString, DecodeError<S::Error>>
    ensures reads { ReadsAs (λ octets. octets) (IsOctetString (here S.rest cons.old).mode)
        (here S.rest cons.old) result (here S.rest cons.new) }
    ensures failed { OnErr result ((here S.rest cons.new).failed ≡ true) }
    ensures memory { IfErr result
        (λ e. OnMemory e (WantsNext IsWhole octet_string_tag (here S.rest cons.old))) }
{
    cons.take_value_if(
        Tag::OCTET_STRING,
        |content|
            ensures reads { ReadsTagged S.rest (λ octets. octets) IsString
                content.old result content.new }
            ensures memory { IfErr result
                (λ e. OnMemory e (WantsString IsWhole S.rest content.old)) }
        { take_content(alloc, content) },
    )
}

// All octets of a content.
#[inline(always)]
fn take_all<S: Source>(
    alloc: Global,
    prim: &mut Primitive<S>,
) -> Result<Bytes, DecodeError<S::Error>>
    ensures reads { ReadsOctetsAs (λ octets. octets) AnyOctets (plain S.rest prim.old) result
        (plain S.rest prim.new) }
    ensures memory { IfErr result (λ e. OnMemory e (HasOctets AnyOctets (plain S.rest prim.old))) }
{
    let count = request_all(prim)?;
    // They are as many as were asked for.
    front(prim, count);
    match take_front(alloc, prim, count) {
        Ok(octets) => Ok(octets),
        Err(error) => Err(error),
    }
}

// The octets of the next value, a string in one piece.
fn take_octets<S: Source>(
    alloc: Global,
    cons: &mut Constructed<S>,
) -> Result<Bytes, DecodeError<S::Error>>
    ensures reads { ReadsAs (λ octets. octets) (OctetsOf octet_string_tag AnyOctets)
        (here S.rest cons.old) result (here S.rest cons.new) }
    ensures failed { OnErr result ((here S.rest cons.new).failed ≡ true) }
    ensures memory { IfErr result
        (λ e. OnMemory e (HasNext (OctetsOf octet_string_tag AnyOctets) (here S.rest cons.old))) }
{
    cons.take_primitive_if(
        Tag::OCTET_STRING,
        |prim|
            ensures reads { ReadsOctetsAs (λ octets. octets) AnyOctets (plain S.rest prim.old)
                result (plain S.rest prim.new) }
            ensures memory { IfErr result
                (λ e. OnMemory e (HasOctets AnyOctets (plain S.rest prim.old))) }
        { take_all(alloc, prim) },
    )
}

// The next value, a string in one piece, as DER has it (X.690 10.2). It is the same as `take_string`, in fewer steps.
#[inline(always)]
pub(crate) fn take_piece<S: Source>(
    alloc: Global,
    cons: &mut Constructed<S>,
) -> Result<OctetString, DecodeError<S::Error>>
    ensures reads { ReadsAs (λ octets. octets) (IsOctetString Der) (here S.rest cons.old) result
        (here S.rest cons.new) }
    ensures failed { OnErr result ((here S.rest cons.new).failed ≡ true) }
    ensures memory { IfErr result
        (λ e. OnMemory e (HasNext (IsOctetString Der) (here S.rest cons.old))) }
{
    match take_octets(alloc, cons) {
        Ok(octets) => Ok(OctetString::new(octets)),
        Err(error) => Err(error),
    }
}
