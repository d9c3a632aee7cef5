//! Strings that are read.

ghost use Rattle.std.specs.Prelude.{◌≡◌, ◌↔◌, IsTrue, IfErr, OnErr, true};
ghost use Rattle.bcder.specs.Texts.{IsText};
ghost use Rattle.bcder.specs.bcder_content.Ahead.{HasOctets};
ghost use Rattle.bcder.specs.bcder_content.Either.{left_of};
ghost use Rattle.bcder.specs.bcder_content.Exact.{ReadsAs, ReadsOptAs};
ghost use Rattle.bcder.specs.bcder_content.Here.{here, plain};
ghost use Rattle.bcder.specs.bcder_content.Memory.{OnMemory};
ghost use Rattle.bcder_octets.specs.bcder_primitive.Plain.{ReadsOctetsAs};
ghost use Rattle.bcder_octets.specs.Parts.{IsWhole};
ghost use Rattle.bcder_octets.specs.Wants.{WantsString};
ghost use Rattle.bcder.specs.bcder_content.Tagged.{ReadsTagged};
ghost use Rattle.bcder.specs.Restricted.{IsRestricted, IsWholeText, WantsText, WantsTextIn};

use crate::string::CharSet;
use crate::string::string::{RestrictedString, octets_of};
use bcder_octets::OctetString;
use bcder_octets::bcder_content::content::Content;
use bcder_octets::bcder_content::whole::{front, refuse, request_all, take_front};
use bcder_octets::bcder_content::{Constructed, Primitive};
use bcder_octets::bcder_source::{ContentError, DecodeError, Source};
use std::alloc::Global;

// Whether octets are a text of the set.
fn is_text<L: CharSet>(octets: &[u8]) -> bool
    ensures { IsTrue result ↔ IsText L.has L.spell octets.now }
{
    match L::check(octets) {
        Ok(()) => true,
        Err(_) => false,
    }
}

// A text in one piece, which is tested where it lies, and then taken.
fn take_whole<L: CharSet, S: Source>(
    alloc: Global,
    prim: &mut Primitive<S>,
) -> Result<OctetString, DecodeError<S::Error>>
    ensures reads { ReadsOctetsAs (λ octets. octets)
        (IsWholeText L.has L.spell (plain S.rest prim.old).mode) (plain S.rest prim.old) result
        (plain S.rest prim.new) }
    ensures memory { IfErr result (λ e. OnMemory e
        (HasOctets (IsWholeText L.has L.spell (plain S.rest prim.old).mode)
        (plain S.rest prim.old))) }
{
    let count = request_all(prim)?;
    let octets = front(prim, count);
    let fits = OctetString::fits_whole(prim.mode, octets);
    let is = is_text::<L>(octets);
    if !fits {
        return Err(refuse(prim, "a long string in one piece"));
    }
    if !is {
        return Err(refuse(prim, "invalid character string"));
    }
    match take_front(alloc, prim, count) {
        Ok(octets) => Ok(OctetString::new(octets)),
        Err(error) => Err(error),
    }
}

// A text by the octets of a content, which are gathered before they are tested.
fn gather_text<L: CharSet, S: Source>(
    alloc: Global,
    content: &mut Content<'_, S>,
) -> Result<OctetString, DecodeError<S::Error>>
    ensures reads { ReadsTagged S.rest (λ octets. octets) (IsRestricted L.has L.spell)
        content.old result content.new }
    ensures memory { IfErr result (λ e. OnMemory e (WantsString IsWhole S.rest content.old)) }
{
    let octets = OctetString::from_content(alloc, content)?;
    match L::check(octets_of(&octets)) {
        Ok(()) => Ok(octets),
        Err(_) => {
            let error = ContentError::from_static("invalid character string");
            Err((*content).content_err(error))
        }
    }
}

// The octets of a content that is a text of the set: only what is in segments is gathered before it is tested.
fn read_text<L: CharSet, S: Source>(
    alloc: Global,
    content: &mut Content<'_, S>,
) -> Result<OctetString, DecodeError<S::Error>>
    ensures reads { ReadsTagged S.rest (λ octets. octets) (IsRestricted L.has L.spell)
        content.old result content.new }
    ensures memory { IfErr result
        (λ e. OnMemory e (WantsTextIn L.has L.spell S.rest content.old)) }
{
    if (*content).is_primitive() {
        return content.primitive(
            |prim|
                ensures reads { ReadsOctetsAs (λ octets. octets)
                    (IsWholeText L.has L.spell (plain S.rest prim.old).mode)
                    (plain S.rest prim.old) result (plain S.rest prim.new) }
                ensures memory { IfErr result (λ e. OnMemory e
                    (HasOctets (IsWholeText L.has L.spell (plain S.rest prim.old).mode)
                    (plain S.rest prim.old))) }
            { take_whole::<L, S>(alloc, prim) },
        );
    }
    gather_text::<L, S>(alloc, content)
}

// The octets of a content that is a text of the set; where it is refused, the content is failed.
fn take_text<L: CharSet, S: Source>(
    alloc: Global,
    content: &mut Content<'_, S>,
) -> Result<OctetString, DecodeError<S::Error>>
    ensures reads { ReadsTagged S.rest (λ octets. octets) (IsRestricted L.has L.spell)
        content.old result content.new }
    ensures failed { OnErr result ((left_of S.rest content.new).failed ≡ true) }
    ensures memory { IfErr result
        (λ e. OnMemory e (WantsTextIn L.has L.spell S.rest content.old)) }
{
    match read_text::<L, S>(alloc, content) {
        Ok(octets) => Ok(octets),
        Err(error) => {
            content.fail();
            Err(error)
        }
    }
}

/// Strings that are read.
impl<L: CharSet> RestrictedString<L> {
    /// The next value, a string with the tag of its kind (X.690 8.23): in BER primitive, or in segments that are
    /// OCTET STRINGs, nested at will; in CER primitive to 1000 octets, else in segments of 1000 (9.2); in DER
    /// primitive (10.2).
    ///
    /// Any other value is refused, and one whose octets are no text of the set. Memory is wanted only where a text in
    /// one piece is next, or within segments, which DER lacks.
    pub fn take_from<S: Source>(
        alloc: Global,
        cons: &mut Constructed<S>,
    ) -> Result<Self, DecodeError<S::Error>>
        ensures reads { ReadsAs (λ octets. octets)
            (IsRestricted L.has L.spell (here S.rest cons.old).mode L.type_tag)
            (here S.rest cons.old) result (here S.rest cons.new) }
        ensures failed { OnErr result ((here S.rest cons.new).failed ≡ true) }
        ensures memory { IfErr result
            (λ e. OnMemory e (WantsText L.has L.spell L.type_tag (here S.rest cons.old))) }
    {
        let tag = L::tag();
        let octets = cons.take_value_if(
            tag,
            |content|
                ensures reads { ReadsTagged S.rest (λ octets. octets) (IsRestricted L.has L.spell)
                    content.old result content.new }
                ensures memory { IfErr result
                    (λ e. OnMemory e (WantsTextIn L.has L.spell S.rest content.old)) }
            { take_text::<L, S>(alloc, content) },
        )?;
        Ok(RestrictedString::of_text(octets))
    }

    /// Reads the next value where it has the kind's tag; else nothing is read. Memory is wanted as by `take_from`.
    pub fn take_opt_from<S: Source>(
        alloc: Global,
        cons: &mut Constructed<S>,
    ) -> Result<Option<Self>, DecodeError<S::Error>>
        ensures reads { ReadsOptAs (λ octets. octets) L.type_tag
            (IsRestricted L.has L.spell (here S.rest cons.old).mode L.type_tag)
            (here S.rest cons.old) result (here S.rest cons.new) }
        ensures failed { OnErr result ((here S.rest cons.new).failed ≡ true) }
        ensures memory { IfErr result
            (λ e. OnMemory e (WantsText L.has L.spell L.type_tag (here S.rest cons.old))) }
    {
        let taken = cons.take_opt_value_if(
            L::tag(),
            |content|
                ensures reads { ReadsTagged S.rest (λ octets. octets) (IsRestricted L.has L.spell)
                    content.old result content.new }
                ensures memory { IfErr result
                    (λ e. OnMemory e (WantsTextIn L.has L.spell S.rest content.old)) }
            { take_text::<L, S>(alloc, content) },
        );
        match taken {
            Ok(Some(octets)) => Ok(Some(RestrictedString::of_text(octets))),
            Ok(None) => Ok(None),
            Err(error) => Err(error),
        }
    }

    /// The string whose content that is, whatever its tag: for implicit tags (8.14). Where it is refused, the content
    /// is failed. Memory is wanted only where it is a text in one piece, or within segments, which DER lacks.
    pub fn from_content<S: Source>(
        alloc: Global,
        content: &mut Content<'_, S>,
    ) -> Result<Self, DecodeError<S::Error>>
        ensures reads { ReadsTagged S.rest (λ octets. octets) (IsRestricted L.has L.spell)
            content.old result content.new }
        ensures failed { OnErr result ((left_of S.rest content.new).failed ≡ true) }
        ensures memory { IfErr result
            (λ e. OnMemory e (WantsTextIn L.has L.spell S.rest content.old)) }
    {
        let octets = take_text::<L, S>(alloc, content)?;
        Ok(RestrictedString::of_text(octets))
    }
}
