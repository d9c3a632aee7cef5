//! `OctetString`.

ghost use Rattle.std.specs.Prelude.{◌≡◌, ◌↔◌, [], length, IsTrue, IfOk, IfErr, IsSomeAnd, OnErr, true};
ghost use Rattle.bcder_octets.specs.bcder_tree.Strings.{octet_string_tag, IsOctetString, IsString};
ghost use Rattle.bcder_octets.specs.bcder_content.Either.{left_of};
ghost use Rattle.bcder_octets.specs.bcder_content.Exact.{ReadsAs, ReadsOptAs};
ghost use Rattle.bcder_octets.specs.bcder_content.Here.{here};
ghost use Rattle.bcder_octets.specs.bcder_content.Memory.{OnMemory};
ghost use Rattle.bcder_octets.specs.bcder_tree.declared.mode.Mode.TheVariants.{Der};
ghost use Rattle.bcder_values.specs.bcder_content.Ahead.{HasNext};
ghost use Rattle.bcder_octets.specs.Wants.{WantsString, WantsNext};
ghost use Rattle.bcder_octets.specs.bcder_content.Tagged.{ReadsTagged};
ghost use Rattle.bcder_octets.specs.Parts.{FitsWhole, IsWhole};

use crate::bcder_content::Constructed;
use crate::bcder_content::content::Content;
use crate::bcder_source::{DecodeError, Mode, Source, Tag};
use crate::pieces::SEGMENT;
use crate::reading::{take_content, take_piece, take_string};
use bytes::Bytes;
use std::alloc::{AllocError, Global};
use std::marker::Model;

/// An OCTET STRING (X.690 8.7), by its octets alone, whatever its segments were. Contracts see the octets.
///
/// Equality, order and hash are those of the octets.
#[derive(Clone, Debug, Default, Drop, PartialEq, Eq, PartialOrd, Ord, Hash)]
pub struct OctetString {
    octets: Bytes,
}

impl Model for OctetString {
    ghost use Rattle.std.specs.Prelude.{ℕ, List};

    ghost Value = { List ℕ };

    ghost view = { λ a. a.octets };

    ghost inverse = { λ octets. record { octets = octets } };
}

impl OctetString {
    /// The string of these octets, which are shared.
    pub fn new(octets: Bytes) -> OctetString
        ensures { result ≡ octets }
    {
        OctetString { octets }
    }

    // The octets.
    pub(crate) fn as_octets(&self) -> &[u8]
        ensures { result.now ≡ self.now }
    {
        self.octets.as_slice()
    }

    /// How many octets the string has.
    pub fn len(&self) -> usize
        ensures { result ≡ length self.now }
    {
        self.octets.len()
    }

    /// Whether the string has no octet.
    pub fn is_empty(&self) -> bool
        ensures { IsTrue result ↔ (self.now ≡ []) }
    {
        self.octets.len() == 0
    }

    /// The octets, where they lie in one piece; they always do.
    pub fn as_slice(&self) -> Option<&[u8]>
        ensures { IsSomeAnd result (λ octets. octets.now ≡ self.now) }
    {
        Some(self.as_octets())
    }

    /// Whether the string has just these octets.
    pub fn is_slice(&self, octets: &[u8]) -> bool
        ensures { IsTrue result ↔ (self.now ≡ octets.now) }
    {
        self.octets.as_slice() == octets
    }

    /// Whether a string of these octets may stand in one piece: in CER with at most 1000 (X.690 9.2).
    pub fn fits_whole(mode: Mode, octets: &[u8]) -> bool
        ensures { IsTrue result ↔ FitsWhole mode octets.now }
    {
        match mode {
            Mode::Ber | Mode::Der => true,
            Mode::Cer => octets.len() <= SEGMENT,
        }
    }

    /// The octets, shared where they lie in one piece.
    pub fn to_bytes(&self, _alloc: Global) -> Result<Bytes, AllocError>
        ensures { IfOk result (λ octets. octets ≡ self.now) }
    {
        self.octets.clone()
    }

    /// The octets, which aren't copied.
    pub fn into_bytes(self) -> Bytes
        ensures { result ≡ self }
    {
        self.octets
    }
}

/// Strings that are read.
impl OctetString {
    /// The next value, an OCTET STRING (X.690 8.7): in BER primitive, or in segments, nested at will; in CER
    /// primitive to 1000 octets, else in segments of 1000 (9.2); in DER primitive (10.2).
    ///
    /// Any other value is refused. Memory is wanted only where a string in one piece is next, or within segments; in DER
    /// only where an OCTET STRING is next.
    pub fn take_from<S: Source>(
        alloc: Global,
        cons: &mut Constructed<S>,
    ) -> Result<OctetString, DecodeError<S::Error>>
        ensures reads { ReadsAs (λ octets. octets) (IsOctetString (here S.rest cons.old).mode)
            (here S.rest cons.old) result (here S.rest cons.new) }
        ensures failed { OnErr result ((here S.rest cons.new).failed ≡ true) }
        ensures memory { IfErr result
            (λ e. OnMemory e (WantsNext IsWhole octet_string_tag (here S.rest cons.old))) }
        ensures memory_in_der { IfErr result (λ e. OnMemory e
            ((here S.rest cons.old).mode ≡ Der
            → HasNext (IsOctetString Der) (here S.rest cons.old))) }
    {
        match cons.mode() {
            Mode::Der => take_piece(alloc, cons),
            Mode::Ber | Mode::Cer => take_string(alloc, cons),
        }
    }

    /// Reads the next value where it is an OCTET STRING by its tag; else nothing is read. Memory is wanted as by
    /// `take_from`.
    pub fn take_opt_from<S: Source>(
        alloc: Global,
        cons: &mut Constructed<S>,
    ) -> Result<Option<OctetString>, DecodeError<S::Error>>
        ensures reads { ReadsOptAs (λ octets. octets) octet_string_tag
            (IsOctetString (here S.rest cons.old).mode) (here S.rest cons.old) result
            (here S.rest cons.new) }
        ensures failed { OnErr result ((here S.rest cons.new).failed ≡ true) }
        ensures memory { IfErr result
            (λ e. OnMemory e (WantsNext IsWhole octet_string_tag (here S.rest cons.old))) }
    {
        cons.take_opt_value_if(
            Tag::OCTET_STRING,
            |content|
                ensures reads { ReadsTagged S.rest (λ octets. octets) IsString
                    content.old result content.new }
                ensures memory { IfErr result
                    (λ e. OnMemory e (WantsString IsWhole S.rest content.old)) }
            { take_content(alloc, content) },
        )
    }

    /// The string whose content that is, whatever its tag: for implicit tags (8.14). Where it is refused, the content
    /// is failed. Memory is wanted only where it is a string in one piece, or within segments, which DER lacks.
    pub fn from_content<S: Source>(
        alloc: Global,
        content: &mut Content<'_, S>,
    ) -> Result<OctetString, DecodeError<S::Error>>
        ensures reads { ReadsTagged S.rest (λ octets. octets) IsString
            content.old result content.new }
        ensures failed { OnErr result ((left_of S.rest content.new).failed ≡ true) }
        ensures memory { IfErr result (λ e. OnMemory e (WantsString IsWhole S.rest content.old)) }
    {
        take_content(alloc, content)
    }
}
