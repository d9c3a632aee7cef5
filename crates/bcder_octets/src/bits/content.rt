//! Bit strings taken from contents of values.
ghost use Rattle.std.specs.Prelude.{◌≡◌, ◌≢◌, true, IfErr, OnErr};
ghost use Rattle.bcder_octets.specs.bcder_source.declared.error.DecodeError.TheVariants.{Memory};
ghost use Rattle.bcder_octets.specs.bcder_content.Either.{left_of};
ghost use Rattle.bcder_octets.specs.bcder_content.Exact.{ReadsAs};
ghost use Rattle.bcder_octets.specs.bcder_content.Grammar.{OctetsOf};
ghost use Rattle.bcder_octets.specs.bcder_content.Here.{here};
ghost use Rattle.bcder_octets.specs.bcder_content.Memory.{OnMemory};
ghost use Rattle.bcder_octets.specs.bcder_content.Tagged.{ReadsTagged};
ghost use Rattle.bcder_values.specs.bcder_content.Ahead.{HasNext, HasPrimitive};
ghost use Rattle.bcder_octets.specs.BitContents.{IsAnyBits, IsBitString, bit_string_tag};

use crate::bcder_content::{Constructed, Content};
use crate::bcder_source::{DecodeError, Source, Tag};
use crate::bits::BitString;
use crate::bits::reading::{skip_bits, take_bits};
use std::alloc::Global;

impl BitString {
    /// The next value, a BIT STRING (X.690 8.6, 9.2, 11.2); any other is refused, and so is a constructed
    /// one. Where the source shares its octets none is copied. Memory is wanted only where a BIT STRING is next.
    pub fn take_from<S: Source>(
        alloc: Global,
        cons: &mut Constructed<S>,
    ) -> Result<BitString, DecodeError<S::Error>>
        ensures reads { ReadsAs (λ v. v)
            (OctetsOf bit_string_tag (IsBitString (here S.rest cons.old).mode))
            (here S.rest cons.old) result (here S.rest cons.new) }
        ensures failed { OnErr result ((here S.rest cons.new).failed ≡ true) }
        ensures memory { IfErr result (λ e. OnMemory e
            (HasNext (OctetsOf bit_string_tag (IsBitString (here S.rest cons.old).mode))
            (here S.rest cons.old))) }
    {
        cons.take_primitive_if(Tag::BIT_STRING, |prim| take_bits(alloc, prim))
    }

    /// Goes past the next value, a BIT STRING; what `take_from` refuses is refused. It takes no memory.
    pub fn skip_in<S: Source>(cons: &mut Constructed<S>) -> Result<(), DecodeError<S::Error>>
        ensures reads { ReadsAs (λ x. x)
            (OctetsOf bit_string_tag (IsAnyBits (here S.rest cons.old).mode)) (here S.rest cons.old)
            result (here S.rest cons.new) }
        ensures failed { OnErr result ((here S.rest cons.new).failed ≡ true) }
        ensures no_memory { IfErr result (λ e. e ≢ Memory) }
    {
        cons.take_primitive_if(Tag::BIT_STRING, |prim| skip_bits(prim))
    }

    /// The bit string of a value's content, whatever the value's tag; a constructed content is refused. Where it is
    /// refused, the content is failed. Memory is wanted only where it is one.
    pub fn from_content<S: Source>(
        alloc: Global,
        content: &mut Content<'_, S>,
    ) -> Result<BitString, DecodeError<S::Error>>
        ensures reads { ReadsTagged S.rest (λ v. v) (λ m tag. OctetsOf tag (IsBitString m))
            content.old result content.new }
        ensures failed { OnErr result ((left_of S.rest content.new).failed ≡ true) }
        ensures memory { IfErr result (λ e. OnMemory e
            (HasPrimitive S.rest (IsBitString (left_of S.rest content.old).mode) content.old)) }
    {
        content.primitive(|prim| take_bits(alloc, prim))
    }
}
