//! AS numbers that are read and written (RFC 3779 section 3.2.3.10).

ghost use Rattle.std.proofs.Common.{rules};
ghost use Rattle.std.specs.Prelude.{◌≡◌, ◌≢◌, ◌^◌, true, IfErr, OnErr};
ghost use Rattle.resources_asn.specs.bcder_tree.Tags.{integer_tag};
ghost use Rattle.resources_asn.specs.bcder_source.declared.error.DecodeError.TheVariants.{Memory};
ghost use Rattle.resources_asn.specs.bcder_content.Exact.{ReadsAs, ReadsOptAs};
ghost use Rattle.resources_asn.specs.bcder_content.Here.{here};
ghost use Rattle.resources_asn.specs.bcder_primitive.Integers.{WritesUnsigned, one_unsigned};
ghost use Rattle.resources_asn.specs.Encodings.{IsAsId, IsAnyAsId};

use crate::asn::Asn;
use crate::codec::decode::{Constructed, DecodeError, Source};
use crate::codec::encode::{EncodeError, PrimitiveContent};
use crate::codec::{Mode, Tag};
use std::io::Write;

/// Reading. A number over 32 bits is refused.
impl Asn {
    /// The AS number of an INTEGER (RFC 3779 section 3.2.3.10).
    pub fn take_from<S: Source>(cons: &mut Constructed<S>) -> Result<Self, DecodeError<S::Error>>
        ensures reads { ReadsAs (λ a. a.value) IsAsId (here S.rest cons.old) result
            (here S.rest cons.new) }
        ensures failed { OnErr result ((here S.rest cons.new).failed ≡ true) }
        ensures no_memory { IfErr result (λ e. e ≢ Memory) }
    {
        let number = cons.take_u32()?;
        Ok(Asn::from_u32(number))
    }

    /// The AS number of an INTEGER, if one is next (RFC 3779 section 3.2.3.10).
    pub fn take_opt_from<S: Source>(
        cons: &mut Constructed<S>,
    ) -> Result<Option<Self>, DecodeError<S::Error>>
        ensures reads { ReadsOptAs (λ a. a.value) integer_tag IsAsId (here S.rest cons.old) result
            (here S.rest cons.new) }
        ensures failed { OnErr result ((here S.rest cons.new).failed ≡ true) }
        ensures no_memory { IfErr result (λ e. e ≢ Memory) }
    {
        match cons.take_opt_u32()? {
            Some(number) => Ok(Some(Asn::from_u32(number))),
            None => Ok(None),
        }
    }

    /// Skips the INTEGER of an AS number (RFC 3779 section 3.2.3.10).
    pub fn skip_in<S: Source>(cons: &mut Constructed<S>) -> Result<(), DecodeError<S::Error>>
        ensures reads { ReadsAs (λ x. x) IsAnyAsId (here S.rest cons.old) result
            (here S.rest cons.new) }
        ensures failed { OnErr result ((here S.rest cons.new).failed ≡ true) }
        ensures no_memory { IfErr result (λ e. e ≢ Memory) }
    {
        let _number = cons.take_u32()?;
        Ok(())
    }
}

/// An INTEGER (X.690 8.3), in the fewest octets.
impl PrimitiveContent for Asn {
    ghost type_tag = { integer_tag };

    ghost content = { λ x m. WritesUnsigned (2 ^ 32) x.value };

    fn tag() -> Tag {
        Tag::INTEGER
    }

    fn encoded_len(&self, mode: Mode) -> Result<usize, EncodeError> {
        self.into_u32().encoded_len(mode)
    }

    fn write_encoded<W: Write>(&self, mode: Mode, target: &mut W) -> Result<(), EncodeError> {
        self.into_u32().write_encoded(mode, target)
    }

    ghost is_tag = { Prim.search rules };

    ghost one_content = { λ x m. one_unsigned x.value };
}
