//! INTEGERs of any size, as they are written.

ghost use Rattle.std.proofs.Common.{rules};
ghost use Rattle.std.specs.Prelude.{pos};
ghost use Rattle.bcder_number.specs.bcder_tree.Tags.{integer_tag};
ghost use Rattle.bcder_number.specs.Integers.{IsInteger, IsNatural};
ghost use Rattle.bcder_number.specs.Contents.{one_integer};

use crate::bcder_tree::{Mode, Tag};
use crate::integer::Integer;
use crate::unsigned::Unsigned;
use bcder_values::{EncodeError, Octets, PrimitiveContent};
use std::io::Write;

/// The number's only content octets, in every mode. `TooLong` where they are more than 2^32 - 1.
impl PrimitiveContent for Integer {
    ghost type_tag = { integer_tag };

    ghost content = { λ x m content. IsInteger content x };

    fn tag() -> Tag {
        Tag::INTEGER
    }

    fn encoded_len(&self, mode: Mode) -> Result<usize, EncodeError> {
        let octets = Octets(self.as_slice());
        octets.encoded_len(mode)
    }

    fn write_encoded<W: Write>(&self, mode: Mode, target: &mut W) -> Result<(), EncodeError> {
        let octets = Octets(self.as_slice());
        octets.write_encoded(mode, target)
    }

    ghost is_tag = { Prim.search rules };

    ghost one_content = { λ x m. one_integer x };
}

/// The number's only content octets, in every mode. `TooLong` where they are more than 2^32 - 1.
impl PrimitiveContent for Unsigned {
    ghost type_tag = { integer_tag };

    ghost content = { λ n m content. IsNatural content n };

    fn tag() -> Tag {
        Tag::INTEGER
    }

    fn encoded_len(&self, mode: Mode) -> Result<usize, EncodeError> {
        let integer = self.as_integer();
        integer.encoded_len(mode)
    }

    fn write_encoded<W: Write>(&self, mode: Mode, target: &mut W) -> Result<(), EncodeError> {
        let integer = self.as_integer();
        integer.write_encoded(mode, target)
    }

    ghost is_tag = { Prim.search rules };

    ghost one_content = { λ n m. one_integer (pos n) };
}
