//! Object identifiers that are written.

ghost use Rattle.std.proofs.Common.{rules};
ghost use Rattle.bcder.specs.bcder_tree.Tags.{oid_tag};
ghost use Rattle.bcder.specs.bcder_primitive.Values.{AnyOctets};
ghost use Rattle.bcder.specs.bcder_primitive.Simple.{one_string};

use crate::oid::oid::Oid;
use bcder_octets::bcder_tree::{Mode, Tag};
use bcder_octets::{EncodeError, Octets, PrimitiveContent};
use std::convert::AsSlice;
use std::io::Write;

/// An OBJECT IDENTIFIER (X.690 8.19), by its octets as they are.
///
/// `TooLong` where the octets are more than 2^32 - 1.
impl<T: AsSlice<u8>> PrimitiveContent for Oid<T> {
    ghost type_tag = { oid_tag };

    ghost content = { λ x m content. AnyOctets content (T.items x.0) };

    fn tag() -> Tag {
        Tag::OID
    }

    fn encoded_len(&self, mode: Mode) -> Result<usize, EncodeError> {
        Octets(self.as_slice()).encoded_len(mode)
    }

    fn write_encoded<W: Write>(&self, mode: Mode, target: &mut W) -> Result<(), EncodeError> {
        Octets(self.as_slice()).write_encoded(mode, target)
    }

    ghost is_tag = { Prim.search rules };

    ghost one_content = { λ x m. one_string (T.items x.0) };
}
