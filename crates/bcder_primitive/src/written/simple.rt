//! BOOLEANs, NULL and octets, as the content of primitive values.

ghost use Rattle.std.proofs.Common.{rules};
ghost use Rattle.std.specs.Prelude.{◌≡◌, ◌<◌, ◌≤◌, false, IsTrue};
ghost use Rattle.bcder_primitive.specs.bcder_tree.declared.mode.Mode.TheVariants.{Der};
ghost use Rattle.bcder_primitive.specs.bcder_tree.Tags.{boolean_tag, null_tag, octet_string_tag};
ghost use Rattle.bcder_primitive.specs.Values.{IsBoolean, IsNull, AnyOctets};
ghost use Rattle.bcder_primitive.specs.Simple.{IsOnePiece, one_boolean, one_null, one_piece, one_string};

use crate::bcder_tree::{Mode, Tag};
use crate::written::header::MAX_LEN;
use crate::written::write::write_octets;
use crate::written::{EncodeError, PrimitiveContent};
use std::convert::AsSlice;
use std::io::Write;

/// A BOOLEAN (X.690 8.2): `FF` for true in every mode (11.1).
impl PrimitiveContent for bool {
    ghost type_tag = { boolean_tag };

    ghost content = { λ x m content. IsBoolean Der content x };

    fn tag() -> Tag {
        Tag::BOOLEAN
    }

    fn encoded_len(&self, _mode: Mode) -> Result<usize, EncodeError> {
        Ok(1)
    }

    fn write_encoded<W: Write>(&self, _mode: Mode, target: &mut W) -> Result<(), EncodeError> {
        if *self {
            return write_octets(target, &[255]);
        }
        write_octets(target, &[0])
    }

    ghost is_tag = { Prim.search rules };

    ghost one_content = { λ x m. one_boolean x };
}

/// NULL (X.690 8.8), which has no content octets.
impl PrimitiveContent for () {
    ghost type_tag = { null_tag };

    ghost content = { λ x m content. IsNull content x };

    fn tag() -> Tag {
        Tag::NULL
    }

    fn encoded_len(&self, _mode: Mode) -> Result<usize, EncodeError> {
        Ok(0)
    }

    fn write_encoded<W: Write>(&self, _mode: Mode, target: &mut W) -> Result<(), EncodeError> {
        write_octets(target, &[])
    }

    ghost is_tag = { Prim.search rules };

    ghost one_content = { λ x m. one_null x };
}

// The most octets of a string that CER has in one piece (X.690 9.2).
const MAX_PIECE: usize = 1000;

// Whether so many octets have no primitive form as a string in CER (X.690 9.2).
fn is_cut(mode: Mode, len: usize) -> bool
    ensures long { IsTrue result → (mode ≡ Mode.Cer) × (1000 < len) }
    ensures short { result ≡ false → mode ≡ Mode.Cer → len ≤ 1000 }
{
    mode.is_cer() && len > MAX_PIECE
}

/// The octets of an OCTET STRING (X.690 8.7), in one piece.
///
/// `CerUnsupported` where they are more than 1000 in CER, which has them in segments (9.2); `TooLong` where
/// they are more than 2^32 - 1.
impl PrimitiveContent for &[u8] {
    ghost type_tag = { octet_string_tag };

    ghost content = { λ x m content. IsOnePiece m content x.now };

    fn tag() -> Tag
        ensures { result ≡ octet_string_tag }
    {
        Tag::OCTET_STRING
    }

    fn encoded_len(&self, mode: Mode) -> Result<usize, EncodeError> {
        let octets = *self;
        if is_cut(mode, octets.len()) {
            return Err(EncodeError::CerUnsupported);
        }
        if octets.len() > MAX_LEN {
            return Err(EncodeError::TooLong);
        }
        Ok(octets.len())
    }

    fn write_encoded<W: Write>(&self, mode: Mode, target: &mut W) -> Result<(), EncodeError> {
        let octets = *self;
        if is_cut(mode, octets.len()) {
            return Err(EncodeError::CerUnsupported);
        }
        if octets.len() > MAX_LEN {
            return Err(EncodeError::TooLong);
        }
        write_octets(target, octets)
    }

    ghost is_tag = { Prim.search rules };

    ghost one_content = { λ x m. one_piece m x.now };
}

/// The content octets of a primitive value as they are, of what lends a slice of them.
///
/// No rule of a type is applied to them, so types write theirs by it. With its own tag it is an OCTET STRING, which
/// CER has in one piece up to 1000 octets alone (X.690 9.2): `&[u8]` refuses more, and octet strings are cut.
#[derive(Clone, Copy, Debug, PartialEq, Eq, Drop)]
pub struct Octets<T>(pub T);

/// `TooLong` where they are more than 2^32 - 1.
impl<T: AsSlice<u8>> PrimitiveContent for Octets<T> {
    ghost type_tag = { octet_string_tag };

    ghost content = { λ x m content. AnyOctets content (T.items x.0) };

    fn tag() -> Tag {
        Tag::OCTET_STRING
    }

    fn encoded_len(&self, _mode: Mode) -> Result<usize, EncodeError> {
        let lent = self.0.as_slice();
        if lent.len() > MAX_LEN {
            return Err(EncodeError::TooLong);
        }
        Ok(lent.len())
    }

    fn write_encoded<W: Write>(&self, _mode: Mode, target: &mut W) -> Result<(), EncodeError> {
        let lent = self.0.as_slice();
        if lent.len() > MAX_LEN {
            return Err(EncodeError::TooLong);
        }
        write_octets(target, lent)
    }

    ghost is_tag = { Prim.search rules };

    ghost one_content = { λ x m. one_string (T.items x.0) };
}
