//! Signed objects of a type of content that is asked for (RFC 6488 2.1.3.1).

ghost use Rattle.std.specs.Prelude.{◌≡◌, ◌↔◌, IsTrue};
ghost use Rattle.objects_valid.specs.objects_payload.ObjectText.{Object};
ghost use Rattle.objects_valid.specs.IfType.{DecodesIfType};

use crate::kinds::SignedObject;
use bcder::Oid;
use bcder::decode::{ContentError, DecodeError, IntoSource, Pos, Source};
use std::alloc::Global;
use std::convert::AsSlice;

// Whether its content is of that type.
#[tactic(auto, using(crate::proofs::IfType::told_same))]
fn is_of_type<T: AsSlice<u8>>(signed: &SignedObject, content_type: &Oid<T>) -> bool
    ensures { IsTrue result ↔ (signed.now.content_type ≡ T.items content_type.now.0) }
{
    signed.content_type().equals(content_type)
}

/// What is read only where its content is of a type that is asked for.
pub trait DecodeIfType: Sized {
    // The object.
    ghost decoded: { Self → Object };

    /// The signed object that a source begins with, in DER, or where not `strict` in BER, whose content is of that type;
    /// an object with a content of another type is refused. Octets after it stay unread.
    fn decode_if_type<I: IntoSource, T: AsSlice<u8>>(
        alloc: Global,
        source: I,
        content_type: &Oid<T>,
        strict: bool,
    ) -> Result<Self, DecodeError<<I::Source as Source>::Error>>
        ensures { DecodesIfType decoded (T.items content_type.now.0) strict
            (I.octets source) result };
}

impl DecodeIfType for SignedObject {
    ghost decoded = { λ o. o };

    fn decode_if_type<I: IntoSource, T: AsSlice<u8>>(
        alloc: Global,
        source: I,
        content_type: &Oid<T>,
        strict: bool,
    ) -> Result<Self, DecodeError<<I::Source as Source>::Error>> {
        let signed = SignedObject::decode(alloc, source, strict)?;
        if !is_of_type(&signed, content_type) {
            drop(signed);
            let error = ContentError::from_static("another type of content");
            return Err(DecodeError::content(error, Pos::from(0)));
        }
        Ok(signed)
    }
}
