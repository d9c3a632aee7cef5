//! Signed objects whose content is of the type that is asked for.

ghost use Rattle.std.specs.Prelude.{◌≡◌, ◌↔◌, IsTrue};
ghost use Rattle.objects_valid.specs.Kinds.{DecodesTyped};

use crate::kinds::SignedContent;
use bcder::decode::{ContentError, DecodeError, IntoSource, Pos, Source};
use bytes::Bytes;
use objects_cms::signed::SignedObject;
use std::alloc::Global;

// Whether its content is of that type.
fn has_type<T: SignedContent>(signed: &SignedObject) -> bool
    ensures { IsTrue result ↔ (signed.now.content_type ≡ T.kind) }
{
    signed.content_type().as_slice() == T::content_type()
}

/// The signed object that a source begins with, in DER, or where not `strict` in BER, and the octets of its content,
/// shared; an object with a content of another type is refused (RFC 6488 2.1.3.1).
pub(crate) fn decode_typed<T: SignedContent, I: IntoSource>(
    alloc: Global,
    source: I,
    strict: bool,
) -> Result<(SignedObject, Bytes), DecodeError<<I::Source as Source>::Error>>
    ensures { DecodesTyped T.kind strict (I.octets source) result }
{
    let signed = SignedObject::decode(alloc, source, strict)?;
    if !has_type::<T>(&signed) {
        drop(signed);
        let error = ContentError::from_static("another type of content");
        return Err(DecodeError::content(error, Pos::from(0)));
    }
    match signed.content().to_bytes(alloc) {
        Ok(octets) => Ok((signed, octets)),
        Err(_) => {
            drop(signed);
            Err(DecodeError::Memory)
        }
    }
}
