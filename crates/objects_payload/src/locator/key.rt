//! The key of a locator.

ghost use Rattle.objects_payload.specs.Faults.{ReadsKey};

use crate::locator::encoding::decode;
use crate::locator::error::ReadError;
use bcder::decode::DecodeError;
use bytes::Bytes;
use certs_key::PublicKey;
use std::alloc::Global;

/// The key that the text is base 64 of (RFC 8630 2.2); octets after the key aren't looked at.
pub(crate) fn read_key(alloc: Global, text: &[u8]) -> Result<PublicKey, ReadError>
    ensures { ReadsKey text.now result }
{
    let octets = decode(alloc, text)?;
    let Ok(octets) = Bytes::from_vec(octets) else {
        return Err(ReadError::Memory);
    };
    match PublicKey::decode(alloc, octets) {
        Ok(key) => Ok(key),
        Err(DecodeError::Content(_, _)) => Err(ReadError::BadKeyInfo),
        Err(DecodeError::Source(never)) => match never {},
        Err(DecodeError::Memory) => Err(ReadError::Memory),
    }
}
