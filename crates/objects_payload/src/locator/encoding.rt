//! Octets that are written in base 64, with white space between its letters (RFC 4648 4, RFC 8630 2.2).

ghost use Rattle.std.specs.Prelude.{◌≡◌, IfOk, filter, not};
ghost use Rattle.objects_payload.specs.Locators.{is_dropped as drops};
ghost use Rattle.objects_payload.specs.Faults.{Decodes};

use crate::locator::error::ReadError;
use base64::DecodeAllocError;
use base64::engine::general_purpose::STANDARD;
use std::alloc::{AllocError, Global};

// Whether the octet is white space: tab, LF, form feed, CR or space.
fn is_dropped(octet: u8) -> bool
    ensures { result ≡ drops octet }
{
    matches!(octet, b'\t' | b'\n' | 0x0C | b'\r' | b' ')
}

// The text without its white space.
fn letters_of(alloc: Global, text: &[u8]) -> Result<Vec<u8>, AllocError>
    ensures { IfOk result (λ letters. letters.items ≡ filter (λ c. not (drops c)) text.now) }
{
    text.iter()
        .copied()
        .filter(|octet| !is_dropped(*octet))
        .collect(alloc)
}

/// The octets that the text is base 64 of, white space aside.
pub(crate) fn decode(alloc: Global, text: &[u8]) -> Result<Vec<u8>, ReadError>
    ensures { Decodes text.now result }
{
    let Ok(letters) = letters_of(alloc, text) else {
        return Err(ReadError::Memory);
    };
    match STANDARD.decode(alloc, letters.as_slice()) {
        Ok(octets) => Ok(octets),
        Err(DecodeAllocError::DecodeError(_)) => Err(ReadError::BadKeyInfoEncoding),
        Err(DecodeAllocError::OutOfMemory) => Err(ReadError::Memory),
    }
}
