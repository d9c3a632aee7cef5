//! URIs as octets, and the lookup keys by which they are taken.

ghost use Rattle.std.specs.Prelude.{◌≡◌, IfOk, map, string_bytes};
ghost use Rattle.rpki_questions.specs.certs_basics.Uris.{lookup_key as key_of_uri};

use bytes::Bytes;
use rpki_validator::lookup_key;
use std::alloc::{AllocError, Global};

/// The lookup key of a URI, or of any other text.
pub(crate) fn key_of(alloc: Global, uri: &str) -> Result<Bytes, AllocError>
    ensures { IfOk result (λ key. key ≡ key_of_uri uri.now) }
{
    let key = lookup_key(alloc, uri.as_bytes())?;
    match Bytes::from_vec(key) {
        Ok(key) => Ok(key),
        Err(_) => Err(AllocError),
    }
}

/// The octets of texts.
pub(crate) fn octets_of(alloc: Global, texts: &[String]) -> Result<Vec<Bytes>, AllocError>
    ensures { IfOk result (λ octets. octets.items ≡ map string_bytes texts.now) }
{
    let mut octets = Vec::new(alloc);
    for text in texts {
        octets.push(Bytes::copy_from_slice(alloc, text.as_bytes())?)?;
    }
    Ok(octets)
}
