//! The fields of bundles and of their entries, read by the codec.

ghost use Rattle.std.specs.Prelude.{◌↔◌, ◌≡◌, ◌≢◌, ◌≤◌, IfErr, IsTrue, OnErr, true};
ghost use Rattle.rpki_bundle.specs.bcder_tree.Strings.{IsOctetString};
ghost use Rattle.rpki_bundle.specs.bcder_source.declared.error.DecodeError.TheVariants.{Memory};
ghost use Rattle.rpki_bundle.specs.bcder_content.Exact.{ReadsAs};
ghost use Rattle.rpki_bundle.specs.bcder_content.Here.{here, plain};
ghost use Rattle.rpki_bundle.specs.bcder_primitive.Plain.{ReadsOctetsAs};
ghost use Rattle.rpki_bundle.specs.Bundle.{IsDepthNumber, IsDigest, IsDigestString, IsNameString, IsUriString, IsWord};
ghost use Rattle.rpki_bundle.specs.Lawful.{IsName};
ghost use Rattle.rpki_bundle.specs.Words.{octets_of};

use crate::limits::{MAX_DEPTH, MIN_DEPTH};
use crate::uri::is_lookup_key;
use crate::words::DigestWords;
use bytes::Bytes;
use certs_key::decode::{Constructed, ContentError, DecodeError, Primitive, Source};
use certs_key::string::{CharSet, PrintableCharSet};
use certs_key::{Ia5String, OctetString, PrintableString, Tag};
use std::alloc::Global;

// Whether the text isn't empty, and has no space.
fn is_word(text: &[u8]) -> bool
    ensures { IsTrue result ↔ IsWord text.now }
{
    !text.is_empty() && text.iter().all(|octet| *octet != b' ')
}

/// Whether the text is the name of a locator: printable, not empty, without a space.
pub fn is_name(text: &[u8]) -> bool
    ensures { IsTrue result ↔ IsName text.now }
{
    match PrintableCharSet::check(text) {
        Ok(()) => is_word(text),
        Err(_) => false,
    }
}

/// Whether a bundle may have the depth.
pub fn is_depth(depth: u8) -> bool
    ensures { IsTrue result ↔ ((MIN_DEPTH ≤ depth) × (depth ≤ MAX_DEPTH)) }
{
    (MIN_DEPTH..=MAX_DEPTH).contains(&depth)
}

/// The octets of an OCTET STRING.
#[inline(always)]
pub fn take_octets<S: Source>(
    alloc: Global,
    cons: &mut Constructed<S>,
) -> Result<Bytes, DecodeError<S::Error>>
    ensures reads { ReadsAs (λ octets. octets) (IsOctetString (here S.rest cons.old).mode)
        (here S.rest cons.old) result (here S.rest cons.new) }
    ensures failed { OnErr result ((here S.rest cons.new).failed ≡ true) }
{
    let string = OctetString::take_from(alloc, cons)?;
    Ok(string.into_bytes())
}

/// The name of a locator.
#[inline(always)]
pub fn take_name<S: Source>(
    alloc: Global,
    cons: &mut Constructed<S>,
) -> Result<Bytes, DecodeError<S::Error>>
    ensures reads { ReadsAs (λ octets. octets) (IsNameString (here S.rest cons.old).mode)
        (here S.rest cons.old) result (here S.rest cons.new) }
    ensures failed { OnErr result ((here S.rest cons.new).failed ≡ true) }
{
    let string = PrintableString::take_from(alloc, cons)?;
    let name = string.into_bytes();
    if !is_word(name.as_slice()) {
        cons.fail();
        return Err(cons.content_err(ContentError::from_static("a name is empty or has a space")));
    }
    Ok(name)
}

/// A URI that is its own lookup key.
pub fn take_uri<S: Source>(
    alloc: Global,
    cons: &mut Constructed<S>,
) -> Result<Bytes, DecodeError<S::Error>>
    ensures reads { ReadsAs (λ octets. octets) (IsUriString (here S.rest cons.old).mode)
        (here S.rest cons.old) result (here S.rest cons.new) }
    ensures failed { OnErr result ((here S.rest cons.new).failed ≡ true) }
{
    let string = Ia5String::take_from(alloc, cons)?;
    let uri = string.into_bytes();
    if !is_lookup_key(uri.as_slice()) {
        cons.fail();
        return Err(cons.content_err(ContentError::from_static("a URI isn't its own lookup key")));
    }
    Ok(uri)
}

// The digest that all octets of a content are.
#[inline(always)]
fn digest<S: Source>(prim: &mut Primitive<S>) -> Result<DigestWords, DecodeError<S::Error>>
    ensures { ReadsOctetsAs octets_of IsDigest (plain S.rest prim.old) result
        (plain S.rest prim.new) }
{
    if prim.failed {
        return Err(prim.content_err(ContentError::from_static("a digest has 32 octets")));
    }
    let _count = match prim.request(32) {
        Ok(count) => count,
        Err(error) => return Err(DecodeError::Source(error)),
    };
    let digest = match <[u8; 32]>::try_from((*prim).slice()) {
        Ok(digest) => digest,
        Err(_) => return Err(prim.content_err(ContentError::from_static("a digest has 32 octets"))),
    };
    prim.advance(32);
    Ok(DigestWords::of(&digest))
}

/// A digest, as an OCTET STRING of 32 octets.
#[inline(always)]
pub fn take_digest<S: Source>(
    cons: &mut Constructed<S>,
) -> Result<DigestWords, DecodeError<S::Error>>
    ensures reads { ReadsAs octets_of IsDigestString (here S.rest cons.old) result
        (here S.rest cons.new) }
    ensures failed { OnErr result ((here S.rest cons.new).failed ≡ true) }
{
    cons.take_primitive_if(
        Tag::OCTET_STRING,
        |prim|
            ensures { ReadsOctetsAs octets_of IsDigest (plain S.rest prim.old) result
                (plain S.rest prim.new) }
        { digest(prim) },
    )
}

/// A depth, from `MIN_DEPTH` to `MAX_DEPTH`.
pub fn take_depth<S: Source>(cons: &mut Constructed<S>) -> Result<u8, DecodeError<S::Error>>
    ensures reads { ReadsAs (λ depth. depth) IsDepthNumber (here S.rest cons.old) result
        (here S.rest cons.new) }
    ensures failed { OnErr result ((here S.rest cons.new).failed ≡ true) }
    ensures no_memory { IfErr result (λ e. e ≢ Memory) }
{
    let depth = cons.take_u8()?;
    if !is_depth(depth) {
        cons.fail();
        return Err(cons.content_err(ContentError::from_static("a depth is 1 to 32")));
    }
    Ok(depth)
}
