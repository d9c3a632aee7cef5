//! All octets of a primitive content, at hand.
ghost use Rattle.std.specs.Prelude.{◌≡◌, ◌≤◌, List, ℕ, length, take, drop, IfOk, IfErr, OnOk, OnErr, Some, true, false};
ghost use Rattle.bcder_content.specs.bcder_source.Errors.{OnlyContent};
ghost use Rattle.bcder_content.specs.bcder_source.declared.error.DecodeError.TheVariants.{Memory};
ghost use Rattle.bcder_primitive.specs.Plain.{plain, WholeOctets};

use crate::bcder_primitive::Primitive;
use crate::bcder_source::{ContentError, DecodeError, Source};
use bytes::Bytes;
use std::alloc::Global;

/// Marks a content as failed, and refuses it, from its beginning.
pub fn refuse<S: Source>(prim: &mut Primitive<S>, text: &str) -> DecodeError<S::Error>
    ensures error { OnlyContent result (Unit {0}) }
    ensures failed { plain S.rest prim.new ≡ record (plain S.rest prim.old) { failed = true } }
{
    prim.failed = true;
    (*prim).content_err(ContentError::from_static(text))
}

/// Has all octets of a content at hand, and answers how many.
///
/// It is refused where a read was refused before, where no limit gives the content's end, and where the source ends
/// before it.
pub fn request_all<S: Source>(prim: &mut Primitive<S>) -> Result<usize, DecodeError<S::Error>>
    ensures same { OnOk result (plain S.rest prim.new ≡ plain S.rest prim.old) }
    ensures sound { OnOk result ((plain S.rest prim.old).failed ≡ false) }
    ensures all { IfOk result (λ n. (plain S.rest prim.old).limit ≡ Some n) }
    ensures available { IfOk result (λ n. n ≤ S.available prim.new.source.source) }
    ensures refused { IfErr result
        (λ e. OnlyContent e ((text : List ℕ) → WholeOctets (plain S.rest prim.old) text → ⊥)) }
    ensures failed { OnErr result ((plain S.rest prim.new).failed ≡ true) }
{
    if prim.failed {
        return Err(refuse(prim, "a read was refused before"));
    }
    let Some(limit) = prim.source.limit else {
        return Err(refuse(prim, "unexpected end of data"));
    };
    match prim.source.source.request(limit) {
        Ok(count) if count < limit => Err(refuse(prim, "unexpected end of data")),
        Ok(_) => Ok(limit),
        Err(error) => {
            prim.failed = true;
            Err(DecodeError::Source(error))
        }
    }
}

/// The first octets of a content, which are at hand.
pub fn front<S: Source>(prim: &Primitive<S>, count: usize) -> &[u8]
    requires { count ≤ S.available prim.now.source.source }
    ensures value { result.now ≡ take count (plain S.rest prim.now).rest }
    ensures there { count ≤ length (plain S.rest prim.now).rest }
{
    &prim.source.source.slice()[..count]
}

/// Goes past all octets of a content, which are at hand.
pub fn pass<S: Source>(prim: &mut Primitive<S>, count: usize)
    requires limit { (plain S.rest prim.old).limit ≡ Some count }
    requires available { count ≤ S.available prim.old.source.source }
    ensures { plain S.rest prim.new
        ≡ record (plain S.rest prim.old)
        { rest = drop count (plain S.rest prim.old).rest; limit = Some 0 } }
{
    prim.source.source.advance(count);
    prim.source.limit = Some(0);
}

/// All octets of a content, which are at hand; where the source shares its octets none is copied.
///
/// Nothing but memory is wanted then.
pub fn take_front<S: Source>(
    alloc: Global,
    prim: &mut Primitive<S>,
    count: usize,
) -> Result<Bytes, DecodeError<S::Error>>
    requires limit { (plain S.rest prim.old).limit ≡ Some count }
    requires available { count ≤ S.available prim.old.source.source }
    ensures octets { IfOk result (λ octets. octets ≡ take count (plain S.rest prim.old).rest) }
    ensures passed { OnOk result
        (plain S.rest prim.new
        ≡ record (plain S.rest prim.old)
        { rest = drop count (plain S.rest prim.old).rest; limit = Some 0 }) }
    ensures memory { IfErr result (λ e. e ≡ Memory) }
    ensures failed { OnErr result ((plain S.rest prim.new).failed ≡ true) }
{
    match prim.source.source.bytes(alloc, 0, count) {
        Ok(octets) => {
            pass(prim, count);
            Ok(octets)
        }
        Err(_) => {
            prim.failed = true;
            Err(DecodeError::Memory)
        }
    }
}
