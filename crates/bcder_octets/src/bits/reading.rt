//! Contents of primitive values, read as bit strings.
ghost use Rattle.std.specs.Prelude.{◌≡◌, ◌≢◌, ◌≤◌, ◌<◌, true, false, take, length, Some, IfOk, IfErr, OnOk, OnErr};
ghost use Rattle.bcder_octets.specs.bcder_source.Errors.{OnlyContent};
ghost use Rattle.bcder_octets.specs.bcder_source.declared.error.DecodeError.TheVariants.{Memory};
ghost use Rattle.bcder_octets.specs.bcder_primitive.Plain.{plain, LacksOctets, ReadsOctetsAs};
ghost use Rattle.bcder_octets.specs.bcder_content.Memory.{OnMemory};
ghost use Rattle.bcder_values.specs.bcder_content.Ahead.{HasOctets};
ghost use Rattle.bcder_octets.specs.BitContents.{IsAnyBits, IsBitString};

use crate::bcder_content::whole::{front, pass, refuse, request_all};
use crate::bcder_primitive::Primitive;
use crate::bcder_source::{DecodeError, Source};
use crate::bits::BitString;
use crate::bits::parse::is_content;
use std::alloc::Global;

// Has all octets of a bit string's content at hand, and answers how many.
fn request_bits<S: Source>(prim: &mut Primitive<S>) -> Result<usize, DecodeError<S::Error>>
    ensures same { OnOk result (plain S.rest prim.new ≡ plain S.rest prim.old) }
    ensures sound { OnOk result ((plain S.rest prim.old).failed ≡ false) }
    ensures all { IfOk result (λ n. (plain S.rest prim.old).limit ≡ Some n) }
    ensures at_hand { IfOk result (λ n. n ≤ S.available prim.new.source.source) }
    ensures there { IfOk result (λ n. n ≤ length (plain S.rest prim.old).rest) }
    ensures is { IfOk result
        (λ n. IsAnyBits (plain S.rest prim.old).mode (take n (plain S.rest prim.old).rest) tt) }
    ensures refused { IfErr result (λ e. OnlyContent e
        (LacksOctets (IsBitString (plain S.rest prim.old).mode) (plain S.rest prim.old))) }
    ensures failed { OnErr result ((plain S.rest prim.new).failed ≡ true) }
{
    let count = request_all(prim)?;
    if is_content(prim.mode, front(prim, count)) {
        return Ok(count);
    }
    Err(refuse(prim, "invalid bit string"))
}

// The bit string that octets at hand spell.
fn bits_at_hand<S: Source>(
    alloc: Global,
    prim: &mut Primitive<S>,
    count: usize,
) -> Result<BitString, DecodeError<S::Error>>
    requires at_hand { count ≤ S.available prim.old.source.source }
    requires is { IsAnyBits (plain S.rest prim.old).mode (take count (plain S.rest prim.old).rest)
        tt }
    ensures same { OnOk result (plain S.rest prim.new ≡ plain S.rest prim.old) }
    ensures kept { OnOk result
        (S.available prim.new.source.source ≡ S.available prim.old.source.source) }
    ensures is { IfOk result
        (IsBitString (plain S.rest prim.old).mode (take count (plain S.rest prim.old).rest)) }
    ensures memory { IfErr result (λ e. e ≡ Memory) }
    ensures failed { OnErr result ((plain S.rest prim.new).failed ≡ true) }
{
    let unused = front(prim, count)[0];
    match prim.source.source.bytes(alloc, 1, count) {
        Ok(octets) => Ok(BitString::new(unused, octets)),
        Err(_) => {
            prim.failed = true;
            Err(DecodeError::Memory)
        }
    }
}

/// The bit string of a primitive content, all of it. Memory is wanted only where it is one.
pub(crate) fn take_bits<S: Source>(
    alloc: Global,
    prim: &mut Primitive<S>,
) -> Result<BitString, DecodeError<S::Error>>
    ensures reads { ReadsOctetsAs (λ v. v) (IsBitString (plain S.rest prim.old).mode)
        (plain S.rest prim.old) result (plain S.rest prim.new) }
    ensures failed { OnErr result ((plain S.rest prim.new).failed ≡ true) }
    ensures memory { IfErr result (λ e. OnMemory e
        (HasOctets (IsBitString (plain S.rest prim.old).mode) (plain S.rest prim.old))) }
{
    let count = request_bits(prim)?;
    let bits = bits_at_hand(alloc, prim, count)?;
    pass(prim, count);
    Ok(bits)
}

/// Goes past the bit string of a primitive content, all of it.
pub(crate) fn skip_bits<S: Source>(prim: &mut Primitive<S>) -> Result<(), DecodeError<S::Error>>
    ensures reads { ReadsOctetsAs (λ x. x) (IsAnyBits (plain S.rest prim.old).mode)
        (plain S.rest prim.old) result (plain S.rest prim.new) }
    ensures failed { OnErr result ((plain S.rest prim.new).failed ≡ true) }
    ensures no_memory { IfErr result (λ e. e ≢ Memory) }
{
    let count = request_bits(prim)?;
    pass(prim, count);
    Ok(())
}
