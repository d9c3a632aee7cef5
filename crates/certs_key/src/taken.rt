//! The parts of keys, which share the octets that they are read of.

ghost use Rattle.std.specs.Prelude.{◌≡◌, IfOk};
ghost use Rattle.certs_key.specs.bcder_content.Captures.{rest_of};
ghost use Rattle.certs_key.specs.bcder_content.Exact.{DecodesAs, ReadsAs};
ghost use Rattle.certs_key.specs.bcder_content.Here.{here};
ghost use Rattle.certs_key.specs.bcder_content.InMode.{ReadsFields};
ghost use Rattle.certs_key.specs.bcder_values.KeptForms.{KeptIn};
ghost use Rattle.certs_key.specs.Reading.{AreParts, IsParts, kept_parts, parts_fields};

use crate::algorithm::decode::{Constructed, DecodeError, Source};
use crate::algorithm::{BitString, Captured, PublicKeyFormat};
use crate::format::take_format;
use std::alloc::{AllocError, Global};
use std::convert::Infallible;

// The algorithm and the bits of a key, up to the end of their content.
fn take_fields<S: Source>(
    alloc: Global,
    cons: &mut Constructed<S>,
) -> Result<(PublicKeyFormat, BitString), DecodeError<S::Error>>
    ensures { ReadsFields parts_fields AreParts
        (here S.rest cons.old) result (here S.rest cons.new) }
{
    let format = take_format(alloc, cons)?;
    let bits = BitString::take_from(alloc, cons)?;
    Ok((format, bits))
}

// The next value, the algorithm and the bits of a key.
fn take_parts<S: Source>(
    alloc: Global,
    cons: &mut Constructed<S>,
) -> Result<(PublicKeyFormat, BitString), DecodeError<S::Error>>
    ensures { ReadsAs parts_fields (IsParts (here S.rest cons.old).mode)
        (here S.rest cons.old) result (here S.rest cons.new) }
{
    cons.take_sequence(
        |cons|
            ensures { ReadsFields parts_fields AreParts
                (here S.rest cons.old) result (here S.rest cons.new) }
        { take_fields(alloc, cons) },
    )
}

// The algorithm and the bits of the key that octets begin with, which share them.
fn parts_of(
    alloc: Global,
    octets: Captured,
) -> Result<(PublicKeyFormat, BitString), DecodeError<Infallible>>
    ensures { DecodesAs parts_fields octets.mode (IsParts octets.mode) octets.octets result }
{
    octets.decode(
        |cons|
            ensures { ReadsAs parts_fields (IsParts (here rest_of cons.old).mode)
                (here rest_of cons.old) result (here rest_of cons.new) }
        { take_parts(alloc, cons) },
    )
}

// Octets that are kept, lent once more; none is copied.
fn shared_of(octets: &Captured) -> Result<Captured, AllocError>
    ensures { IfOk result (λ shared. shared ≡ octets.now) }
{
    octets.clone()
}

/// The octets of the next value, and the algorithm and the bits of the key that they spell, which share them.
pub(crate) fn take_kept<S: Source>(
    alloc: Global,
    cons: &mut Constructed<S>,
) -> Result<(Captured, (PublicKeyFormat, BitString)), DecodeError<S::Error>>
    ensures { ReadsAs kept_parts (KeptIn IsParts (here S.rest cons.old).mode)
        (here S.rest cons.old) result (here S.rest cons.new) }
{
    let octets = cons.capture_one(alloc)?;
    let shared = shared_of(&octets)?;
    match parts_of(alloc, shared) {
        Ok(parts) => Ok((octets, parts)),
        Err(error) => Err(error.convert()),
    }
}
