//! Octets that were kept, taken as values in DER.

ghost use Rattle.std.specs.Prelude.{IfErr, IfOk};
ghost use Rattle.objects_written.specs.bcder_content.Captures.{rest_of};
ghost use Rattle.objects_written.specs.bcder_content.Here.{here};
ghost use Rattle.objects_written.specs.Taking.{DecodesDer, DerRefused, IsInDer, TakesAll};

use certs::written::EncodeError;
use certs_key::decode::{Constructed, Decode, DecodeError, Source};
use certs_key::{Captured, Mode};
use std::alloc::Global;
use std::convert::Infallible;

// All values of a content, as they stand.
fn take_all<S: Source>(
    alloc: Global,
    cons: &mut Constructed<S>,
) -> Result<Captured, DecodeError<S::Error>>
    ensures { TakesAll (here S.rest cons.old) result (here S.rest cons.new) }
{
    cons.capture_all(alloc)
}

// All values that the octets are in DER.
fn decode_all(alloc: Global, octets: &[u8]) -> Result<Captured, DecodeError<Infallible>>
    ensures { DecodesDer octets.now result }
{
    Mode::Der.decode(
        octets,
        |cons|
            ensures { TakesAll (here rest_of cons.old) result (here rest_of cons.new) }
        { take_all(alloc, cons) },
    )
}

/// A copy of the octets, as the values that they are in DER; `CerUnsupported` where they are none.
pub fn in_der(alloc: Global, octets: &[u8]) -> Result<Captured, EncodeError>
    ensures kept { IfOk result (IsInDer octets.now) }
    ensures refused { IfErr result (DerRefused octets.now) }
{
    match decode_all(alloc, octets) {
        Ok(captured) => Ok(captured),
        Err(DecodeError::Content(error, _)) => {
            drop(error);
            Err(EncodeError::CerUnsupported)
        }
        Err(DecodeError::Source(never)) => match never {},
        Err(DecodeError::Memory) => Err(EncodeError::Memory),
    }
}
