//! What is written of values in DER, or why nothing is.

ghost use Rattle.std.specs.Prelude.{◌≡◌, IfErr, IfOk};
ghost use Rattle.objects_written.specs.bcder_tree.declared.mode.Mode.TheVariants.{Der};
ghost use Rattle.objects_rta_written.specs.Taking.{TextRefused, cause_told};

use certs::written::{EncodeError, Values};
use certs_key::{Captured, Mode};
use std::alloc::Global;

// Why nothing is written: what isn't for lack of memory has no text that can be counted.
fn cause_of(error: EncodeError) -> EncodeError
    ensures { result ≡ cause_told error }
{
    match error {
        EncodeError::Memory => EncodeError::Memory,
        _ => EncodeError::TooLong,
    }
}

/// What is written of values in DER; `TooLong` where nothing can be.
pub(crate) fn text_of<V: Values>(alloc: Global, values: &V) -> Result<Captured, EncodeError>
    ensures written { IfOk result (λ c. V.writes values.now Der c.octets) }
    ensures mode { IfOk result (λ c. c.mode ≡ Der) }
    ensures refused { IfErr result (TextRefused (V.writes values.now Der)) }
{
    match values.to_captured(alloc, Mode::Der) {
        Ok(octets) => Ok(octets),
        Err(error) => Err(cause_of(error)),
    }
}
