//! The text of a locator in a bundle.

ghost use Rattle.std.specs.Prelude.{IfErr, IfOk, OnErr};
ghost use Rattle.objects_payload.specs.Faults.{BehindComments, StartsWithUri};
ghost use Rattle.rpki_standing.specs.Lookups.{IsNoLocator, ReadsLocator};

use crate::table::Locator;
use objects_payload::locator::{ReadError, Tal};
use std::alloc::{AllocError, Global};

/// The trust anchor locator that the text is, or else the text's fault (RFC 8630 2.2), which isn't lack of memory. Memory
/// is asked for only where a URI stands after the comments. The locator is given no name, since the bundle has one.
pub fn read_locator_text(
    alloc: Global,
    locator: &Locator,
) -> Result<Result<Tal, ReadError>, AllocError>
    ensures text { IfOk result (ReadsLocator locator.now.text) }
    ensures none { IfOk result (λ read. IfErr read (λ _. IsNoLocator locator.now.text)) }
    ensures asked { OnErr result (BehindComments StartsWithUri locator.now.text) }
{
    match Tal::from_text(alloc, String::new(alloc), locator.text.as_slice()) {
        Ok(tal) => Ok(Ok(tal)),
        Err(error) => match error {
            ReadError::Memory => Err(AllocError),
            fault => Ok(Err(fault)),
        },
    }
}
