//! The whole text of a reader.

ghost use Rattle.objects_payload.specs.Tals.{FailsAtIo, TakesText};

use crate::counted::Counted;
use crate::locator::error::ReadError;
use std::alloc::Global;
use std::io::Read;

// How many octets one read is given room for.
const PIECE: usize = 4_096;

// At so many octets reading stops.
const TOO_MANY: usize = 4_294_967_296;

/// All octets that the reader gives, fewer than 2^32, up to a read that gives none. Nothing is retried.
pub(crate) fn take_text<R: Read>(
    alloc: Global,
    reader: &mut Counted<R>,
) -> Result<Vec<u8>, ReadError>
    ensures reads { TakesText (R.remaining reader.old.inner) (R.remaining reader.new.inner) result }
    ensures failures { FailsAtIo (R.remaining reader.old.inner) (R.remaining reader.new.inner)
        (record { before = reader.old.failures; after = reader.new.failures }) result }
{
    let mut text = Vec::new(alloc);
    let mut piece = [0; PIECE];
    while text.len() < TOO_MANY {
        let wanted = PIECE.min(TOO_MANY - text.len());
        match reader.read(&mut piece[..wanted]) {
            Ok(0) => return Ok(text),
            Ok(count) => text.extend_from_slice(&piece[..count])?,
            Err(_) => return Err(ReadError::Io),
        }
    }
    Err(ReadError::Io)
}
