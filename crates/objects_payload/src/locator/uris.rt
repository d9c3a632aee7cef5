//! The URIs of a locator, each on a line.

ghost use Rattle.objects_payload.specs.Faults.{ReadsUri, TakesUris};

use crate::locator::error::ReadError;
use crate::locator::lines::split_line;
use crate::locator::uri::TalUri;
use certs_basics::uri::Error;
use std::alloc::Global;

// The URI on a line.
fn uri_of(alloc: Global, line: &[u8]) -> Result<TalUri, ReadError>
    ensures { ReadsUri line.now result }
{
    match TalUri::from_slice(alloc, line) {
        Ok(uri) => Ok(uri),
        Err(Error::BadUri) => Err(ReadError::BadUri),
        Err(Error::Memory) => Err(ReadError::Memory),
    }
}

/// The URIs on the lines in front of the text, one or more, and what stands after the empty line after them.
pub(crate) fn take_uris(alloc: Global, text: &[u8]) -> Result<(Vec<TalUri>, &[u8]), ReadError>
    ensures { TakesUris text.now result }
{
    let mut uris = Vec::new(alloc);
    let mut rest = text;
    while let Some((line, behind)) = split_line(rest) {
        if line.is_empty() {
            if uris.is_empty() {
                return Err(ReadError::BadUri);
            }
            return Ok((uris, behind));
        }
        let uri = uri_of(alloc, line)?;
        uris.push(uri)?;
        rest = behind;
    }
    Err(ReadError::UnexpectedEof)
}
