//! Single files and folders: what stands at a path, and a file's octets.

ghost use Rattle.std.specs.Prelude.{◌≤◌, length, IfOk, IfSome};
ghost use Rattle.rpki_commands.specs.Faults.{Finds, FindsNoLink, IsLackOf};

use crate::folder::ReadFault;
use std::alloc::Global;
use std::fs::{self, Metadata};
use std::io::{self, ErrorKind, Read};
use std::rt::Files;

/// So many octets of a file are read at most.
pub(crate) const MOST_OCTETS: usize = 4_294_967_296;

/// What stands at a path. A link stands for what it leads to.
#[derive(Clone, Copy, Debug, PartialEq, Eq)]
pub(crate) enum Kind {
    /// Nothing, not even a link.
    Absent,
    /// A file, of so many octets as the system says.
    File(u64),
    /// A folder.
    Folder,
}

// That nothing is there where the error says so.
fn lack_of(error: io::Error) -> Result<Kind, ReadFault>
    ensures { IsLackOf error result }
{
    if error.kind() == ErrorKind::NotFound {
        return Ok(Kind::Absent);
    }
    Err(ReadFault::from(error))
}

// What stands at a path, by what the system answers of it.
fn found(answer: io::Result<Metadata>) -> Result<Kind, ReadFault>
    ensures { Finds answer result }
{
    match answer {
        Ok(found) if found.is_dir() => Ok(Kind::Folder),
        Ok(found) if found.is_file() => Ok(Kind::File(found.len())),
        Ok(_) => Err(ReadFault::Read),
        Err(error) => lack_of(error),
    }
}

// That there is not even a link, by what the system answers of it.
fn no_link(answer: io::Result<Metadata>) -> Result<Kind, ReadFault>
    ensures { FindsNoLink answer result }
{
    match answer {
        Ok(_) => Err(ReadFault::Read),
        Err(error) => lack_of(error),
    }
}

/// What stands at the path; a read fault for what is neither file nor folder, and for a broken link.
pub(crate) fn kind_of<R: Files>(rt: &R, path: &str) -> Result<Kind, ReadFault> {
    match found(fs::metadata(rt, path)) {
        Ok(Kind::Absent) => no_link(fs::symlink_metadata(rt, path)),
        kind => kind,
    }
}

/// The first `most` octets of a file that may be missing.
pub(crate) fn read_if_there<R: Files>(
    rt: &R,
    alloc: Global,
    path: &str,
    most: usize,
    buffer: &mut [u8],
) -> Result<Option<Vec<u8>>, ReadFault>
    ensures { IfOk result (λ found. IfSome found (λ octets. length octets.items ≤ most)) }
{
    match kind_of(rt, path)? {
        Kind::Absent => Ok(None),
        Kind::File(size) => Ok(Some(read_file(rt, alloc, path, size, most, buffer)?)),
        Kind::Folder => Err(ReadFault::Read),
    }
}

/// The first `most` octets of a file. All of it is read, or its first 2^32 octets, so that a fault in what isn't kept
/// shows too. Its size as the system says it gives the room to begin with.
pub(crate) fn read_file<R: Files>(
    rt: &R,
    alloc: Global,
    path: &str,
    size: u64,
    most: usize,
    buffer: &mut [u8],
) -> Result<Vec<u8>, ReadFault>
    ensures { IfOk result (λ octets. length octets.items ≤ most) }
{
    let mut file = fs::open(rt, path)?;
    let mut octets = Vec::with_capacity(alloc, size.min(most as u64) as usize)?;
    let mut unread = MOST_OCTETS;
    while unread > 0 {
        let count = file.read(buffer)?.min(unread);
        if count == 0 {
            break;
        }
        unread -= count;
        let kept = count.min(most - octets.len());
        octets.extend_from_slice(&buffer[..kept])?;
    }
    Ok(octets)
}
