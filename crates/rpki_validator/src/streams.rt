//! Reading to the end and writing a whole text, over readers and writers that count their failures.
ghost use Rattle.rpki_validator.specs.Streams.{ReadFails, ReadsUpTo, TakesSome};
ghost use Rattle.rpki_validator.specs.declared.streams.ReadFault.TheVariants.{Memory};
ghost use Rattle.std.specs.Io.KnownBytes.{Appends, Consumes};
ghost use Rattle.std.specs.Prelude.{◌≡◌, ℕ, ◌+◌, ◌-◌, ◌^◌, ◌<◌, ◌≤◌, List, length, IfOk, OnOk, OnErr, MatchResult};

use objects_payload::counted::Counted;
use std::alloc::{AllocError, Global};
use std::io::{Read, Write};

/// How many octets one read is given room for.
const PIECE: usize = 65_536;

/// Why a text could not be read.
#[derive(Clone, Copy, Debug, PartialEq, Eq)]
pub(crate) enum ReadFault {
    /// A read failed.
    Read,
    /// There was no memory for what was read.
    Memory,
}

impl From<AllocError> for ReadFault {
    ghost from_gives = { λ _ fault. fault ≡ Memory };

    fn from(_error: AllocError) -> ReadFault {
        ReadFault::Memory
    }
}

/// A write failed, or took nothing.
#[derive(Clone, Copy, Debug, PartialEq, Eq)]
pub struct WriteFault;

/// Reads until a read gives nothing, or until `limit` octets are there; it asks for no octet past
/// `limit`, and retries nothing.
pub(crate) fn read_all<R: Read>(
    alloc: Global,
    reader: &mut Counted<R>,
    limit: usize,
) -> Result<Vec<u8>, ReadFault>
    requires few { reader.old.failures < 2 ^ 64 - 1 }

    ensures ok { IfOk result (λ text. ReadsUpTo limit (R.remaining reader.old.inner)
        (R.remaining reader.new.inner) text.items) }
    ensures most { IfOk result (λ text. length text.items ≤ limit) }

    // What a refusal leaves: the octets read so far are gone.
    ensures err { OnErr result
        ((octets : List ℕ) × (length octets ≤ limit)
        × Consumes (R.remaining reader.old.inner) (R.remaining reader.new.inner) octets) }
    ensures failures { ReadFails result reader.old.failures reader.new.failures }
{
    let mut text = Vec::new(alloc);
    let mut piece = [0; PIECE];
    while text.len() < limit {
        let wanted = PIECE.min(limit - text.len());
        match reader.read(&mut piece[..wanted]) {
            Ok(0) => return Ok(text),
            Ok(count) => text.extend_from_slice(&piece[..count])?,
            Err(_) => return Err(ReadFault::Read),
        }
    }
    Ok(text)
}

/// Writes the whole of `text`, in as many writes as the writer needs, and retries nothing.
pub fn write_all<W: Write>(writer: &mut Counted<W>, text: &[u8]) -> Result<(), WriteFault>
    requires few { writer.old.failures < 2 ^ 64 - 1 }

    ensures ok { OnOk result
        (Appends (W.contents writer.old.inner) (W.contents writer.new.inner) text.now) }
    ensures err { OnErr result
        (TakesSome (W.contents writer.old.inner) (W.contents writer.new.inner) text.now) }
    ensures count { MatchResult result (λ _. writer.new.failures ≡ writer.old.failures)
        (λ _. writer.new.failures ≡ writer.old.failures + 1) }
{
    let mut rest = text;
    while !rest.is_empty() {
        match writer.write(rest) {
            Ok(0) | Err(_) => return Err(WriteFault),
            Ok(count) => rest = &rest[count..],
        }
    }
    Ok(())
}
