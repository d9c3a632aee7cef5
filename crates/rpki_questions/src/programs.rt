//! The program `rpki_ask`, over any reader and writers: what its arguments ask is answered. It answers the exit status.

ghost use Rattle.std.specs.Prelude.{◌≡◌, ◌⊎◌, ◌<◌, ◌-◌, ◌^◌, false, true};
ghost use Rattle.rpki_questions.specs.Programs.{AnswersAsked, LeavesAsked};

use crate::asking::{FAULT, ask};
use crate::requests::{self, request_of};
use rpki_validator::Counted;
use rpki_validator::programs::{tell_unread, tell_usage};
use std::alloc::Global;
use std::io::{self, Read, Write};

/// `rpki_ask`: answers what the arguments ask, the first of which is the program's name, and writes what is at fault to
/// `faults`. Its exit status is 0 for a yes, 1 for a no, and 2 where something was at fault, where the arguments ask nothing,
/// and where they can't be had.
pub fn ask_program<I: Read, W: Write, F: Write>(
    alloc: Global,
    arguments: &io::Result<Vec<String>>,
    reader: &mut Counted<I>,
    writer: &mut Counted<W>,
    faults: &mut F,
) -> u8
    requires few_reads { reader.old.failures < 2 ^ 64 - 1 }
    requires few_writes { writer.old.failures < 2 ^ 64 - 1 }

    ensures status { (result ≡ 0) ⊎ ((result ≡ 1) ⊎ (result ≡ 2)) }
    ensures yes { result ≡ 0 → AnswersAsked arguments.now true
        (I.remaining reader.old.inner) (I.remaining reader.new.inner)
        (W.contents writer.old.inner) (W.contents writer.new.inner)
        (record { before = reader.old.failures; after = reader.new.failures })
        (record { before = writer.old.failures; after = writer.new.failures }) }
    ensures no { result ≡ 1 → AnswersAsked arguments.now false
        (I.remaining reader.old.inner) (I.remaining reader.new.inner)
        (W.contents writer.old.inner) (W.contents writer.new.inner)
        (record { before = reader.old.failures; after = reader.new.failures })
        (record { before = writer.old.failures; after = writer.new.failures }) }
    ensures failed { result ≡ 2 → LeavesAsked arguments.now
        (I.remaining reader.old.inner) (I.remaining reader.new.inner)
        (W.contents writer.old.inner) (W.contents writer.new.inner)
        (record { before = reader.old.failures; after = reader.new.failures })
        (record { before = writer.old.failures; after = writer.new.failures }) }
{
    let words = match arguments {
        Ok(words) => words,
        Err(error) => {
            tell_unread(error, requests::USAGE, faults);
            return FAULT;
        }
    };
    let Some(request) = request_of(words.as_slice()) else {
        tell_usage(requests::USAGE, faults);
        return FAULT;
    };
    ask(alloc, request, reader, writer, faults)
}
