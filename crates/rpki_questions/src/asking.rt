//! A question, over any reader and writers.

ghost use Rattle.std.specs.Prelude.{◌≡◌, ◌⊎◌, ◌<◌, ◌-◌, ◌^◌, false, true, IfErr, IfOk};
ghost use Rattle.rpki_validator.specs.Run.{CountsReads, CountsWrites};
ghost use Rattle.rpki_questions.specs.Asking.{Answers, AskFails, EndsInFault};
ghost use Rattle.rpki_questions.specs.Requests.{asked_of};

use crate::answers::answer_to;
use crate::requests::Request;
use rpki_validator::{Counted, RunError, read_bundle, write_all};
use std::alloc::Global;
use std::io::{Read, Write};

/// The exit status of a yes: the object is good, something can be reached, or there is a fact.
pub const YES: u8 = 0;

/// The exit status of a no.
pub const NO: u8 = 1;

/// The exit status where something was at fault, which the faults say.
pub const FAULT: u8 = 2;

// Reads a bundle, and writes the answer; whether it is a yes.
fn ask_all<R: Read, W: Write>(
    alloc: Global,
    request: Request<'_>,
    reader: &mut Counted<R>,
    writer: &mut Counted<W>,
) -> Result<bool, RunError>
    requires few_reads { reader.old.failures < 2 ^ 64 - 1 }
    requires few_writes { writer.old.failures < 2 ^ 64 - 1 }

    ensures ok { IfOk result (λ yes. Answers request.entry.json
        (asked_of request.entry.question) yes
        (R.remaining reader.old.inner) (R.remaining reader.new.inner)
        (W.contents writer.old.inner) (W.contents writer.new.inner)) }
    ensures refused { IfErr result (λ e. AskFails request.entry.json
        (asked_of request.entry.question) e
        (R.remaining reader.old.inner) (R.remaining reader.new.inner)
        (W.contents writer.old.inner) (W.contents writer.new.inner)) }
    ensures reads { CountsReads result reader.old.failures reader.new.failures }
    ensures writes { CountsWrites result writer.old.failures writer.new.failures }
{
    let bundle = read_bundle(alloc, reader)?;
    let answer = answer_to(alloc, &bundle, request)?;
    match write_all(writer, answer.text.as_slice()) {
        Ok(()) => Ok(answer.yes),
        Err(_) => Err(RunError::Write),
    }
}

/// Reads a bundle to its end and writes the answer to what is asked of it; what is at fault is written to `faults`.
/// Answers the exit status.
pub fn ask<R: Read, W: Write, F: Write>(
    alloc: Global,
    request: Request<'_>,
    reader: &mut Counted<R>,
    writer: &mut Counted<W>,
    faults: &mut F,
) -> u8
    requires few_reads { reader.old.failures < 2 ^ 64 - 1 }
    requires few_writes { writer.old.failures < 2 ^ 64 - 1 }

    ensures status { (result ≡ 0) ⊎ ((result ≡ 1) ⊎ (result ≡ 2)) }
    ensures yes { result ≡ 0
        → Answers request.entry.json (asked_of request.entry.question) true
        (R.remaining reader.old.inner) (R.remaining reader.new.inner)
        (W.contents writer.old.inner) (W.contents writer.new.inner) }
    ensures no { result ≡ 1
        → Answers request.entry.json (asked_of request.entry.question) false
        (R.remaining reader.old.inner) (R.remaining reader.new.inner)
        (W.contents writer.old.inner) (W.contents writer.new.inner) }
    ensures answered_counts { result < 2
        → (reader.new.failures ≡ reader.old.failures)
        × (writer.new.failures ≡ writer.old.failures) }
    ensures failed { result ≡ 2
        → EndsInFault request.entry.json (asked_of request.entry.question)
        (R.remaining reader.old.inner) (R.remaining reader.new.inner)
        (W.contents writer.old.inner) (W.contents writer.new.inner)
        (record { before = reader.old.failures; after = reader.new.failures })
        (record { before = writer.old.failures; after = writer.new.failures }) }
{
    match ask_all(alloc, request, reader, writer) {
        Ok(true) => YES,
        Ok(false) => NO,
        Err(error) => {
            // What can't be stated is lost; the status says that there was something.
            let _ = writeln!(faults, "{error}");
            FAULT
        }
    }
}
