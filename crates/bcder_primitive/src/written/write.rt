//! Octets that are written whole.

ghost use Rattle.std.specs.Prelude.{◌≡◌, ◌≢◌, ◌≤◌, length, IfOk, IfErr, OnOk, OnErr};
ghost use Rattle.std.specs.IoError.{error_kind};
ghost use Rattle.std.specs.Io.KnownBytes.{Appends};
ghost use Rattle.bcder_primitive.specs.Writing.{Took, TookFront, TookNone};
ghost use Rattle.bcder_primitive.specs.declared.written.error.EncodeError.TheVariants.{Write as refusal};

use crate::written::EncodeError;
use std::io;
use std::io::{ErrorKind, Write};

// How many octets a writer took. One that takes none of some refuses them.
fn taken(count: usize) -> Result<usize, EncodeError>
    ensures some { IfOk result (λ n. (n ≡ count) × (1 ≤ n)) }
    ensures refused { IfErr result (λ e. (e ≡ refusal) × (count ≡ 0)) }
{
    if count == 0 {
        return Err(EncodeError::Write);
    }
    Ok(count)
}

// A write that was interrupted took nothing; each other error refuses the octets.
fn interrupted(error: &io::Error) -> Result<usize, EncodeError>
    ensures again { IfOk result (λ n. (n ≡ 0) × (error_kind error.now ≡ ErrorKind.Interrupted)) }
    ensures refused { IfErr result
        (λ e. (e ≡ refusal) × (error_kind error.now ≢ ErrorKind.Interrupted)) }
{
    if error.kind() == ErrorKind::Interrupted {
        return Ok(0);
    }
    Err(EncodeError::Write)
}

// How many octets a writer took, by what it answered: none where the write was interrupted. One that took none of some, or
// failed in another way, refuses them.
fn counted(answer: io::Result<usize>) -> Result<usize, EncodeError>
    ensures took { IfOk result (Took answer) }
    ensures refused { IfErr result (λ e. (e ≡ refusal) × TookNone answer) }
{
    match answer {
        Ok(count) => taken(count),
        Err(error) => interrupted(&error),
    }
}

/// Writes all the octets; a write that was interrupted is tried again. Where there are none nothing is refused.
pub fn write_octets<W: Write>(target: &mut W, octets: &[u8]) -> Result<(), EncodeError>
    ensures written { OnOk result
        (Appends (W.contents target.old) (W.contents target.new) octets.now) }
    ensures refused { IfErr result (λ e. (e ≡ refusal)
        × TookFront (λ text. text ≡ octets.now) (W.contents target.old) (W.contents target.new)) }
    ensures some { OnErr result (1 ≤ length octets.now) }
{
    let mut rest = octets;
    let mut turns = 0;
    while !rest.is_empty() {
        if turns == usize::MAX {
            return Err(EncodeError::Write);
        }
        turns += 1;
        let count = counted(target.write(rest))?;
        rest = &rest[count..];
    }
    Ok(())
}
