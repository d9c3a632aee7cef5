//! The lines of refusals.

ghost use Rattle.std.specs.Prelude.{◌≡◌, ◌++◌, OnOk, flat_map};
ghost use Rattle.rpki_rules.specs.Lines.{refusal_line};
ghost use Rattle.rpki_rules.specs.Views.{refusal_of};

use crate::Refusal;
use crate::refusal::word_of;
use std::alloc::AllocError;

// refused rsync://example.net/a.roa object
fn push_line(text: &mut Vec<u8>, refusal: &Refusal) -> Result<(), AllocError>
    ensures { OnOk result (text.new.items ≡
        text.old.items ++ refusal_line (refusal_of refusal.now)) }
{
    text.extend_from_slice(b"refused ")?;
    text.extend_from_slice(refusal.name().as_slice())?;
    text.extend_from_slice(b" ")?;
    text.extend_from_slice(word_of(refusal.cause()).as_bytes())?;
    text.extend_from_slice(b"\n")
}

/// Appends a line for each refusal.
pub(crate) fn push_all(text: &mut Vec<u8>, refusals: &[Refusal]) -> Result<(), AllocError>
    ensures { OnOk result (text.new.items ≡
        text.old.items ++ flat_map (λ r. refusal_line (refusal_of r)) refusals.now) }
{
    for refusal in refusals {
        push_line(text, refusal)?;
    }
    Ok(())
}
