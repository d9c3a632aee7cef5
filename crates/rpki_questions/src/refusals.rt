//! `refusals`: all that is refused, and why.

ghost use Rattle.std.specs.Prelude.{◌≡◌, IfOk, false, map, true};
ghost use Rattle.rpki_validator.specs.rpki_rules.World.{run_world};
ghost use Rattle.rpki_digests.specs.Fips.{fips};
ghost use Rattle.rpki_questions.specs.Lists.{is_some_list};
ghost use Rattle.rpki_questions.specs.Orders.{refused_of};
ghost use Rattle.rpki_questions.specs.Refused.{TellsRefusals, refusals_text as text_of_refusals};

use crate::answers::Answer;
use crate::facts::push_each;
use crate::refused::{Refused, all_refused};
use rpki_reasons::json::push_array;
use rpki_validator::Bundle;
use std::alloc::{AllocError, Global};

// A line for each.
fn refusals_lines(alloc: Global, refused: &[Refused]) -> Result<Vec<u8>, AllocError>
    ensures { IfOk result
        (λ text. text.items ≡ text_of_refusals false (map refused_of refused.now)) }
{
    let mut text = Vec::new(alloc);
    push_each(alloc, &mut text, refused, false)?;
    Ok(text)
}

// {"refused":[..]}
fn refusals_object(alloc: Global, refused: &[Refused]) -> Result<Vec<u8>, AllocError>
    ensures { IfOk result
        (λ text. text.items ≡ text_of_refusals true (map refused_of refused.now)) }
{
    let mut values = Vec::new(alloc);
    push_each(alloc, &mut values, refused, true)?;
    let mut text = Vec::from_slice(alloc, b"{\"refused\":")?;
    push_array(&mut text, values.as_slice())?;
    text.extend_from_slice(b"}\n")?;
    Ok(text)
}

// The text of all that is refused.
fn refusals_text(alloc: Global, refused: &[Refused], json: bool) -> Result<Vec<u8>, AllocError>
    ensures { IfOk result
        (λ text. text.items ≡ text_of_refusals json (map refused_of refused.now)) }
{
    if json {
        refusals_object(alloc, refused)
    } else {
        refusals_lines(alloc, refused)
    }
}

// Whether something is refused.
fn is_some(refused: &[Refused]) -> bool
    ensures { result ≡ is_some_list (map refused_of refused.now) }
{
    !refused.is_empty()
}

/// All that is refused, on each chain with its reason; a yes where something is.
pub(crate) fn told_refusals(
    alloc: Global,
    bundle: &Bundle,
    json: bool,
) -> Result<Answer, AllocError>
    ensures { IfOk result (λ answer. TellsRefusals (run_world fips bundle.now) json answer.yes
        answer.text.items) }
{
    let found = all_refused(alloc, bundle)?;
    let found = found.as_slice();
    let text = refusals_text(alloc, found, json)?;
    let yes = is_some(found);
    Ok(Answer { text, yes })
}
