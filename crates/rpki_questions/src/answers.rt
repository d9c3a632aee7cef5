//! Answers of a bundle.

ghost use Rattle.std.specs.Prelude.{IfOk};
ghost use Rattle.rpki_validator.specs.rpki_rules.World.{run_world};
ghost use Rattle.rpki_digests.specs.Fips.{fips};
ghost use Rattle.rpki_questions.specs.Answers.{IsAnswer};
ghost use Rattle.rpki_questions.specs.Requests.{asked_of};

use crate::costs::costed;
use crate::judging::{asked_witness, judged};
use crate::reaching::reached;
use crate::refusals::told_refusals;
use crate::requests::{Question, Request};
use crate::telling::told;
use rpki_validator::Bundle;
use std::alloc::{AllocError, Global};

/// An answer: its text, and whether it is a yes.
#[derive(Drop)]
pub(crate) struct Answer {
    /// What is printed.
    pub(crate) text: Vec<u8>,
    /// Whether the object is good, anything can be reached, there is any fact, something is refused, or all chains were counted.
    pub(crate) yes: bool,
}

/// The answer to what is asked of the bundle.
pub(crate) fn answer_to(
    alloc: Global,
    bundle: &Bundle,
    request: Request<'_>,
) -> Result<Answer, AllocError>
    ensures { IfOk result (λ answer. IsAnswer (run_world fips bundle.now) request.entry.json
        (asked_of request.entry.question) answer.yes answer.text.items) }
{
    let json = request.json;
    match request.question {
        Question::Judge {
            locator,
            object,
            anchor,
            below,
        } => {
            let witness = asked_witness(alloc, locator, object, anchor, below)?;
            judged(alloc, bundle, &witness, json)
        }
        Question::Reach { uris } => reached(alloc, bundle, uris, json),
        Question::Why { uri } => told(alloc, bundle, uri, json),
        Question::Refusals => told_refusals(alloc, bundle, json),
        Question::Cost { limit } => costed(alloc, bundle, limit, json),
    }
}
