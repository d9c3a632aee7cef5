//! The printed lines of a report.

ghost use Rattle.std.specs.Prelude.{◌≡◌, IfOk};
ghost use Rattle.rpki_rules.specs.World.{World};
ghost use Rattle.rpki_rules.specs.Output.{IsOutput};
ghost use Rattle.rpki_rules.specs.Report.{IsReport};
ghost use Rattle.rpki_rules.specs.Texts.{report_text};

mod customers;
mod origins;
mod refusals;

use crate::Report;
use std::alloc::{AllocError, Global};

/// The lines of origins, then of customers, then of refusals, each with a line feed at its end.
pub fn render(alloc: Global, report: &Report) -> Result<Vec<u8>, AllocError>
    ensures lines { IfOk result (λ text. text.items ≡ report_text report.now) }
    ensures output { IfOk result (λ text.
        (w : World) → IsReport w report.now → IsOutput w text.items) }
{
    let mut text = Vec::new(alloc);
    origins::push_all(alloc, &mut text, report.origins())?;
    customers::push_all(alloc, &mut text, report.customers())?;
    refusals::push_all(&mut text, report.refusals())?;
    Ok(text)
}
