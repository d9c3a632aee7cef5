//! The list of extensions.

ghost use Rattle.std.specs.Prelude.{◌≡◌, OnErr, true};
ghost use Rattle.certs_extension.specs.bcder_tree.Tags.{sequence_tag};
ghost use Rattle.certs_extension.specs.bcder_content.Exact.{ReadsAs};
ghost use Rattle.certs_extension.specs.bcder_content.Grammar.{Inside};
ghost use Rattle.certs_extension.specs.bcder_content.Here.{here};
ghost use Rattle.certs_extension.specs.bcder_content.InMode.{ReadsFields};
ghost use Rattle.certs_extension.specs.bcder_content.Words.{Gathers};
ghost use Rattle.certs_extension.specs.Extensions.{IsExtension};
ghost use Rattle.certs_extension.specs.Refusals.{Told};
ghost use Rattle.certs_extension.specs.Slots.{AreSlots};

use crate::claims::slots::Slots;
use crate::decode::{Constructed, ContentError, DecodeError, Source};
use crate::{Extension, ExtensionError};
use std::alloc::Global;

// The refusal of a content for an extension's fault.
fn refusal<S: Source>(cons: &Constructed<S>, fault: ExtensionError) -> DecodeError<S::Error>
    ensures { Told fault result }
{
    if fault.is_memory() {
        return DecodeError::Memory;
    }
    cons.content_err(ContentError::from(fault))
}

// All extensions of a list.
fn take_all<S: Source>(
    alloc: Global,
    cons: &mut Constructed<S>,
) -> Result<Slots, DecodeError<S::Error>>
    ensures { ReadsFields (λ s. s) (λ m. Gathers (IsExtension m) AreSlots)
        (here S.rest cons.old) result (here S.rest cons.new) }
{
    let mut slots = Slots::new();
    loop {
        let next = match Extension::take_opt_from(alloc, cons) {
            Ok(next) => next,
            Err(error) => {
                drop(slots);
                return Err(error);
            }
        };
        let Some(extension) = next else {
            return Ok(slots);
        };
        let put = slots.put(alloc, extension);
        if let Err(fault) = put {
            drop(slots);
            return Err(refusal(cons, fault));
        }
    }
}

/// All extensions of a certificate, `SEQUENCE OF Extension`, in whatever order they stand
/// (RFC 5280 4.1.2.9): each known one once at most and as critical as it has to be, resources in one
/// version alone, and none that is critical and not known (RFC 6487 4.8).
pub fn take_extensions<S: Source>(
    alloc: Global,
    cons: &mut Constructed<S>,
) -> Result<Slots, DecodeError<S::Error>>
    ensures reads { ReadsAs (λ s. s)
        (Inside sequence_tag (Gathers (IsExtension (here S.rest cons.old).mode) AreSlots))
        (here S.rest cons.old) result (here S.rest cons.new) }
    ensures failed { OnErr result ((here S.rest cons.new).failed ≡ true) }
{
    cons.take_sequence(
        |cons|
            ensures { ReadsFields (λ s. s) (λ m. Gathers (IsExtension m) AreSlots)
                (here S.rest cons.old) result (here S.rest cons.new) }
        { take_all(alloc, cons) },
    )
}
