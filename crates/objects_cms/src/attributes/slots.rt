//! What attributes say, each kind once at most (RFC 6488 2.1.6.4).

ghost use Rattle.std.specs.Prelude.{◌≡◌, ◌≢◌, [], None, Some, IfErr, OnErr, OnOk, true};
ghost use Rattle.objects_cms.specs.declared.attributes.invalid.InvalidSignedAttr.TheVariants.{Duplicate};
ghost use Rattle.objects_cms.specs.bcder_content.Here.{here};
ghost use Rattle.objects_cms.specs.bcder_content.InMode.{ReadsFields};
ghost use Rattle.objects_cms.specs.bcder_content.Words.{Gathers};
ghost use Rattle.objects_cms.specs.Said.{IsSaid};
ghost use Rattle.objects_cms.specs.Slots.{Adds, AreSlots, Refuses};

use crate::attributes::invalid::InvalidSignedAttr;
use crate::attributes::said::Said;
use objects_payload::forms::decode::{Constructed, DecodeError, Source};
use objects_payload::forms::{OctetString, Oid, Time};
use std::alloc::Global;

/// What the attributes said so far.
#[derive(Drop)]
pub struct Slots {
    /// The type of the content.
    pub content_type: Option<Oid>,
    /// The digest of the content.
    pub message_digest: Option<OctetString>,
    /// When it was signed.
    pub signing_time: Option<Time>,
    /// When it was signed, in seconds from 1970 on.
    pub binary_signing_time: Option<u64>,
}

// Fills a slot, which has to be empty.
fn fill<T: Drop>(slot: &mut Option<T>, value: T) -> Result<(), InvalidSignedAttr>
    ensures empty { OnOk result (slot.old ≡ None) }
    ensures filled { OnOk result (slot.new ≡ Some value) }
    ensures refused { OnErr result (slot.old ≢ None) }
    ensures told { IfErr result (λ e. e ≡ Duplicate) }
    ensures same { OnErr result (slot.new ≡ slot.old) }
{
    if slot.is_some() {
        return Err(InvalidSignedAttr::Duplicate);
    }
    *slot = Some(value);
    Ok(())
}

impl Slots {
    /// No attribute was there.
    pub fn new() -> Slots
        ensures { AreSlots [] result }
    {
        Slots {
            content_type: None,
            message_digest: None,
            signing_time: None,
            binary_signing_time: None,
        }
    }

    /// One more attribute; a second one of a kind is refused, and the slots are as they were.
    pub fn put(&mut self, said: Said) -> Result<(), InvalidSignedAttr>
        ensures ok { OnOk result (Adds said self.old self.new) }
        ensures refused { OnErr result (Refuses said self.old) }
        ensures told { IfErr result (λ e. e ≡ Duplicate) }
        ensures same { OnErr result (self.new ≡ self.old) }
    {
        match said {
            Said::ContentType(oid) => fill(&mut self.content_type, oid),
            Said::MessageDigest(digest) => fill(&mut self.message_digest, digest),
            Said::SigningTime(time) => fill(&mut self.signing_time, time),
            Said::BinarySigningTime(seconds) => fill(&mut self.binary_signing_time, seconds),
        }
    }

    /// All attributes of a content, in whatever order they stand.
    pub fn take_from<S: Source>(
        alloc: Global,
        cons: &mut Constructed<S>,
    ) -> Result<Slots, DecodeError<S::Error>>
        ensures reads { ReadsFields (λ s. s) (λ m. Gathers (IsSaid m) AreSlots)
            (here S.rest cons.old) result (here S.rest cons.new) }
        ensures failed { OnErr result ((here S.rest cons.new).failed ≡ true) }
    {
        let mut slots = Slots::new();
        while let Some(said) = Said::take_opt_from(alloc, cons)? {
            if let Err(invalid) = slots.put(said) {
                cons.fail();
                return Err((*cons).content_err(invalid.into()));
            }
        }
        Ok(slots)
    }
}
