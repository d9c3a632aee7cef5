//! Validity: from one moment to another, both included (RFC 5280 4.1.2.5).

ghost use Rattle.std.specs.Prelude.{◌≡◌, ◌≢◌, ◌↔◌, ◌<◌, ◌≤◌, ℕ, true, IsOk, IfErr, IfNone, IfSome, OnErr, Err};
ghost use Rattle.certs_basics.specs.bcder_tree.Tags.{sequence_tag};
ghost use Rattle.certs_basics.specs.bcder_tree.Tree.{primitive};
ghost use Rattle.certs_basics.specs.bcder_source.declared.error.DecodeError.TheVariants.{Memory};
ghost use Rattle.certs_basics.specs.bcder_content.Exact.{ReadsAs, ReadsAllAs};
ghost use Rattle.certs_basics.specs.bcder_content.Here.{here};
ghost use Rattle.certs_basics.specs.Forms.{IsValidity, IsValidityBody, WritesTime};
ghost use Rattle.certs_basics.specs.Periods.{IsBetween, IsLater, IsTimeNumber, IsValidAt, as_fields};

use crate::time::error::ValidityError;
use crate::time::text::VariedTime;
use crate::time::time::Time;
use bcder::decode::{Constructed, DecodeError, Source};
use bcder::{Tag, encode};
use std::marker::Model;

/// From one moment to another, both included.
#[derive(Clone, Copy, Debug, PartialEq, Eq, Hash)]
pub struct Validity {
    not_before: Time,
    not_after: Time,
}

impl Model for Validity {
    ghost use Rattle.certs_basics.specs.Periods.{Period};

    ghost Value = { Period };

    ghost view = { λ v. record { not_before = v.not_before; not_after = v.not_after } };

    ghost inverse = { λ p. record { not_before = p.not_before; not_after = p.not_after } };
}

/// What is written of a validity: a SEQUENCE of its two moments.
pub type ValidityValue = encode::Constructed<(VariedTime, VariedTime)>;

impl Validity {
    /// From the first moment to the second.
    pub fn new(not_before: Time, not_after: Time) -> Self
        ensures { result ≡ record { not_before = not_before; not_after = not_after } }
    {
        Validity {
            not_before,
            not_after,
        }
    }

    /// From `now` until that many seconds later; where the number is negative, from that much earlier until `now`.
    /// None where the years 0000 to 9999 have no such moment.
    pub fn from_secs(now: Time, seconds: i64) -> Option<Self>
        ensures some { IfSome result
            (λ v. (then : ℕ) × IsLater now seconds then × IsBetween now then v) }
        ensures none { IfNone result
            ((then : ℕ) → IsLater now seconds then → IsTimeNumber then → ⊥) }
    {
        let then = now.moved(seconds)?;
        Some(Validity::new(now.min(then), now.max(then)))
    }

    /// The beginning.
    pub fn not_before(self) -> Time
        ensures { result ≡ self.not_before }
    {
        let Validity { not_before, .. } = self;
        not_before
    }

    /// The end.
    pub fn not_after(self) -> Time
        ensures { result ≡ self.not_after }
    {
        let Validity { not_after, .. } = self;
        not_after
    }

    /// Refuses a moment by where it lies outside: before the beginning, or after the end. Both ends are inside.
    pub fn verify_at(self, now: Time) -> Result<(), ValidityError>
        ensures inside { IsOk result ↔ IsValidAt self now }
        ensures early { (result ≡ Err ValidityError.NotYetValid) ↔ (now < self.not_before) }
        ensures late { (result ≡ Err ValidityError.Expired)
            ↔ ((self.not_before ≤ now) × (self.not_after < now)) }
    {
        if now < self.not_before {
            return Err(ValidityError::NotYetValid);
        }
        if now > self.not_after {
            return Err(ValidityError::Expired);
        }
        Ok(())
    }

    /// A SEQUENCE of the two moments (RFC 5280 4.1.2.5).
    pub fn take_from<S: Source>(cons: &mut Constructed<S>) -> Result<Self, DecodeError<S::Error>>
        ensures reads { ReadsAs as_fields IsValidity (here S.rest cons.old) result
            (here S.rest cons.new) }
        ensures failed { OnErr result ((here S.rest cons.new).failed ≡ true) }
        ensures no_memory { IfErr result (λ e. e ≢ Memory) }
    {
        cons.take_sequence(
            |cons|
                ensures reads { ReadsAllAs as_fields IsValidityBody (here S.rest cons.old) result
                    (here S.rest cons.new) }
                ensures no_memory { IfErr result (λ e. e ≢ Memory) }
            {
                let not_before = Time::take_from(cons)?;
                let not_after = Time::take_from(cons)?;
                Ok(Validity {
                    not_before,
                    not_after,
                })
            },
        )
    }

    /// What is written of the validity.
    pub fn encode(self) -> ValidityValue
        ensures tag { result.tag ≡ sequence_tag }
        ensures not_before { WritesTime self.not_before
            (primitive result.inner.0.tag result.inner.0.content.0) }
        ensures not_after { WritesTime self.not_after
            (primitive result.inner.1.tag result.inner.1.content.0) }
    {
        encode::Constructed {
            tag: Tag::SEQUENCE,
            inner: (
                self.not_before.encode_varied(),
                self.not_after.encode_varied(),
            ),
        }
    }
}
