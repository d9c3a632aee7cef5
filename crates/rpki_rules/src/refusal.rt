//! Refusals: what the rules refuse, and why.

ghost use Rattle.std.specs.Prelude.{◌≡◌, refl};
ghost use Rattle.rpki_rules.specs.Lines.{cause_text};
ghost use Rattle.rpki_rules.specs.Views.{refusal_of};
ghost use Rattle.rpki_rules.specs.Orders.{refusals_cmp, refusals_eq, refusals_total, refusals_equiv, refusals_ties};
ghost use Rattle.std.specs.Cmp.{partial_equiv_from_equiv, po};
ghost use Rattle.std.specs.Ordering.{as_partial_cmp};

use crate::Cause;
use bytes::Bytes;
use std::cmp::Ordering;

/// A locator, by its name, or an object, by the lookup key of its URI, and why it is refused.
///
/// Refusals are ordered by name, and then by the text of the cause.
#[derive(Debug, Drop)]
pub struct Refusal {
    name: Bytes,
    cause: Cause,
}

impl Refusal {
    /// What has this name is refused for this cause.
    pub fn new(name: Bytes, cause: Cause) -> Self
        ensures { refusal_of result ≡ record { name = name; cause = cause } }
    {
        Refusal { name, cause }
    }

    /// The locator's name, or the lookup key.
    pub fn name(&self) -> &Bytes
        ensures { result.now ≡ (refusal_of self.now).name }
    {
        &self.name
    }

    /// Why it is refused.
    pub fn cause(&self) -> Cause
        ensures { result ≡ (refusal_of self.now).cause }
    {
        self.cause
    }
}

/// The word that stands for a cause in printed lines.
pub fn word_of(cause: Cause) -> &'static str
    ensures { result.now ≡ cause_text cause }
{
    match cause {
        Cause::Tal => "tal",
        Cause::Anchor => "anchor",
        Cause::Point => "point",
        Cause::Object => "object",
        Cause::Loop => "loop",
        Cause::Depth => "depth",
    }
}

impl PartialEq for Refusal {
    ghost eq = { refusals_eq };

    ghost laws = { partial_equiv_from_equiv refusals_equiv };

    fn eq(&self, other: &Refusal) -> bool {
        self.cmp(other) == Ordering::Equal
    }
}

impl Eq for Refusal {
    ghost laws = { refusals_equiv };
}

impl Ord for Refusal {
    ghost cmp = { refusals_cmp };

    ghost total = { refusals_total };

    ghost matches_partial_cmp = { λ r s. refl };

    ghost matches_eq = { refusals_ties };

    fn cmp(&self, other: &Refusal) -> Ordering {
        self.name
            .cmp(&other.name)
            .then(word_of(self.cause).cmp(word_of(other.cause)))
    }
}

impl PartialOrd for Refusal {
    ghost partial_cmp = { as_partial_cmp refusals_cmp };

    ghost laws = { po refusals_total refusals_ties };

    fn partial_cmp(&self, other: &Refusal) -> Option<Ordering> {
        Some(self.cmp(other))
    }
}
