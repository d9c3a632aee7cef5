//! The providers of a customer, as the octets of their AS numbers (draft-ietf-sidrops-aspa-profile 3).

ghost use Rattle.std.specs.Prelude.{◌≡◌, ◌≢◌, ◌≤◌, true, IfErr, IfOk, OnErr, length};
ghost use Rattle.objects_payload.specs.bcder_source.declared.error.DecodeError.TheVariants.{Memory};
ghost use Rattle.objects_payload.specs.bcder_content.Captures.{rest_of};
ghost use Rattle.objects_payload.specs.bcder_content.Exact.{ReadsAs};
ghost use Rattle.objects_payload.specs.bcder_content.Here.{here};
ghost use Rattle.objects_payload.specs.bcder_content.InMode.{ReadsFields};
ghost use Rattle.objects_payload.specs.resources_asn.Listed.{InList, IsListOf};
ghost use Rattle.objects_payload.specs.Fields.{AreAllProviders, AreAny, IsProviders};
ghost use Rattle.objects_payload.specs.Listing.{Listing, one_listing};
ghost use Rattle.objects_payload.specs.Spelled.{SpellsAsIds};

use crate::aspa::iter::ProviderAsIter;
use crate::aspa::run::Run;
use resources_asn::decode::{Constructed, ContentError, DecodeError, Source};
use resources_asn::{Asn, Captured, SmallAsnSet};
use std::alloc::{AllocError, Global};
use std::marker::Model;

/// The providers of a customer: the octets of their AS numbers, as they stood. Contracts see the AS numbers, in their
/// order.
#[derive(Drop)]
pub struct ProviderAsSet {
    octets: Captured,
    ghost listing: { Listing octets } by { one_listing octets },
}

impl Model for ProviderAsSet {
    ghost use Rattle.std.specs.Prelude.{List, ℕ, ◌≤◌, length};

    ghost Value = { List ℕ };

    ghost view = { λ p. p.listing.0 };

    ghost invariant = { λ p. length p.listing.0 ≤ 10000 };
}

// Passes over the providers of a customer, up to the end of their content.
fn skip_providers<S: Source>(
    cons: &mut Constructed<S>,
    customer: Asn,
) -> Result<(), DecodeError<S::Error>>
    ensures reads { ReadsFields (λ x. x) (AreAny customer.value)
        (here S.rest cons.old) result (here S.rest cons.new) }
    ensures no_memory { IfErr result (λ e. e ≢ Memory) }
{
    let mut run = Run::new();
    while let Some(provider) = Asn::take_opt_from(cons)? {
        let Some(longer) = run.and(customer, provider) else {
            return Err((*cons).content_err(ContentError::from_static("invalid provider AS")));
        };
        run = longer;
    }
    if run.count == 0 {
        return Err((*cons).content_err(ContentError::from_static("no provider AS")));
    }
    Ok(())
}

// The providers of a customer that are left of a content, as they stand.
fn take_content<S: Source>(
    alloc: Global,
    cons: &mut Constructed<S>,
    customer: Asn,
) -> Result<ProviderAsSet, DecodeError<S::Error>>
    ensures { ReadsFields (λ l. l) (AreAllProviders customer.value)
        (here S.rest cons.old) result (here S.rest cons.new) }
{
    let octets = cons.capture(
        alloc,
        |cons|
            ensures reads { ReadsFields (λ x. x) (AreAny customer.value)
                (here rest_of cons.old) result (here rest_of cons.new) }
            ensures no_memory { IfErr result (λ e. e ≢ Memory) }
        { skip_providers(cons, customer) },
    )?;
    Ok(ProviderAsSet { octets })
}

impl ProviderAsSet {
    /// The list of a customer's providers that is next. Refused are an empty list, one of more than 10,000 AS numbers,
    /// AS numbers that don't ascend, the customer's own, and AS 0 with others.
    pub fn take_from<S: Source>(
        alloc: Global,
        cons: &mut Constructed<S>,
        customer: Asn,
    ) -> Result<Self, DecodeError<S::Error>>
        ensures reads { ReadsAs (λ l. l) (IsProviders customer.value)
            (here S.rest cons.old) result (here S.rest cons.new) }
        ensures failed { OnErr result ((here S.rest cons.new).failed ≡ true) }
    {
        cons.take_sequence(
            |cons|
                ensures { ReadsFields (λ l. l) (AreAllProviders customer.value)
                    (here S.rest cons.old) result (here S.rest cons.new) }
            { take_content(alloc, cons, customer) },
        )
    }

    // The octets of their AS numbers.
    pub(crate) fn octets(&self) -> &Captured
        ensures { ∥ SpellsAsIds result.now self.now ∥₁ }
    {
        &self.octets
    }

    /// The providers, in their order.
    pub fn iter(&self) -> ProviderAsIter<'_>
        ensures all { result ≡ self.now }
        ensures few { length result ≤ 10000 }
    {
        ProviderAsIter {
            mode: self.octets.mode(),
            octets: self.octets.as_slice(),
        }
    }

    /// How many providers there are.
    pub fn len(&self) -> usize
        ensures { result ≡ length self.now }
    {
        self.iter().count()
    }

    /// The providers, as a set. Refused for lack of memory alone.
    pub fn to_set(&self, alloc: Global) -> Result<SmallAsnSet, AllocError>
        ensures { IfOk result (IsListOf (InList self.now)) }
    {
        SmallAsnSet::from_iter(alloc, self.iter())
    }
}
