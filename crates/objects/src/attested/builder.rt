//! The content of a provider attestation that is put together (draft-ietf-sidrops-aspa-profile 3).

ghost use Rattle.std.specs.Prelude.{◌≡◌, ◌⊎◌, ◌↔◌, [], IfOk, IsTrue, OnErr, OnOk};
ghost use Rattle.std.specs.Result.{IsErrAnd};
ghost use Rattle.objects_payload.specs.Resources.{ListsAlone};
ghost use Rattle.objects.specs.objects_payload.Aspas.{IsLawful};
ghost use Rattle.objects.specs.resources_asn.Chosen.{values};
ghost use Rattle.objects.specs.resources_asn.Listed.{AreDistinct, InList, IsAscending, IsListOf};
ghost use Rattle.objects.specs.Providers.{IsDuplicate, IsZeroAlone};

use crate::attested::error::{DuplicateProviderAs, ProviderError};
use certs_extension::{AsBlock, AsBlocksBuilder, AsResources};
use resources_asn::{Asn, SmallAsnSet};
use std::alloc::{AllocError, Global};
use std::marker::Model;

// At most so many providers are attested.
const MAX_PROVIDERS: usize = 10_000;

/// A provider attestation that is put together: a customer and its providers, each once, in ascending order. Contracts see
/// the attestation.
#[derive(Debug, Drop)]
pub struct AspaBuilder {
    pub(crate) customer_as: Asn,
    pub(crate) providers: SmallAsnSet,
}

impl Model for AspaBuilder {
    ghost use Rattle.objects.specs.objects_payload.Aspas.{Aspa};

    ghost Value = { Aspa };

    ghost view = { λ b. record {
      customer = b.customer_as.value;
      providers = b.providers;
    } };
}

// Whether AS 0 isn't there with others.
fn is_zero_alone(providers: &SmallAsnSet) -> bool
    ensures { IsTrue result ↔ IsZeroAlone providers.now }
{
    !providers.contains(Asn::from_u32(0)) || providers.len() == 1
}

impl AspaBuilder {
    /// A customer without providers.
    pub fn empty(alloc: Global, customer_as: Asn) -> Self
        ensures { result ≡ record { customer = customer_as.value; providers = [] } }
    {
        AspaBuilder {
            customer_as,
            providers: SmallAsnSet::new(alloc),
        }
    }

    /// A customer with these providers, in any order. It is refused just where one stands twice.
    pub fn new(customer_as: Asn, providers: Vec<Asn>) -> Result<Self, DuplicateProviderAs>
        ensures customer { IfOk result (λ b. b.customer ≡ customer_as.value) }
        ensures providers { IfOk result
            (λ b. IsListOf (InList (values providers.items)) b.providers) }
        ensures distinct { OnOk result (AreDistinct providers.items) }
        ensures duplicate { OnErr result (¬ (AreDistinct providers.items)) }
    {
        let count = providers.len();
        let providers = SmallAsnSet::from_vec(providers);
        if providers.len() != count {
            drop(providers);
            return Err(DuplicateProviderAs);
        }
        Ok(AspaBuilder {
            customer_as,
            providers,
        })
    }

    /// One provider more. It is `Duplicate` just where it is there already; where it is refused nothing changes.
    pub fn add_provider(&mut self, provider: Asn) -> Result<(), ProviderError>
        ensures customer { self.new.customer ≡ self.old.customer }
        ensures added { OnOk result (IsListOf
            (λ n. (n ≡ provider.value) ⊎ InList self.old.providers n) self.new.providers) }
        ensures duplicate { IsErrAnd result IsDuplicate
            ↔ InList self.old.providers provider.value }
        ensures err { OnErr result (self.new ≡ self.old) }
    {
        if self.providers.insert(provider)? {
            Ok(())
        } else {
            Err(ProviderError::Duplicate(DuplicateProviderAs))
        }
    }

    /// The customer.
    pub fn customer_as(&self) -> Asn
        ensures { result.value ≡ self.now.customer }
    {
        self.customer_as
    }

    /// The providers, in ascending order.
    pub fn providers(&self) -> &[Asn]
        ensures same { values result.now ≡ self.now.providers }
        ensures ascending { IsAscending self.now.providers }
    {
        self.providers.as_slice()
    }

    /// Whether a reader accepts the providers: there are some, at most 10,000, the customer isn't one of them, and AS 0 is
    /// alone (draft-ietf-sidrops-aspa-profile 3).
    pub fn has_lawful_providers(&self) -> bool
        ensures { IsTrue result ↔ IsLawful self.now }
    {
        let providers = self.providers();
        !providers.is_empty()
            && providers.len() <= MAX_PROVIDERS
            && !self.providers.contains(self.customer_as)
            && is_zero_alone(&self.providers)
    }

    /// The customer's AS number, as resources. Refused for lack of memory alone.
    pub fn as_resources(&self, alloc: Global) -> Result<AsResources, AllocError>
        ensures { IfOk result (ListsAlone self.now.customer) }
    {
        let mut builder = AsBlocksBuilder::new(alloc);
        builder.push(AsBlock::Id(self.customer_as))?;
        let blocks = builder.finalize(alloc)?;
        let resources = AsResources::blocks(blocks);
        Ok(resources)
    }
}
