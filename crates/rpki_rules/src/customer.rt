//! Customers and their providers (the ASPA profile, draft-ietf-sidrops-aspa-profile 3).

ghost use Rattle.std.specs.Prelude.{◌≡◌, ◌∷◌, [], map, IfOk, OnOk};
ghost use Rattle.std.specs.List.Sorted.{IsStrictlySortedBy};
ghost use Rattle.rpki_rules.specs.Views.{provision_of, customer_of, provision_cmp};
ghost use Rattle.rpki_rules.specs.Report.{AreCustomersOf};
ghost use Rattle.rpki_rules.specs.Groups.{Adds};
ghost use Rattle.rpki_rules.specs.Words.{Mem};

use crate::Asn;
use std::alloc::{AllocError, Global};

/// A customer with one of its providers.
#[derive(Clone, Copy, Debug, PartialEq, Eq, PartialOrd, Ord, Hash)]
pub struct Provision {
    /// The customer AS.
    pub customer: Asn,
    /// The provider AS.
    pub provider: Asn,
}

/// A customer AS with all its providers, in ascending order.
#[derive(Debug, Drop)]
pub struct Customer {
    number: Asn,
    providers: Vec<Asn>,
}

impl Customer {
    // A customer with its first provider.
    fn new(alloc: Global, first: &Provision) -> Result<Self, AllocError>
        ensures { IfOk result (λ c. customer_of c ≡ record {
          number = (provision_of first.now).customer;
          providers = (provision_of first.now).provider ∷ [];
        }) }
    {
        let mut providers = Vec::new(alloc);
        providers.push(first.provider)?;
        Ok(Customer {
            number: first.customer,
            providers,
        })
    }

    /// The customer's AS number.
    pub fn number(&self) -> Asn
        ensures { result.value ≡ (customer_of self.now).number }
    {
        self.number
    }

    /// Its providers.
    pub fn providers(&self) -> &[Asn]
        ensures { map (λ a. a.value) result.now ≡ (customer_of self.now).providers }
    {
        &self.providers
    }
}

// Adds a provider to the last customer where it is that one's, and else a customer.
fn add(alloc: Global, all: &mut Vec<Customer>, pair: &Provision) -> Result<(), AllocError>
    ensures { OnOk result (Adds (map customer_of all.old.items) (provision_of pair.now)
        (map customer_of all.new.items)) }
{
    if let Some(mut last) = all.pop() {
        if last.number == pair.customer {
            last.providers.push(pair.provider)?;
            all.push(last)?;
            return Ok(());
        }
        all.push(last)?;
    }
    all.push(Customer::new(alloc, pair)?)?;
    Ok(())
}

/// The customers of provisions that ascend, each with its providers.
pub fn gather(alloc: Global, pairs: &[Provision]) -> Result<Vec<Customer>, AllocError>
    requires { IsStrictlySortedBy provision_cmp (map provision_of pairs.now) }
    ensures { IfOk result (λ cs. AreCustomersOf (Mem (map provision_of pairs.now))
        (map customer_of cs.items)) }
{
    let mut all = Vec::new(alloc);
    for pair in pairs {
        add(alloc, &mut all, pair)?;
    }
    Ok(all)
}
