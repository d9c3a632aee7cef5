//! Sets of resources of all three kinds.

ghost use Rattle.std.specs.Prelude.{◌≡◌, ◌≢◌, [], ◌≤◌, ◌↔◌, ◌==◌, IsTrue, IsErrOf, IfOk, MatchResult};
ghost use Rattle.std.proofs.Common.{rules};
ghost use Rattle.resources.specs.resources_chain.Sets.{InEither, InBoth, InFirstOnly};
ghost use Rattle.resources.specs.resources_chain.Claims.{HasMaximal, Lists};
ghost use Rattle.resources.specs.resources_chain.declared.choice.ResourcesChoice.TheVariants.{Blocks};
ghost use Rattle.resources.specs.resources_asn.Numbers.{last_number};
ghost use Rattle.resources.specs.resources_ip_prefix.declared.addr.AddressFamily.TheVariants.{Ipv4, Ipv6};
ghost use Rattle.resources.specs.resources_ip.Blocks.{IsAddress};
ghost use Rattle.resources.specs.resources_ip.Written.{FitsChoice};
ghost use Rattle.resources.specs.resources_as.Texts.{as_set_text};
ghost use Rattle.resources.specs.resources_ip.Texts.{ip_set_text};
ghost use Rattle.resources.specs.Resources.{Resources, AreRunsOf, Combines, HasNone, IsNone, AreInside, HaveSame, AreChanges, SomeInherit, ListsWhole};
ghost use Rattle.resources.specs.Texts.{AreTextsOf, AreListTexts, ReadsTexts, RefusesTexts};
ghost use Rattle.resources.specs.declared.set.error.FromStrError.TheVariants.{Memory};

use crate::set::diff::ResourceDiff;
use crate::set::error::{FromStrError, InheritError};
use crate::set::family::blocks::{Ipv4Blocks, Ipv6Blocks};
use crate::set::family::joined::{difference, intersection, union};
use resources_as::{AsBlocks, AsResources};
use resources_ip::IpResources;
use std::alloc::{AllocError, Global};
use std::fmt;
use std::marker::Model;

/// A set of AS numbers, IPv4 addresses and IPv6 addresses. Contracts see the maximal runs of each kind.
#[derive(Debug, Drop)]
pub struct ResourceSet {
    asn: AsBlocks,
    ipv4: Ipv4Blocks,
    ipv6: Ipv6Blocks,
}

impl Model for ResourceSet {
    ghost use Rattle.resources.specs.Resources.{Resources};

    ghost Value = { Resources };

    ghost view = { λ set. record { asn = set.asn; ipv4 = set.ipv4; ipv6 = set.ipv6 } };
}

impl ResourceSet {
    /// The set of these AS numbers and addresses.
    pub fn new(asn: AsBlocks, ipv4: Ipv4Blocks, ipv6: Ipv6Blocks) -> Self
        ensures { result ≡ record { asn = asn; ipv4 = ipv4; ipv6 = ipv6 } }
    {
        ResourceSet { asn, ipv4, ipv6 }
    }

    /// The set of three texts, each of blocks with `,` or `, ` between them, in any order. It has none of a kind exactly
    /// where that kind's text is empty. The first faulty text says what is wrong; `Memory` comes only where none is faulty.
    pub fn from_strs(alloc: Global, asn: &str, ipv4: &str, ipv6: &str) -> Result<Self, FromStrError>
        ensures no_asn { IfOk result (λ set. IsNone set.asn ↔ (asn.now ≡ [])) }
        ensures no_ipv4 { IfOk result (λ set. IsNone set.ipv4 ↔ (ipv4.now ≡ [])) }
        ensures no_ipv6 { IfOk result (λ set. IsNone set.ipv6 ↔ (ipv6.now ≡ [])) }
        ensures reads { ReadsTexts asn.now ipv4.now ipv6.now result }
    {
        check_texts(asn, ipv4, ipv6)?;
        read_texts(alloc, asn, ipv4, ipv6)
    }

    /// The three texts that are printed of the set are read as the same set. This is a law about the set: nothing is
    /// done.
    pub fn text_is_read(&self)
        ensures { AreTextsOf (as_set_text self.now.asn) (ip_set_text Ipv4 self.now.ipv4)
            (ip_set_text Ipv6 self.now.ipv6) self.now }
    {
        self.asn.text_is_read();
        self.ipv4.text_is_read();
        self.ipv6.text_is_read();
    }

    /// The set that the resources of a certificate list; none of a kind that is missing. The IPv4 resources are over
    /// whole IPv4 addresses, as all are that were read as IPv4, and those that `Ipv4Blocks` gives; of others
    /// `IpBlocks::is_whole_v4` answers it.
    pub fn from_resources(
        asn: &AsResources,
        ipv4: &IpResources,
        ipv6: &IpResources,
    ) -> Result<Self, InheritError>
        requires { ListsWhole ipv4.now }
        ensures set { IfOk result
            (λ set. AreRunsOf (Lists asn.now) (Lists ipv4.now) (Lists ipv6.now) set) }
        ensures inherited { IsErrOf result InheritError.Inherited
            ↔ SomeInherit asn.now ipv4.now ipv6.now }
    {
        if asn.is_inherited() || ipv4.is_inherited() || ipv6.is_inherited() {
            return Err(InheritError::Inherited);
        }
        match (asn.to_blocks(), ipv4.to_blocks(), ipv6.to_blocks()) {
            (Ok(asn), Ok(ipv4), Ok(ipv6)) => Ok(ResourceSet {
                asn,
                ipv4: Ipv4Blocks::from_blocks(ipv4),
                ipv6: Ipv6Blocks::from_blocks(ipv6),
            }),
            _ => Err(InheritError::Memory),
        }
    }

    /// The set without AS numbers and addresses.
    pub fn empty() -> Self
        ensures { HasNone result }
    {
        ResourceSet {
            asn: AsBlocks::empty(),
            ipv4: Ipv4Blocks::empty(),
            ipv6: Ipv6Blocks::empty(),
        }
    }

    /// The set of all AS numbers and addresses.
    pub fn all(alloc: Global) -> Result<Self, AllocError>
        ensures { IfOk result (λ set. AreRunsOf (λ n. n ≤ last_number) IsAddress IsAddress set) }
    {
        Ok(ResourceSet {
            asn: AsBlocks::all(alloc)?,
            ipv4: Ipv4Blocks::all(alloc)?,
            ipv6: Ipv6Blocks::all(alloc)?,
        })
    }

    /// Whether there are no AS numbers and no addresses.
    pub fn is_empty(&self) -> bool
        ensures { IsTrue result ↔ HasNone self.now }
    {
        self.asn.is_empty() && self.ipv4.as_blocks().is_empty() && self.ipv6.as_blocks().is_empty()
    }

    /// Sets the AS numbers.
    pub fn set_asn(&mut self, asn: AsBlocks)
        ensures { self.new ≡ record self.old { asn = asn } }
    {
        self.asn = asn;
    }

    /// Sets the IPv4 addresses.
    pub fn set_ipv4(&mut self, ipv4: Ipv4Blocks)
        ensures { self.new ≡ record self.old { ipv4 = ipv4 } }
    {
        self.ipv4 = ipv4;
    }

    /// Sets the IPv6 addresses.
    pub fn set_ipv6(&mut self, ipv6: Ipv6Blocks)
        ensures { self.new ≡ record self.old { ipv6 = ipv6 } }
    {
        self.ipv6 = ipv6;
    }

    /// The AS numbers.
    pub fn asn(&self) -> &AsBlocks
        ensures { result.now ≡ self.now.asn }
    {
        &self.asn
    }

    /// The AS numbers as resources that list them, even where there are none.
    pub fn to_as_resources(&self) -> Result<AsResources, AllocError>
        ensures choice { IfOk result (λ resources. resources ≡ Blocks self.now.asn) }
        ensures maximal { IfOk result HasMaximal }
    {
        Ok(AsResources::blocks(self.asn.clone()?))
    }

    /// The IPv4 addresses.
    pub fn ipv4(&self) -> &Ipv4Blocks
        ensures { result.now ≡ self.now.ipv4 }
    {
        &self.ipv4
    }

    /// The IPv4 addresses as resources that list them, even where there are none.
    pub fn to_ip_resources_v4(&self) -> Result<IpResources, AllocError>
        ensures choice { IfOk result (λ resources. resources ≡ Blocks self.now.ipv4) }
        ensures fits { IfOk result (FitsChoice Ipv4) }
        ensures whole { IfOk result ListsWhole }
    {
        self.ipv4.to_ip_resources()
    }

    /// The IPv6 addresses.
    pub fn ipv6(&self) -> &Ipv6Blocks
        ensures { result.now ≡ self.now.ipv6 }
    {
        &self.ipv6
    }

    /// The IPv6 addresses as resources that list them, even where there are none.
    pub fn to_ip_resources_v6(&self) -> Result<IpResources, AllocError>
        ensures choice { IfOk result (λ resources. resources ≡ Blocks self.now.ipv6) }
        ensures fits { IfOk result (FitsChoice Ipv6) }
    {
        self.ipv6.to_ip_resources()
    }

    /// Whether all AS numbers and addresses of the other set are in this one.
    pub fn contains(&self, other: &ResourceSet) -> bool
        ensures { IsTrue result ↔ AreInside other.now self.now }
    {
        self.asn.contains(&other.asn)
            && self.ipv4.as_blocks().contains(other.ipv4.as_blocks())
            && self.ipv6.as_blocks().contains(other.ipv6.as_blocks())
    }

    /// The AS numbers and addresses of either set.
    pub fn union(&self, alloc: Global, other: &ResourceSet) -> Result<ResourceSet, AllocError>
        ensures { IfOk result (λ set. Combines InEither self.now other.now set) }
    {
        Ok(ResourceSet {
            asn: self.asn.union(alloc, &other.asn)?,
            ipv4: union(alloc, &self.ipv4, &other.ipv4)?,
            ipv6: union(alloc, &self.ipv6, &other.ipv6)?,
        })
    }

    /// The AS numbers and addresses of both sets.
    pub fn intersection(
        &self,
        alloc: Global,
        other: &ResourceSet,
    ) -> Result<ResourceSet, AllocError>
        ensures { IfOk result (λ set. Combines InBoth self.now other.now set) }
    {
        Ok(ResourceSet {
            asn: self.asn.intersection(alloc, &other.asn)?,
            ipv4: intersection(alloc, &self.ipv4, &other.ipv4)?,
            ipv6: intersection(alloc, &self.ipv6, &other.ipv6)?,
        })
    }

    /// What this set has more than the other, and what it lacks of it.
    pub fn difference(&self, alloc: Global, other: &ResourceSet) -> Result<ResourceDiff, AllocError>
        ensures { IfOk result (λ diff. AreChanges self.now other.now diff) }
    {
        let added = self.without(alloc, other)?;
        let removed = other.without(alloc, self)?;
        Ok(ResourceDiff::new(added, removed))
    }

    /// The AS numbers and addresses of this set that aren't in the other.
    fn without(&self, alloc: Global, other: &ResourceSet) -> Result<ResourceSet, AllocError>
        ensures { IfOk result (λ set. Combines InFirstOnly self.now other.now set) }
    {
        Ok(ResourceSet {
            asn: self.asn.difference(alloc, &other.asn)?,
            ipv4: difference(alloc, &self.ipv4, &other.ipv4)?,
            ipv6: difference(alloc, &self.ipv6, &other.ipv6)?,
        })
    }
}

// Whether the three texts are those of a set, in their order; no memory is taken.
fn check_texts(asn: &str, ipv4: &str, ipv6: &str) -> Result<(), FromStrError>
    ensures { MatchResult result (λ _. AreListTexts asn.now ipv4.now ipv6.now)
        (λ e. RefusesTexts asn.now ipv4.now ipv6.now e × (e ≢ Memory)) }
{
    AsBlocks::check_str(asn).map_err(FromStrError::Asn)?;
    Ipv4Blocks::check_str(ipv4).map_err(FromStrError::Ipv4)?;
    Ipv6Blocks::check_str(ipv6).map_err(FromStrError::Ipv6)?;
    Ok(())
}

// The set of three texts without a fault: no other refusal than that of memory is left.
fn read_texts(alloc: Global, asn: &str, ipv4: &str, ipv6: &str) -> Result<ResourceSet, FromStrError>
    requires { AreListTexts asn.now ipv4.now ipv6.now }
    ensures no_asn { IfOk result (λ set. IsNone set.asn ↔ (asn.now ≡ [])) }
    ensures no_ipv4 { IfOk result (λ set. IsNone set.ipv4 ↔ (ipv4.now ≡ [])) }
    ensures no_ipv6 { IfOk result (λ set. IsNone set.ipv6 ↔ (ipv6.now ≡ [])) }
    ensures reads { ReadsTexts asn.now ipv4.now ipv6.now result }
{
    let Ok(asn) = AsBlocks::from_str(alloc, asn) else {
        return Err(FromStrError::Memory);
    };
    let Ok(ipv4) = Ipv4Blocks::from_str(alloc, ipv4) else {
        return Err(FromStrError::Memory);
    };
    let Ok(ipv6) = Ipv6Blocks::from_str(alloc, ipv6) else {
        return Err(FromStrError::Memory);
    };
    Ok(ResourceSet { asn, ipv4, ipv6 })
}

impl Default for ResourceSet {
    ghost is_default = { HasNone };

    fn default() -> Self {
        ResourceSet::empty()
    }
}

impl Clone for ResourceSet {
    ghost is_clone = { λ set copy. copy ≡ set };

    /// A clone is an equal set. It takes no memory, but a count of its copies can be full.
    fn clone(&self) -> Result<Self, AllocError> {
        Ok(ResourceSet {
            asn: self.asn.clone()?,
            ipv4: self.ipv4.clone()?,
            ipv6: self.ipv6.clone()?,
        })
    }
}

/// Sets of the same AS numbers and addresses are equal.
impl PartialEq for ResourceSet {
    ghost use Rattle.resources.specs.Equal.{sets_eq, sets_eq_equiv};
    ghost use Rattle.std.specs.Cmp.{partial_equiv_from_equiv};

    ghost eq = { sets_eq };

    ghost laws = { partial_equiv_from_equiv sets_eq_equiv };

    fn eq(&self, other: &Self) -> bool
        ensures value { result ≡ sets_eq self.now other.now }
        ensures set { IsTrue result ↔ HaveSame self.now other.now }
    {
        self.asn == other.asn && self.ipv4 == other.ipv4 && self.ipv6 == other.ipv6
    }
}

impl Eq for ResourceSet {
    ghost use Rattle.resources.specs.Equal.{sets_eq_equiv};

    ghost laws = { sets_eq_equiv };
}

/// `asn: '..', ipv4: '..', ipv6: '..'`.
impl fmt::Display for ResourceSet {
    ghost use Rattle.std.specs.Prelude.{Some};
    ghost use Rattle.resources.specs.Texts.{resources_text};

    ghost output = { λ set. Some (resources_text set) };

    fn fmt<W: fmt::Write>(&self, f: &mut fmt::Formatter<W>) -> fmt::Result {
        write!(
            f,
            "asn: '{}', ipv4: '{}', ipv6: '{}'",
            self.asn, self.ipv4, self.ipv6
        )
    }
}
