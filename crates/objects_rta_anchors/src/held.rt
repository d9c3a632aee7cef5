//! Sets of number resources: what certificates keep of them, what they are together, and whether they are what is stated.

ghost use Rattle.std.specs.Prelude.{◌≡◌, ◌++◌, ◌↔◌, ℕ, IfOk, IsTrue, OnOk};
ghost use Rattle.resources_ip.specs.resources_chain.Claims.{Keeps, Lists};
ghost use Rattle.resources_ip.specs.resources_chain.Sets.{InRuns};

use resources_as::{AsBlocks, AsBlocksBuilder, AsResources, InheritedAsResources};
use resources_chain::Overclaim;
use resources_ip::{InheritedIpResources, IpBlocks, IpBlocksBuilder, IpResources};
use std::alloc::{AllocError, Global};

/// A family of addresses.
#[derive(Clone, Copy, Debug, PartialEq, Eq)]
pub(crate) enum Family {
    V4,
    V6,
}

/// No address.
pub(crate) fn no_ip() -> IpBlocks
    ensures { (n : ℕ) → InRuns result n → ⊥ }
{
    IpBlocks::empty()
}

/// No AS number.
pub(crate) fn no_as() -> AsBlocks
    ensures { (n : ℕ) → InRuns result n → ⊥ }
{
    AsBlocks::empty()
}

/// What a certificate with those resources keeps of the addresses: nothing where they are missing, all where they are
/// inherited, else those that it lists.
pub(crate) fn keep_ip(
    alloc: Global,
    held: &IpBlocks,
    resources: &IpResources,
) -> Result<IpBlocks, AllocError>
    ensures { IfOk result (λ kept. (n : ℕ) → InRuns kept n
        ↔ (Keeps resources.now n × InRuns held.now n)) }
{
    match held.verify_issued(alloc, resources, Overclaim::Trim) {
        Ok(kept) => Ok(kept),
        Err(error) => {
            drop(error);
            Err(AllocError)
        }
    }
}

/// What a certificate with those resources keeps of the AS numbers.
pub(crate) fn keep_as(
    alloc: Global,
    held: &AsBlocks,
    resources: &AsResources,
) -> Result<AsBlocks, AllocError>
    ensures { IfOk result (λ kept. (n : ℕ) → InRuns kept n
        ↔ (Keeps resources.now n × InRuns held.now n)) }
{
    match held.verify_issued(alloc, resources, Overclaim::Trim) {
        Ok(kept) => Ok(kept),
        Err(error) => {
            drop(error);
            Err(AllocError)
        }
    }
}

/// Adds addresses to those that are gathered.
pub(crate) fn add_ip(all: &mut IpBlocksBuilder, held: &IpBlocks) -> Result<(), AllocError>
    ensures { OnOk result (all.new ≡ all.old ++ held.now) }
{
    let mut blocks = held.iter();
    while let Some(block) = blocks.next() {
        all.push(block)?;
    }
    Ok(())
}

/// Adds AS numbers to those that are gathered.
pub(crate) fn add_as(all: &mut AsBlocksBuilder, held: &AsBlocks) -> Result<(), AllocError>
    ensures { OnOk result (all.new ≡ all.old ++ held.now) }
{
    let mut blocks = held.iter();
    while let Some(block) = blocks.next() {
        all.push(block)?;
    }
    Ok(())
}

/// The addresses that are listed, which are none where they are missing or inherited.
pub(crate) fn listed_ip(resources: &IpResources) -> Result<IpBlocks, AllocError>
    ensures { IfOk result (λ set. (n : ℕ) → InRuns set n ↔ Lists resources.now n) }
{
    match IpBlocks::from_resources(resources) {
        Ok(set) => Ok(set),
        Err(InheritedIpResources::Inherited) => Ok(IpBlocks::empty()),
        Err(InheritedIpResources::Memory) => Err(AllocError),
    }
}

/// The AS numbers that are listed, which are none where they are missing or inherited.
pub(crate) fn listed_as(resources: &AsResources) -> Result<AsBlocks, AllocError>
    ensures { IfOk result (λ set. (n : ℕ) → InRuns set n ↔ Lists resources.now n) }
{
    match AsBlocks::from_resources(resources) {
        Ok(set) => Ok(set),
        Err(InheritedAsResources::Inherited) => Ok(AsBlocks::empty()),
        Err(InheritedAsResources::Memory) => Err(AllocError),
    }
}

/// Whether just these addresses are listed.
pub(crate) fn is_listed_ip(resources: &IpResources, held: &IpBlocks) -> Result<bool, AllocError>
    ensures { IfOk result (λ yes. IsTrue yes
        ↔ ((n : ℕ) → Lists resources.now n ↔ InRuns held.now n)) }
{
    Ok(listed_ip(resources)? == *held)
}

/// Whether just these AS numbers are listed.
pub(crate) fn is_listed_as(resources: &AsResources, held: &AsBlocks) -> Result<bool, AllocError>
    ensures { IfOk result (λ yes. IsTrue yes
        ↔ ((n : ℕ) → Lists resources.now n ↔ InRuns held.now n)) }
{
    Ok(listed_as(resources)? == *held)
}
