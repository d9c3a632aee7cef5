//! IP resources of one family, as a certificate has them.

ghost use Rattle.std.specs.Prelude.{◌≡◌, ◌↔◌, ◌++◌, [], List, Result, IsTrue, IfOk, OnOk, OnErr, IsErrOf, Ok};
ghost use Rattle.std.specs.Fn.{FnOnceReturnsAtMut};
ghost use Rattle.resources_ip.specs.resources_chain.declared.choice.ResourcesChoice.{ResourcesChoice};
ghost use Rattle.resources_ip.specs.resources_chain.declared.choice.ResourcesChoice.TheVariants.{Missing, Inherit, Blocks};
ghost use Rattle.resources_ip.specs.resources_chain.Sets.{Run, IsRunsOf};
ghost use Rattle.resources_ip.specs.resources_chain.Claims.{HasMaximal, Lists};
ghost use Rattle.resources_ip.specs.resources_chain.Choices.{listed, IsChoiceOf};
ghost use Rattle.resources_ip.specs.resources_ip_prefix.declared.addr.AddressFamily.TheVariants.{Ipv4, Ipv6};
ghost use Rattle.resources_ip.specs.WholeSets.{AreWhole};
ghost use Rattle.resources_ip.specs.Written.{FitsChoice};

use crate::blocks::{IpBlocks, IpBlocksBuilder};
use resources_chain::{Claim, InheritedResources, ResourcesChoice, SharedChain};
use resources_ip_block::IpBlock;
use std::alloc::{AllocError, Global};
use std::marker::Model;
use thiserror::Error;

/// What a certificate has of the addresses of one family: nothing, those of its issuer, or a set
/// (RFC 3779 2.2.3.5).
#[derive(Clone, Debug, Drop, PartialEq, Eq)]
pub struct IpResources {
    choice: ResourcesChoice<IpBlocks>,
}

impl Model for IpResources {
    ghost use Rattle.std.specs.Prelude.{List};
    ghost use Rattle.resources_ip.specs.resources_chain.declared.choice.ResourcesChoice.{ResourcesChoice};
    ghost use Rattle.resources_ip.specs.resources_chain.Sets.{Run};

    ghost Value = { ResourcesChoice (List Run) };

    ghost view = { λ a. a.choice };

    ghost inverse = { λ choice. record { choice = choice } };
}

/// What a certificate has of the addresses of both families (RFC 3779 2.2.3.1).
#[derive(Clone, Debug, Drop, PartialEq, Eq)]
pub struct IpFamilies {
    /// Of IPv4 addresses.
    pub v4: IpResources,
    /// Of IPv6 addresses.
    pub v6: IpResources,
}

impl IpResources {
    /// The issuer's addresses (RFC 3779 2.2.3.5).
    pub fn inherit() -> Self
        ensures { result ≡ Inherit }
    {
        IpResources {
            choice: ResourcesChoice::Inherit,
        }
    }

    /// No addresses of this family are mentioned (RFC 3779 2.2.3.1).
    pub fn missing() -> Self
        ensures { result ≡ Missing }
    {
        IpResources {
            choice: ResourcesChoice::Missing,
        }
    }

    /// The addresses of the set, which may be none.
    pub fn blocks(blocks: IpBlocks) -> Self
        ensures choice { result ≡ Blocks blocks }
        ensures fits_v4 { AreWhole blocks → FitsChoice Ipv4 result }
        ensures fits_v6 { FitsChoice Ipv6 result }
    {
        blocks.runs_are_maximal();
        IpResources {
            choice: ResourcesChoice::Blocks(blocks),
        }
    }

    /// A set that is listed is so by its maximal runs. This is a law about the resources: nothing is done.
    pub fn runs_are_maximal(&self)
        ensures { HasMaximal self.now }
    {
        if let ResourcesChoice::Blocks(blocks) = &self.choice {
            blocks.runs_are_maximal();
        }
    }

    /// Whether the addresses are those of the issuer.
    pub fn is_inherited(&self) -> bool
        ensures { IsTrue result ↔ (self.now ≡ Inherit) }
    {
        self.choice.is_inherited()
    }

    /// Whether no addresses of this family are mentioned.
    pub fn is_missing(&self) -> bool
        ensures { IsTrue result ↔ (self.now ≡ Missing) }
    {
        matches!(self.choice, ResourcesChoice::Missing)
    }

    /// Whether addresses of this family are mentioned: inherited, or listed.
    pub fn is_present(&self) -> bool
        ensures { IsTrue result ↔ ¬ (self.now ≡ Missing) }
    {
        self.choice.is_present()
    }

    // The choice.
    pub(crate) fn choice(&self) -> &ResourcesChoice<IpBlocks>
        ensures { result.now ≡ self.now }
    {
        &self.choice
    }

    /// The set that is listed; none where the addresses are missing. Those of an issuer can't be stated.
    pub fn to_blocks(&self) -> Result<IpBlocks, InheritedIpResources>
        ensures set { IfOk result (λ s. IsRunsOf (Lists self.now) s) }
        ensures inherited { IsErrOf result InheritedIpResources.Inherited ↔ (self.now ≡ Inherit) }
        ensures present { OnErr result (¬ (self.now ≡ Missing)) }
    {
        match &self.choice {
            ResourcesChoice::Missing => Ok(IpBlocks::empty()),
            ResourcesChoice::Inherit => Err(InheritedIpResources::Inherited),
            ResourcesChoice::Blocks(blocks) => Ok(blocks.clone()?),
        }
    }
}

impl Claim for IpResources {
    type Block = IpBlock;

    ghost choice = { λ resources. resources };

    fn as_choice(&self) -> ResourcesChoice<&SharedChain<IpBlock>> {
        match &self.choice {
            ResourcesChoice::Missing => ResourcesChoice::Missing,
            ResourcesChoice::Inherit => ResourcesChoice::Inherit,
            ResourcesChoice::Blocks(blocks) => ResourcesChoice::Blocks(blocks.as_shared()),
        }
    }
}

/// Why the set of resources can't be stated.
#[derive(Clone, Copy, Debug, PartialEq, Eq, Error)]
pub enum InheritedIpResources {
    /// It is the issuer's.
    #[error("inherited IP resources")]
    Inherited,
    /// No memory is left.
    #[error("out of memory")]
    Memory,
}

impl From<AllocError> for InheritedIpResources {
    ghost use Rattle.resources_ip.specs.declared.resources.InheritedIpResources.TheVariants as Of;

    ghost from_gives = { λ _ e. e ≡ Of.Memory };

    fn from(_: AllocError) -> Self {
        InheritedIpResources::Memory
    }
}

impl From<InheritedResources> for InheritedIpResources {
    ghost use Rattle.resources_ip.specs.Choices.{same_cause};

    ghost from_gives = { λ cause e. e ≡ same_cause cause };

    fn from(cause: InheritedResources) -> Self {
        match cause {
            InheritedResources::Inherited => InheritedIpResources::Inherited,
            InheritedResources::Memory => InheritedIpResources::Memory,
        }
    }
}

/// Resources that are put together. Contracts see the choice, its blocks' runs as they came.
#[derive(Debug, Drop)]
pub struct IpResourcesBuilder {
    choice: ResourcesChoice<IpBlocksBuilder>,
}

impl Model for IpResourcesBuilder {
    ghost use Rattle.std.specs.Prelude.{List};
    ghost use Rattle.resources_ip.specs.resources_chain.declared.choice.ResourcesChoice.{ResourcesChoice};
    ghost use Rattle.resources_ip.specs.resources_chain.Sets.{Run};

    ghost Value = { ResourcesChoice (List Run) };

    ghost view = { λ a. a.choice };
}

impl Default for IpResourcesBuilder {
    ghost is_default = { λ builder. builder ≡ Missing };

    fn default() -> Self {
        IpResourcesBuilder::new()
    }
}

impl IpResourcesBuilder {
    /// Resources that are missing as yet.
    pub fn new() -> Self
        ensures { result ≡ Missing }
    {
        IpResourcesBuilder {
            choice: ResourcesChoice::Missing,
        }
    }

    /// The issuer's addresses, in place of what was there.
    pub fn inherit(&mut self)
        ensures { self.new ≡ Inherit }
    {
        self.choice = ResourcesChoice::Inherit;
    }

    /// The blocks that `build` pushes, after those that were listed already and in place of `inherit`. Where
    /// `build` or a growth of memory is refused nothing changes.
    pub fn blocks<F: FnOnce(&mut IpBlocksBuilder) -> Result<(), AllocError>>(
        &mut self,
        alloc: Global,
        build: F,
    ) -> Result<(), AllocError>
        requires { F.IsAlwaysCallable build }
        ensures ok { OnOk result
            ((pushed : List Run) × FnOnceReturnsAtMut F.FnOnce build [] (Ok tt) pushed
            × (self.new ≡ Blocks (listed self.old ++ pushed))) }
        ensures err { OnErr result (self.new ≡ self.old) }
    {
        let mut pushed = IpBlocksBuilder::new(alloc);
        build(&mut pushed)?;
        self.list(pushed)
    }

    // These blocks more, in place of `inherit`.
    fn list(&mut self, pushed: IpBlocksBuilder) -> Result<(), AllocError>
        ensures ok { OnOk result (self.new ≡ Blocks (listed self.old ++ pushed)) }
        ensures err { OnErr result (self.new ≡ self.old) }
    {
        match &mut self.choice {
            ResourcesChoice::Blocks(blocks) => blocks.append(&pushed),
            ResourcesChoice::Missing | ResourcesChoice::Inherit => {
                self.choice = ResourcesChoice::Blocks(pushed);
                Ok(())
            }
        }
    }

    /// The resources. Memory is wanted only for a list.
    pub fn finalize(self, alloc: Global) -> Result<IpResources, AllocError>
        ensures choice { IfOk result (λ resources. IsChoiceOf self resources) }
        ensures fits_v4 { IfOk result
            (λ resources. AreWhole (listed self) → FitsChoice Ipv4 resources) }
        ensures fits_v6 { IfOk result (FitsChoice Ipv6) }
        ensures listed { OnErr result ((runs : List Run) × (self ≡ Blocks runs)) }
    {
        Ok(match self.choice {
            ResourcesChoice::Missing => IpResources::missing(),
            ResourcesChoice::Inherit => IpResources::inherit(),
            ResourcesChoice::Blocks(blocks) => IpResources::blocks(blocks.finalize(alloc)?),
        })
    }
}
