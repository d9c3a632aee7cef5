//! AS resources, as a certificate has them.

ghost use Rattle.std.specs.Prelude.{◌≡◌, ◌↔◌, ◌++◌, [], List, Result, IsTrue, IfOk, OnOk, OnErr, IsErrOf, Ok};
ghost use Rattle.std.specs.Fn.{FnOnceReturnsAtMut};
ghost use Rattle.resources_as.specs.resources_chain.declared.choice.ResourcesChoice.TheVariants.{Missing, Inherit, Blocks};
ghost use Rattle.resources_as.specs.resources_chain.Sets.{Run, IsRunsOf};
ghost use Rattle.resources_as.specs.resources_chain.Claims.{HasMaximal, Lists};
ghost use Rattle.resources_as.specs.resources_chain.Choices.{listed, IsChoiceOf};

use crate::blocks::{AsBlocks, AsBlocksBuilder};
use resources_asn::as_block::AsBlock;
use resources_chain::{Claim, InheritedResources, ResourcesChoice, SharedChain};
use std::alloc::{AllocError, Global};
use std::fmt;
use std::marker::Model;
use thiserror::Error;

/// What a certificate has of AS numbers: nothing, those of its issuer, or a set (RFC 3779 section 3.2.3.2). Contracts
/// see the choice, its set as maximal runs.
#[derive(Clone, Debug, Drop, PartialEq, Eq)]
pub struct AsResources {
    choice: ResourcesChoice<AsBlocks>,
}

impl Model for AsResources {
    ghost use Rattle.std.specs.Prelude.{List};
    ghost use Rattle.resources_as.specs.resources_chain.declared.choice.ResourcesChoice.{ResourcesChoice};
    ghost use Rattle.resources_as.specs.resources_chain.Sets.{Run};

    ghost Value = { ResourcesChoice (List Run) };

    ghost view = { λ a. a.choice };

    ghost inverse = { λ choice. record { choice = choice } };
}

impl AsResources {
    /// The issuer's AS numbers (RFC 3779 section 3.2.3.3).
    pub fn inherit() -> Self
        ensures { result ≡ Inherit }
    {
        AsResources {
            choice: ResourcesChoice::Inherit,
        }
    }

    /// No AS numbers are mentioned (RFC 3779 section 3.2.3).
    pub fn missing() -> Self
        ensures { result ≡ Missing }
    {
        AsResources {
            choice: ResourcesChoice::Missing,
        }
    }

    /// The AS numbers of the set, which may be none.
    pub fn blocks(blocks: AsBlocks) -> Self
        ensures choice { result ≡ Blocks blocks }
        ensures maximal { HasMaximal result }
    {
        blocks.runs_are_maximal();
        AsResources {
            choice: ResourcesChoice::Blocks(blocks),
        }
    }

    /// A set that is listed is so by its maximal runs. This is a law about the resources: nothing is done.
    pub fn runs_are_maximal(&self)
        ensures { HasMaximal self.now }
    {
        if let ResourcesChoice::Blocks(blocks) = &self.choice {
            blocks.runs_are_maximal();
        }
    }

    /// Whether the AS numbers are those of the issuer.
    pub fn is_inherited(&self) -> bool
        ensures { IsTrue result ↔ (self.now ≡ Inherit) }
    {
        self.choice.is_inherited()
    }

    /// Whether no AS numbers are mentioned.
    pub fn is_missing(&self) -> bool
        ensures { IsTrue result ↔ (self.now ≡ Missing) }
    {
        matches!(self.choice, ResourcesChoice::Missing)
    }

    /// Whether AS numbers are mentioned: inherited, or listed.
    pub fn is_present(&self) -> bool
        ensures { IsTrue result ↔ ¬ (self.now ≡ Missing) }
    {
        self.choice.is_present()
    }

    /// The choice.
    pub(crate) fn choice(&self) -> &ResourcesChoice<AsBlocks>
        ensures { result.now ≡ self.now }
    {
        &self.choice
    }

    /// The set that is listed; none where AS numbers are missing. Those of an issuer can't be stated.
    pub fn to_blocks(&self) -> Result<AsBlocks, InheritedAsResources>
        ensures set { IfOk result (λ s. IsRunsOf (Lists self.now) s) }
        ensures inherited { IsErrOf result InheritedAsResources.Inherited ↔ (self.now ≡ Inherit) }
        ensures present { OnErr result (¬ (self.now ≡ Missing)) }
    {
        match &self.choice {
            ResourcesChoice::Missing => Ok(AsBlocks::empty()),
            ResourcesChoice::Inherit => Err(InheritedAsResources::Inherited),
            ResourcesChoice::Blocks(blocks) => Ok(blocks.clone()?),
        }
    }
}

/// `inherit`, the set, or nothing where AS numbers are missing.
impl fmt::Display for AsResources {
    ghost use Rattle.std.specs.Prelude.{Some};
    ghost use Rattle.resources_as.specs.Texts.{as_choice_text};

    ghost output = { λ resources. Some (as_choice_text resources) };

    fn fmt<W: fmt::Write>(&self, f: &mut fmt::Formatter<W>) -> fmt::Result {
        self.choice.fmt(f)
    }
}

impl Claim for AsResources {
    type Block = AsBlock;

    ghost choice = { λ resources. resources };

    fn as_choice(&self) -> ResourcesChoice<&SharedChain<AsBlock>> {
        match &self.choice {
            ResourcesChoice::Missing => ResourcesChoice::Missing,
            ResourcesChoice::Inherit => ResourcesChoice::Inherit,
            ResourcesChoice::Blocks(blocks) => ResourcesChoice::Blocks(blocks.as_shared()),
        }
    }
}

/// Why the set of AS resources can't be stated.
#[derive(Clone, Copy, Debug, PartialEq, Eq, Hash, Error)]
pub enum InheritedAsResources {
    /// It is the issuer's.
    #[error("inherited AS resources")]
    Inherited,
    /// A growth of memory was refused.
    #[error("out of memory")]
    Memory,
}

impl From<AllocError> for InheritedAsResources {
    ghost use Rattle.resources_as.specs.declared.resources.InheritedAsResources.TheVariants as Cause;

    ghost from_gives = { λ _ e. e ≡ Cause.Memory };

    fn from(_: AllocError) -> Self {
        InheritedAsResources::Memory
    }
}

impl From<InheritedResources> for InheritedAsResources {
    ghost use Rattle.resources_as.specs.Choices.{as_cause};

    ghost from_gives = { λ cause e. e ≡ as_cause cause };

    fn from(cause: InheritedResources) -> Self {
        match cause {
            InheritedResources::Inherited => InheritedAsResources::Inherited,
            InheritedResources::Memory => InheritedAsResources::Memory,
        }
    }
}

/// AS resources that are put together. Contracts see the choice, with the numbers of each block in the order in which
/// they came.
#[derive(Debug, Drop)]
pub struct AsResourcesBuilder {
    choice: ResourcesChoice<AsBlocksBuilder>,
}

impl Model for AsResourcesBuilder {
    ghost use Rattle.std.specs.Prelude.{List};
    ghost use Rattle.resources_as.specs.resources_chain.declared.choice.ResourcesChoice.{ResourcesChoice};
    ghost use Rattle.resources_as.specs.resources_chain.Sets.{Run};

    ghost Value = { ResourcesChoice (List Run) };

    ghost view = { λ a. a.choice };
}

impl Default for AsResourcesBuilder {
    ghost is_default = { λ builder. builder ≡ Missing };

    fn default() -> Self {
        AsResourcesBuilder::new()
    }
}

impl AsResourcesBuilder {
    /// Resources that are missing as yet.
    pub fn new() -> Self
        ensures { result ≡ Missing }
    {
        let choice = ResourcesChoice::Missing;
        AsResourcesBuilder { choice }
    }

    /// The issuer's AS numbers, in place of what was there.
    pub fn inherit(&mut self)
        ensures { self.new ≡ Inherit }
    {
        self.choice = ResourcesChoice::Inherit;
    }

    /// The blocks that `build` pushes, after those that were listed already and in place of `inherit`. Where
    /// `build` or a growth of memory is refused nothing changes.
    pub fn blocks<F: FnOnce(&mut AsBlocksBuilder) -> Result<(), AllocError>>(
        &mut self,
        alloc: Global,
        build: F,
    ) -> Result<(), AllocError>
        requires { F.IsAlwaysCallable build }
        ensures ok { OnOk result
            ((pushed : List Run) × FnOnceReturnsAtMut F.FnOnce build [] (Ok tt) pushed
            × (self.new ≡ Blocks (listed self.old ++ pushed))) }
        ensures err { OnErr result (self.new ≡ self.old) }
    {
        let mut pushed = AsBlocksBuilder::new(alloc);
        build(&mut pushed)?;
        self.list(pushed)
    }

    /// Lists these blocks too, in place of `inherit`.
    fn list(&mut self, pushed: AsBlocksBuilder) -> Result<(), AllocError>
        ensures ok { OnOk result (self.new ≡ Blocks (listed self.old ++ pushed)) }
        ensures err { OnErr result (self.new ≡ self.old) }
    {
        match &mut self.choice {
            ResourcesChoice::Blocks(blocks) => blocks.append(&pushed),
            ResourcesChoice::Missing | ResourcesChoice::Inherit => {
                self.choice = ResourcesChoice::Blocks(pushed);
                Ok(())
            }
        }
    }

    /// The resources. Memory is wanted only for a list.
    pub fn finalize(self, alloc: Global) -> Result<AsResources, AllocError>
        ensures choice { IfOk result (λ resources. IsChoiceOf self resources) }
        ensures maximal { IfOk result HasMaximal }
        ensures listed { OnErr result ((runs : List Run) × (self ≡ Blocks runs)) }
    {
        Ok(match self.choice {
            ResourcesChoice::Missing => AsResources::missing(),
            ResourcesChoice::Inherit => AsResources::inherit(),
            ResourcesChoice::Blocks(blocks) => AsResources::blocks(blocks.finalize(alloc)?),
        })
    }
}
