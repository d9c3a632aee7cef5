//! Sets of addresses.

ghost use Rattle.std.specs.Prelude.{◌≡◌, ◌<◌, ◌++◌, ◌∷◌, [], ℕ, ◌↔◌, List, IsTrue, IsErrOf, IfOk, IfErr, OnOk, OnErr, map, ⊤, MatchResult};
ghost use Rattle.std.specs.Cmp.{partial_equiv_from_equiv};
ghost use Rattle.std.specs.Iterator.{IsFinite, DrainsIf, YieldsFirst, item_count};
ghost use Rattle.resources_ip.specs.resources_chain.Sets.{InRun, InRuns, AreMaximal, IsRunsOf, InEither, InBoth, InFirstOnly, IsInside};
ghost use Rattle.resources_ip.specs.resources_chain.Same.{runs_eq, runs_eq_equiv};
ghost use Rattle.resources_ip.specs.resources_chain.declared.choice.ResourcesChoice.{ResourcesChoice};
ghost use Rattle.resources_ip.specs.resources_chain.declared.claims.Overclaim.TheVariants.{Refuse};
ghost use Rattle.resources_ip.specs.resources_chain.Claims.{Lists, FitsIn, Kept, Refuses, HeldAlong, FitsAlong, RefusesAlong};
ghost use Rattle.resources_ip.specs.declared.resources.InheritedIpResources.{InheritedIpResources};
ghost use Rattle.resources_ip_block.specs.Block.{run_of_block};
ghost use Rattle.resources_ip.specs.resources_ip_prefix.Prefix.{run_of_prefix};
ghost use Rattle.resources_ip.specs.resources_ip_prefix.Wide.{wide_run};
ghost use Rattle.resources_ip.specs.WholeSets.{AreWhole};
ghost use Rattle.resources_ip.specs.Blocks.{IsAddress, blocks_left};

use crate::claims::OverclaimedIpResources;
use crate::resources::{InheritedIpResources, IpResources};
use resources_chain::{ClaimError, Overclaim, OwnedChain, SharedChain};
use resources_ip_block::{IpBlock, Prefix};
use std::alloc::{AllocError, Global};
use std::marker::Model;

/// A set of addresses of one family, as the shortest list of blocks, ascending (RFC 3779 2.2.3.6). Contracts see
/// the runs of the blocks.
#[derive(Debug, Default, Drop)]
pub struct IpBlocks {
    chain: SharedChain<IpBlock>,
}

impl Model for IpBlocks {
    ghost use Rattle.std.specs.Prelude.{List};
    ghost use Rattle.resources_ip.specs.resources_chain.Sets.{Run};

    ghost Value = { List Run };

    ghost view = { λ a. a.chain };

    ghost inverse = { λ runs. record { chain = runs } };
}

impl IpBlocks {
    /// The set without addresses.
    pub fn empty() -> Self
        ensures { IsRunsOf (λ n. ⊥) result }
    {
        IpBlocks {
            chain: SharedChain::empty(),
        }
    }

    /// The set of all addresses.
    pub fn all(alloc: Global) -> Result<Self, AllocError>
        ensures { IfOk result (λ s. IsRunsOf IsAddress s) }
    {
        let mut blocks = IpBlocksBuilder::new(alloc);
        blocks.push(IpBlock::all())?;
        blocks.finalize(alloc)
    }

    /// The set of the addresses of the blocks that come, in any order.
    pub fn from_iter<I: Iterator<Item = IpBlock> + Drop>(
        alloc: Global,
        blocks: I,
    ) -> Result<Self, AllocError>
        requires can { I.can_next blocks }
        requires ends { IsFinite (I.remaining blocks) }
        ensures { IfOk result (λ s. (came : List IpBlock) × DrainsIf I.next_gives ⊤ blocks came
            × IsRunsOf (InRuns (map run_of_block came)) s) }
    {
        Ok(IpBlocks {
            chain: SharedChain::from_iter(alloc, blocks)?,
        })
    }

    /// Whether there are no addresses.
    pub fn is_empty(&self) -> bool
        ensures { IsTrue result ↔ ((n : ℕ) → ¬ (InRuns self.now n)) }
    {
        self.chain.as_chain().is_empty()
    }

    /// Whether the set is over whole IPv4 addresses.
    pub fn is_whole_v4(&self) -> bool
        ensures { IsTrue result ↔ AreWhole self.now }
    {
        for block in self.iter() {
            if !block.is_whole_v4() {
                return false;
            }
        }
        true
    }

    /// The blocks are ascending, and neither overlap nor touch. This is a law about the set: nothing is done.
    pub fn runs_are_maximal(&self)
        ensures { AreMaximal self.now }
    {
        self.chain.runs_are_maximal();
    }

    /// The blocks, ascending.
    pub fn iter(&self) -> IpBlockIter<'_>
        ensures blocks { map run_of_block (blocks_left result) ≡ self.now }
        ensures maximal { AreMaximal self.now }
        ensures addresses { (n : ℕ) → InRuns self.now n → IsAddress n }
    {
        IpBlockIter {
            rest: self.chain.as_chain().as_slice(),
        }
    }

    /// Whether all addresses of the other set are in this one.
    pub fn contains(&self, other: &IpBlocks) -> bool
        ensures { IsTrue result ↔ IsInside other.now self.now }
    {
        let outer = self.chain.as_chain();
        let inner = other.chain.as_chain();
        inner.is_encompassed(&outer)
    }

    /// Whether all addresses of the block are in the set.
    pub fn contains_block(&self, block: &IpBlock) -> bool
        ensures { IsTrue result ↔ ((n : ℕ) → InRun (run_of_block block.now) n → InRuns self.now n) }
    {
        self.chain.as_chain().contains_block(block)
    }

    /// Whether all addresses of the prefix are in the set.
    pub fn contains_prefix(&self, prefix: Prefix) -> bool
        ensures { IsTrue result ↔ ((n : ℕ) → InRun (run_of_prefix prefix) n → InRuns self.now n) }
    {
        self.contains_block(&IpBlock::Prefix(prefix))
    }

    /// Whether all addresses of the prefix are in the set, which is one of the prefix's family.
    pub fn contains_addr_prefix(&self, prefix: resources_ip_block::ip_addr::Prefix) -> bool
        ensures { IsTrue result ↔ ((n : ℕ) → InRun (wide_run prefix) n → InRuns self.now n) }
    {
        self.contains_block(&IpBlock::from_addr_prefix(prefix))
    }

    /// The addresses of either set.
    pub fn union(&self, alloc: Global, other: &IpBlocks) -> Result<Self, AllocError>
        ensures { IfOk result (λ s. IsRunsOf (InEither self.now other.now) s) }
    {
        let chain = self.chain.as_chain().union(alloc, &other.chain.as_chain())?;
        IpBlocks::from_owned(alloc, chain)
    }

    /// The addresses of both sets.
    pub fn intersection(&self, alloc: Global, other: &IpBlocks) -> Result<Self, AllocError>
        ensures { IfOk result (λ s. IsRunsOf (InBoth self.now other.now) s) }
    {
        let chain = self
            .chain
            .as_chain()
            .intersection(alloc, &other.chain.as_chain())?;
        IpBlocks::from_owned(alloc, chain)
    }

    /// Leaves the addresses of both sets. On an error the set stays as it was.
    pub fn intersection_assign(&mut self, alloc: Global, other: &IpBlocks) -> Result<(), AllocError>
        ensures ok { OnOk result (IsRunsOf (InBoth self.old other.now) self.new) }
        ensures err { OnErr result (self.new ≡ self.old) }
    {
        *self = self.intersection(alloc, other)?;
        Ok(())
    }

    /// The addresses that aren't in the other set.
    pub fn difference(&self, alloc: Global, other: &IpBlocks) -> Result<Self, AllocError>
        ensures { IfOk result (λ s. IsRunsOf (InFirstOnly self.now other.now) s) }
    {
        let chain = self
            .chain
            .as_chain()
            .difference(alloc, &other.chain.as_chain())?;
        IpBlocks::from_owned(alloc, chain)
    }

    /// What a certificate holds that claims so much below an issuer that holds this set: nothing where its
    /// resources are missing, the issuer's where they are inherited, and otherwise what it lists and the issuer
    /// holds. Under `Refuse` it may list nothing else (RFC 6487 7.2, RFC 8360 4.2).
    pub fn verify_issued(
        &self,
        alloc: Global,
        resources: &IpResources,
        mode: Overclaim,
    ) -> Result<IpBlocks, ClaimError<OverclaimedIpResources>>
        ensures fits { OnOk result (FitsIn mode resources.now (InRuns self.now)) }
        ensures held { IfOk result (λ held. IsRunsOf (Kept resources.now (InRuns self.now)) held) }
        ensures refused { IfErr result (Refuses mode resources.now (InRuns self.now)) }
        ensures present { OnErr result (¬ (resources.now ≡ ResourcesChoice.Missing)) }
    {
        match self.chain.verify_issued(alloc, resources, mode) {
            Ok(chain) => Ok(IpBlocks { chain }),
            Err(error) => Err(overclaimed(error)),
        }
    }

    /// Whether an issuer that holds this set has all addresses that are listed, whatever the policy. Memory is wanted
    /// only to tell those that it doesn't have.
    pub fn verify_covered(
        &self,
        alloc: Global,
        resources: &IpResources,
    ) -> Result<(), ClaimError<OverclaimedIpResources>>
        ensures fits { OnOk result (FitsIn Refuse resources.now (InRuns self.now)) }
        ensures refused { IfErr result (Refuses Refuse resources.now (InRuns self.now)) }
        ensures unfit { OnErr result (¬ (FitsIn Refuse resources.now (InRuns self.now))) }
    {
        match self.chain.verify_covered(alloc, resources) {
            Ok(()) => Ok(()),
            Err(error) => Err(overclaimed(error)),
        }
    }

    /// What the last of these certificates holds, each of which is issued by the one before and the first by the
    /// root, which holds this set; or the first refusal. Without certificates it is the root's set.
    pub fn verify_path(
        &self,
        alloc: Global,
        path: &[(IpResources, Overclaim)],
    ) -> Result<IpBlocks, ClaimError<OverclaimedIpResources>>
        ensures fits { OnOk result (FitsAlong (InRuns self.now) path.now) }
        ensures held { IfOk result (λ held. IsRunsOf (HeldAlong (InRuns self.now) path.now) held) }
        ensures refused { IfErr result (RefusesAlong (InRuns self.now) path.now) }
    {
        match self.chain.verify_path(alloc, path) {
            Ok(chain) => Ok(IpBlocks { chain }),
            Err(error) => Err(overclaimed(error)),
        }
    }

    /// The set that the resources list; none where they are missing.
    pub fn from_resources(resources: &IpResources) -> Result<Self, InheritedIpResources>
        ensures set { IfOk result (λ s. IsRunsOf (Lists resources.now) s) }
        ensures inherited { IsErrOf result InheritedIpResources.Inherited
            ↔ (resources.now ≡ ResourcesChoice.Inherit) }
        ensures present { OnErr result (¬ (resources.now ≡ ResourcesChoice.Missing)) }
    {
        resources.to_blocks()
    }

    // The blocks, ascending.
    pub(crate) fn as_blocks(&self) -> &[IpBlock]
        ensures { map run_of_block result.now ≡ self.now }
    {
        self.chain.as_chain().as_slice()
    }

    // The chain.
    pub(crate) fn as_shared(&self) -> &SharedChain<IpBlock>
        ensures { result.now ≡ self.now }
    {
        &self.chain
    }

    // The set of a chain.
    fn from_owned(alloc: Global, chain: OwnedChain<IpBlock>) -> Result<Self, AllocError>
        ensures { IfOk result (λ s. IsRunsOf (InRuns chain) s) }
    {
        Ok(IpBlocks {
            chain: SharedChain::from_owned(alloc, chain)?,
        })
    }
}

// The error with the set of the chain.
fn overclaimed(error: ClaimError<SharedChain<IpBlock>>) -> ClaimError<OverclaimedIpResources>
    ensures { result ≡ error }
{
    match error {
        ClaimError::Overclaimed(chain) => {
            ClaimError::Overclaimed(OverclaimedIpResources::new(IpBlocks { chain }))
        }
        ClaimError::Memory => ClaimError::Memory,
    }
}

impl Clone for IpBlocks {
    ghost is_clone = { λ set copy. copy ≡ set };

    /// A clone is an equal set. It takes no memory, but a count of its copies can be full.
    fn clone(&self) -> Result<Self, AllocError>
        ensures cases { MatchResult result (λ copy. copy ≡ self.now) (λ _. ¬ ⊥) }
        ensures maximal { IfOk result AreMaximal }
    {
        Ok(IpBlocks {
            chain: self.chain.clone()?,
        })
    }
}

impl PartialEq for IpBlocks {
    ghost eq = { runs_eq };

    fn eq(&self, other: &Self) -> bool
        ensures value { result ≡ runs_eq self.now other.now }
        ensures set { IsTrue result ↔ ((n : ℕ) → InRuns self.now n ↔ InRuns other.now n) }
    {
        self.chain == other.chain
    }

    ghost laws = { partial_equiv_from_equiv runs_eq_equiv };
}

impl Eq for IpBlocks {
    ghost laws = { runs_eq_equiv };
}

/// The blocks of a set of addresses, ascending.
#[derive(Clone, Copy, Debug)]
pub struct IpBlockIter<'a> {
    rest: &'a [IpBlock],
}

impl Iterator for IpBlockIter<'_> {
    type Item = IpBlock;

    ghost next_gives = { YieldsFirst blocks_left };

    ghost remaining = { item_count blocks_left };

    fn next(&mut self) -> Option<IpBlock> {
        let (first, rest) = self.rest.split_first()?;
        self.rest = rest;
        Some(*first)
    }
}

/// Blocks that are gathered into a set, in any order. Contracts see their runs as they came.
#[derive(Debug, Drop)]
pub struct IpBlocksBuilder {
    blocks: Vec<IpBlock>,
}

impl Model for IpBlocksBuilder {
    ghost use Rattle.std.specs.Prelude.{List, map};
    ghost use Rattle.resources_ip.specs.resources_chain.Sets.{Run};
    ghost use Rattle.resources_ip_block.specs.Block.{run_of_block};
    ghost use Rattle.resources_ip.specs.resources_ip_prefix.Prefix.{run_of_prefix};
    ghost use Rattle.resources_ip.specs.resources_ip_prefix.Wide.{wide_run};

    ghost Value = { List Run };

    ghost view = { λ a. map run_of_block a.blocks.items };
}

impl IpBlocksBuilder {
    /// No blocks.
    pub fn new(alloc: Global) -> Self
        ensures { result ≡ [] }
    {
        IpBlocksBuilder {
            blocks: Vec::new(alloc),
        }
    }

    /// One block more. On an error nothing is added.
    pub fn push(&mut self, block: IpBlock) -> Result<(), AllocError>
        ensures ok { OnOk result (self.new ≡ self.old ++ run_of_block block ∷ []) }
        ensures err { OnErr result (self.new ≡ self.old) }
    {
        self.blocks.push(block)?;
        Ok(())
    }

    /// All blocks of the other one more. On an error nothing is added.
    pub(crate) fn append(&mut self, other: &IpBlocksBuilder) -> Result<(), AllocError>
        ensures ok { OnOk result (self.new ≡ self.old ++ other.now) }
        ensures err { OnErr result (self.new ≡ self.old) }
    {
        self.blocks.extend_from_slice(&other.blocks)?;
        Ok(())
    }

    /// The set of the addresses of all blocks.
    pub fn finalize(self, alloc: Global) -> Result<IpBlocks, AllocError>
        ensures { IfOk result (λ s. IsRunsOf (InRuns self) s) }
    {
        IpBlocks::from_owned(alloc, OwnedChain::from_vec(alloc, self.blocks)?)
    }
}
