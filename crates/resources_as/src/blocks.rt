//! Sets of AS numbers.

ghost use Rattle.std.specs.Prelude.{◌≡◌, ℕ, ◌≤◌, ◌↔◌, List, [], ◌∷◌, ◌++◌, IsTrue, IsErrOf, IfOk, IfErr, OnOk, OnErr, MatchResult, map, ⊤};
ghost use Rattle.std.specs.Cmp.{partial_equiv_from_equiv};
ghost use Rattle.std.specs.Iterator.{IsFinite, DrainsIf};
ghost use Rattle.resources_as.specs.resources_chain.Sets.{Run, InRuns, AreMaximal, IsRunsOf, InEither, InBoth, InFirstOnly, IsInside};
ghost use Rattle.resources_as.specs.resources_chain.Same.{runs_eq, runs_eq_equiv};
ghost use Rattle.resources_as.specs.resources_chain.declared.choice.ResourcesChoice.TheVariants.{Missing, Inherit};
ghost use Rattle.resources_as.specs.resources_chain.declared.claims.Overclaim.TheVariants.{Refuse};
ghost use Rattle.resources_as.specs.resources_chain.Claims.{Lists, FitsIn, Kept, Refuses, HeldAlong, FitsAlong, RefusesAlong};
ghost use Rattle.resources_asn.specs.Blocks.{as_run};
ghost use Rattle.resources_asn.specs.Counted.{runs_count};
ghost use Rattle.resources_as.specs.resources_asn.Listed.{IsListOf};
ghost use Rattle.resources_as.specs.resources_asn.Numbers.{last_number};

use crate::Asn;
use crate::claims::OverclaimedAsResources;
use crate::resources::{AsResources, InheritedAsResources};
use resources_asn::as_block::{AsBlock, AsBlocksIter, AsnIter};
use resources_chain::{ClaimError, Overclaim, OwnedChain, SharedChain};
use std::alloc::{AllocError, Global};
use std::marker::Model;

/// A set of AS numbers, as a list of maximal blocks, ascending (RFC 3779 section 3.2.3.4). Contracts see the runs of
/// the blocks. Copies share one list, and the empty set takes no memory.
#[derive(Debug, Default, Drop)]
pub struct AsBlocks {
    chain: SharedChain<AsBlock>,
}

impl Model for AsBlocks {
    ghost use Rattle.std.specs.Prelude.{List};
    ghost use Rattle.resources_as.specs.resources_chain.Sets.{Run};

    ghost Value = { List Run };

    ghost view = { λ a. a.chain };

    ghost inverse = { λ runs. record { chain = runs } };
}

impl AsBlocks {
    /// The set of no AS number.
    pub fn empty() -> Self
        ensures { IsRunsOf (λ n. ⊥) result }
    {
        AsBlocks {
            chain: SharedChain::empty(),
        }
    }

    /// The set of all AS numbers.
    pub fn all(alloc: Global) -> Result<Self, AllocError>
        ensures { IfOk result (λ a. IsRunsOf (λ n. n ≤ last_number) a) }
    {
        AsBlocks::from_vec(alloc, vec![in alloc; AsBlock::all()]?)
    }

    /// The set of all AS numbers of the blocks, which may come in any order, overlap and touch.
    fn from_vec(alloc: Global, blocks: Vec<AsBlock>) -> Result<Self, AllocError>
        ensures { IfOk result (λ a. IsRunsOf (InRuns (map as_run blocks.items)) a) }
    {
        AsBlocks::from_chain(alloc, OwnedChain::from_vec(alloc, blocks)?)
    }

    /// The set that a chain of blocks stands for.
    fn from_chain(alloc: Global, chain: OwnedChain<AsBlock>) -> Result<Self, AllocError>
        ensures { IfOk result (λ a. IsRunsOf (InRuns chain) a) }
    {
        Ok(AsBlocks {
            chain: SharedChain::from_owned(alloc, chain)?,
        })
    }

    /// The set of all AS numbers of the blocks that come, which may come in any order, overlap and touch.
    pub fn from_iter<I: Iterator<Item = AsBlock> + Drop>(
        alloc: Global,
        blocks: I,
    ) -> Result<Self, AllocError>
        requires can { I.can_next blocks }
        requires ends { IsFinite (I.remaining blocks) }
        ensures { IfOk result (λ a. (came : List AsBlock) × DrainsIf I.next_gives ⊤ blocks came
            × IsRunsOf (InRuns (map as_run came)) a) }
    {
        Ok(AsBlocks {
            chain: SharedChain::from_iter(alloc, blocks)?,
        })
    }

    /// Whether there are no AS numbers in the set.
    pub fn is_empty(&self) -> bool
        ensures { IsTrue result ↔ ((n : ℕ) → ¬ (InRuns self.now n)) }
    {
        self.chain.as_chain().is_empty()
    }

    /// The blocks are ascending, and neither overlap nor touch. This is a law about the set: nothing is done.
    pub fn runs_are_maximal(&self)
        ensures { AreMaximal self.now }
    {
        self.chain.runs_are_maximal();
    }

    /// The maximal blocks of the set, ascending.
    pub fn iter(&self) -> AsBlocksIter<'_>
        ensures runs { result ≡ self.now }
        ensures maximal { AreMaximal self.now }
    {
        AsBlocksIter::new(self.chain.as_chain().as_slice())
    }

    /// The AS numbers of the set, ascending.
    pub fn iter_asns(&self) -> AsnIter<'_>
        ensures { IsListOf (InRuns self.now) result }
    {
        AsnIter::new(self.chain.as_chain().as_slice())
    }

    /// How many AS numbers are in the set: 4294967296 where it has all.
    pub fn asn_count(&self) -> u64
        ensures { result ≡ runs_count self.now }
    {
        count_of(self.chain.as_chain().as_slice())
    }

    /// Whether the AS number is in the set.
    pub fn contains_asn(&self, asn: Asn) -> bool
        ensures { IsTrue result ↔ InRuns self.now asn.value }
    {
        self.chain.as_chain().contains_item(asn)
    }

    /// Whether all AS numbers of the other set are in this one.
    pub fn contains(&self, other: &AsBlocks) -> bool
        ensures { IsTrue result ↔ IsInside other.now self.now }
    {
        let (inner, outer) = (other.chain.as_chain(), self.chain.as_chain());
        inner.is_encompassed(&outer)
    }

    /// The AS numbers of one of the sets or of both.
    pub fn union(&self, alloc: Global, other: &AsBlocks) -> Result<AsBlocks, AllocError>
        ensures { IfOk result (λ a. IsRunsOf (InEither self.now other.now) a) }
    {
        let chain = self.chain.as_chain().union(alloc, &other.chain.as_chain())?;
        AsBlocks::from_chain(alloc, chain)
    }

    /// The AS numbers of both sets.
    pub fn intersection(&self, alloc: Global, other: &AsBlocks) -> Result<AsBlocks, AllocError>
        ensures { IfOk result (λ a. IsRunsOf (InBoth self.now other.now) a) }
    {
        let chain = self
            .chain
            .as_chain()
            .intersection(alloc, &other.chain.as_chain())?;
        AsBlocks::from_chain(alloc, chain)
    }

    /// Keeps of the set the AS numbers that are in the other set too. On an error the set is as it was.
    pub fn intersection_assign(&mut self, alloc: Global, other: &AsBlocks) -> Result<(), AllocError>
        ensures ok { OnOk result (IsRunsOf (InBoth self.old other.now) self.new) }
        ensures err { OnErr result (self.new ≡ self.old) }
    {
        *self = self.intersection(alloc, other)?;
        Ok(())
    }

    /// The AS numbers of this set that aren't in the other.
    pub fn difference(&self, alloc: Global, other: &AsBlocks) -> Result<AsBlocks, AllocError>
        ensures { IfOk result (λ a. IsRunsOf (InFirstOnly self.now other.now) a) }
    {
        let chain = self
            .chain
            .as_chain()
            .difference(alloc, &other.chain.as_chain())?;
        AsBlocks::from_chain(alloc, chain)
    }

    /// The set that the resources list; none where they are missing.
    pub fn from_resources(resources: &AsResources) -> Result<Self, InheritedAsResources>
        ensures set { IfOk result (λ s. IsRunsOf (Lists resources.now) s) }
        ensures inherited { IsErrOf result InheritedAsResources.Inherited
            ↔ (resources.now ≡ Inherit) }
        ensures present { OnErr result (¬ (resources.now ≡ Missing)) }
    {
        resources.to_blocks()
    }

    /// What a certificate holds that claims so much below an issuer that holds this set: nothing where AS resources
    /// are missing, the issuer's where they are inherited, and otherwise what it lists and the issuer holds. Under
    /// `Refuse` it may list nothing else (RFC 6487 section 7.2, RFC 8360 section 4.2).
    pub fn verify_issued(
        &self,
        alloc: Global,
        resources: &AsResources,
        mode: Overclaim,
    ) -> Result<AsBlocks, ClaimError<OverclaimedAsResources>>
        ensures fits { OnOk result (FitsIn mode resources.now (InRuns self.now)) }
        ensures held { IfOk result (λ held. IsRunsOf (Kept resources.now (InRuns self.now)) held) }
        ensures refused { IfErr result (Refuses mode resources.now (InRuns self.now)) }
        ensures present { OnErr result (¬ (resources.now ≡ Missing)) }
    {
        match self.chain.verify_issued(alloc, resources, mode) {
            Ok(chain) => Ok(AsBlocks { chain }),
            Err(error) => Err(overclaimed(error)),
        }
    }

    /// Whether an issuer that holds this set has all AS numbers that are listed, whatever the policy. Memory is wanted
    /// only to tell those that it doesn't have.
    pub fn verify_covered(
        &self,
        alloc: Global,
        resources: &AsResources,
    ) -> Result<(), ClaimError<OverclaimedAsResources>>
        ensures fits { OnOk result (FitsIn Refuse resources.now (InRuns self.now)) }
        ensures refused { IfErr result (Refuses Refuse resources.now (InRuns self.now)) }
        ensures unfit { OnErr result (¬ (FitsIn Refuse resources.now (InRuns self.now))) }
    {
        match self.chain.verify_covered(alloc, resources) {
            Ok(()) => Ok(()),
            Err(error) => Err(overclaimed(error)),
        }
    }

    /// What the last of these certificates holds, each of which is issued by the one before and the first by the
    /// root, which holds this set; or the first refusal. Without certificates it is the root's set.
    pub fn verify_path(
        &self,
        alloc: Global,
        path: &[(AsResources, Overclaim)],
    ) -> Result<AsBlocks, ClaimError<OverclaimedAsResources>>
        ensures fits { OnOk result (FitsAlong (InRuns self.now) path.now) }
        ensures held { IfOk result (λ held. IsRunsOf (HeldAlong (InRuns self.now) path.now) held) }
        ensures refused { IfErr result (RefusesAlong (InRuns self.now) path.now) }
    {
        match self.chain.verify_path(alloc, path) {
            Ok(chain) => Ok(AsBlocks { chain }),
            Err(error) => Err(overclaimed(error)),
        }
    }

    /// The blocks of the set, ascending.
    pub(crate) fn as_blocks(&self) -> &[AsBlock]
        ensures { map as_run result.now ≡ self.now }
    {
        self.chain.as_chain().as_slice()
    }

    /// The chain of the set.
    pub(crate) fn as_shared(&self) -> &SharedChain<AsBlock>
        ensures { result.now ≡ self.now }
    {
        &self.chain
    }
}

// The refusal with the set of the chain.
fn overclaimed(error: ClaimError<SharedChain<AsBlock>>) -> ClaimError<OverclaimedAsResources>
    ensures { result ≡ error }
{
    match error {
        ClaimError::Overclaimed(chain) => {
            ClaimError::Overclaimed(OverclaimedAsResources::new(AsBlocks { chain }))
        }
        ClaimError::Memory => ClaimError::Memory,
    }
}

impl Clone for AsBlocks {
    ghost is_clone = { λ set copy. copy ≡ set };

    /// A clone is an equal set. It takes no memory, but a count of its copies can be full.
    fn clone(&self) -> Result<Self, AllocError>
        ensures cases { MatchResult result (λ copy. copy ≡ self.now) (λ _. ¬ ⊥) }
        ensures maximal { IfOk result AreMaximal }
    {
        Ok(AsBlocks {
            chain: self.chain.clone()?,
        })
    }
}

/// How many AS numbers the blocks have.
fn count_of(blocks: &[AsBlock]) -> u64
    requires { AreMaximal (map as_run blocks.now) }
    ensures { result ≡ runs_count (map as_run blocks.now) }
{
    let mut count = 0;
    let mut rest = blocks;
    while let Some((block, behind)) = rest.split_first() {
        count += block.asn_count();
        rest = behind;
    }
    count
}

/// Sets of the same AS numbers are equal.
impl PartialEq for AsBlocks {
    ghost eq = { runs_eq };

    fn eq(&self, other: &Self) -> bool
        ensures value { result ≡ runs_eq self.now other.now }
        ensures set { IsTrue result ↔ ((n : ℕ) → InRuns self.now n ↔ InRuns other.now n) }
    {
        self.chain == other.chain
    }

    ghost laws = { partial_equiv_from_equiv runs_eq_equiv };
}

impl Eq for AsBlocks {
    ghost laws = { runs_eq_equiv };
}

/// Blocks that become a set of AS numbers. Contracts see the numbers of each block, in the order in which they came.
#[derive(Debug, Drop)]
pub struct AsBlocksBuilder {
    blocks: Vec<AsBlock>,
}

impl Model for AsBlocksBuilder {
    ghost use Rattle.std.specs.Prelude.{List, map};
    ghost use Rattle.resources_as.specs.resources_chain.Sets.{Run};
    ghost use Rattle.resources_asn.specs.Blocks.{as_run};

    ghost Value = { List Run };

    ghost view = { λ a. map as_run a.blocks.items };
}

impl AsBlocksBuilder {
    /// A builder with no blocks.
    pub fn new(alloc: Global) -> Self
        ensures { result ≡ [] }
    {
        AsBlocksBuilder {
            blocks: Vec::new(alloc),
        }
    }

    /// Adds a block, which may overlap others or touch them. On an error the builder is as it was.
    pub fn push(&mut self, block: AsBlock) -> Result<(), AllocError>
        ensures ok { OnOk result (self.new ≡ self.old ++ as_run block ∷ []) }
        ensures err { OnErr result (self.new ≡ self.old) }
    {
        self.blocks.push(block)?;
        Ok(())
    }

    /// Adds all blocks of another builder. On an error this one is as it was.
    pub(crate) fn append(&mut self, other: &AsBlocksBuilder) -> Result<(), AllocError>
        ensures ok { OnOk result (self.new ≡ self.old ++ other.now) }
        ensures err { OnErr result (self.new ≡ self.old) }
    {
        self.blocks.extend_from_slice(&other.blocks)?;
        Ok(())
    }

    /// The set of all AS numbers of the blocks.
    pub fn finalize(self, alloc: Global) -> Result<AsBlocks, AllocError>
        ensures { IfOk result (λ a. IsRunsOf (InRuns self) a) }
    {
        AsBlocks::from_vec(alloc, self.blocks)
    }
}
