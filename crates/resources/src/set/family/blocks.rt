//! Sets of addresses of one family.

ghost use Rattle.std.specs.Prelude.{◌≡◌, ◌↔◌, ℕ, [], List, IsTrue, IfOk, MatchResult, map, ⊤, Some};
ghost use Rattle.std.specs.Cmp.{partial_equiv_from_equiv};
ghost use Rattle.std.specs.Iterator.{IsFinite, DrainsIf};
ghost use Rattle.resources.specs.resources_chain.declared.choice.ResourcesChoice.TheVariants.{Blocks};
ghost use Rattle.resources.specs.resources_chain.Sets.{InRuns, IsRunsOf};
ghost use Rattle.resources.specs.resources_chain.Same.{runs_eq, runs_eq_equiv};
ghost use Rattle.resources.specs.resources_ip_block.Block.{run_of_block};
ghost use Rattle.resources.specs.resources_ip.Blocks.{IsAddress};
ghost use Rattle.resources.specs.resources_ip.Texts.{IsIpSetText, IsIpListText, IsNoIpSet, ReadsIpSet, ip_set_text};
ghost use Rattle.resources.specs.resources_ip.Written.{FitsChoice};
ghost use Rattle.resources.specs.Families.{FitsBlocks, FitsListed};

use crate::set::family::block::FamilyBlock;
use crate::set::family::{Family, V4, V6};
use resources_ip::listed::{check_list, read_list};
use resources_ip::{
    AddressFamily, FromStrError, IpBlocks, IpBlocksBuilder, IpBlocksForFamily, IpResources,
};
use std::alloc::{AllocError, Global};
use std::fmt;
use std::marker::{Model, PhantomData};

/// A set of addresses of one family: of IPv4 over whole addresses. Contracts see the runs of its blocks.
#[derive(Debug, Drop)]
pub struct FamilyBlocks<F: Family> {
    blocks: IpBlocks,
    family: PhantomData<F>,
}

/// A set of whole IPv4 addresses.
pub type Ipv4Blocks = FamilyBlocks<V4>;

/// A set of IPv6 addresses.
pub type Ipv6Blocks = FamilyBlocks<V6>;

impl<F: Family> Model for FamilyBlocks<F> {
    ghost use Rattle.std.specs.Prelude.{List};
    ghost use Rattle.resources.specs.resources_chain.Sets.{Run};
    ghost use Rattle.resources.specs.Families.{FitsBlocks};

    ghost Value = { List Run };

    ghost view = { λ a. a.blocks };

    ghost invariant = { λ a. FitsBlocks F.family a.blocks };
}

impl<F: Family> FamilyBlocks<F> {
    /// The set without addresses.
    #[tactic(auto, using(crate::proofs::FamilyLemmas::none_fit))]
    pub fn empty() -> Self
        ensures { IsRunsOf (λ n. ⊥) result }
    {
        FamilyBlocks::from_blocks(IpBlocks::empty())
    }

    /// The set of all addresses.
    #[tactic(auto, using(crate::proofs::FamilyLemmas::every_fit))]
    pub fn all(alloc: Global) -> Result<Self, AllocError>
        ensures { IfOk result (λ s. IsRunsOf IsAddress s) }
    {
        Ok(FamilyBlocks::from_blocks(IpBlocks::all(alloc)?))
    }

    /// The set of the addresses of the blocks that come, in any order.
    #[tactic(auto, using(crate::proofs::FamilyLemmas::fit_push, crate::proofs::FamilyLemmas::fit_set))]
    pub fn from_iter<I: Iterator<Item = FamilyBlock<F>> + Drop>(
        alloc: Global,
        blocks: I,
    ) -> Result<Self, AllocError>
        requires can { I.can_next blocks }
        requires ends { IsFinite (I.remaining blocks) }
        ensures { IfOk result (λ s. (came : List _) × DrainsIf I.next_gives ⊤ blocks came
            × IsRunsOf (InRuns (map run_of_block came)) s) }
    {
        let mut listed = IpBlocksBuilder::new(alloc);
        for block in blocks {
            listed.push(block.as_block())?;
        }
        Ok(FamilyBlocks::from_blocks(listed.finalize(alloc)?))
    }

    /// The set, which is one of the family: of IPv4 over whole addresses (`IpBlocks::is_whole_v4`).
    pub fn from_blocks(blocks: IpBlocks) -> Self
        requires { FitsBlocks F.family blocks }
        ensures { result ≡ blocks }
    {
        FamilyBlocks {
            blocks,
            family: PhantomData,
        }
    }

    /// The set of a text: blocks with `,` or `, ` between them, in any order.
    /// Of the empty text, and of no other, it has no addresses. It is refused as by `read_list`: `Memory` comes only of a
    /// text without a fault.
    #[tactic(auto, using(crate::proofs::FamilyLemmas::read_fit))]
    pub fn from_str(alloc: Global, text: &str) -> Result<Self, FromStrError>
        ensures none { IfOk result (λ s. ((n : ℕ) → ¬ (InRuns s n)) ↔ (text.now ≡ [])) }
        ensures reads { ReadsIpSet F.family text.now result }
    {
        let blocks = read_list(alloc, F::family(), text)?;
        Ok(FamilyBlocks::from_blocks(blocks))
    }

    /// Whether a text is that of a set, and what is wrong with it else, as of `from_str`. No memory is taken, so `Memory`
    /// isn't answered.
    pub fn check_str(text: &str) -> Result<(), FromStrError>
        ensures { MatchResult result (λ _. IsIpListText F.family text.now)
            (IsNoIpSet F.family text.now) }
    {
        check_list(F::family(), text)
    }

    /// What is printed of the set is read as the same set. This is a law about the set: nothing is done.
    #[tactic(auto, using(crate::proofs::FamilyLemmas::fits_set))]
    pub fn text_is_read(&self)
        ensures { IsIpSetText F.family (ip_set_text F.family self.now) self.now }
    {
        let blocks = self.as_blocks();
        blocks.runs_are_maximal();
        blocks.text_is_read();
    }

    /// The set, as one of either family.
    pub fn as_blocks(&self) -> &IpBlocks
        ensures same { result.now ≡ self.now }
        ensures fits { FitsBlocks F.family self.now }
    {
        &self.blocks
    }

    /// The set, as one of either family.
    pub fn into_blocks(self) -> IpBlocks
        ensures same { result ≡ self }
        ensures fits { FitsBlocks F.family self }
    {
        self.blocks
    }

    /// Resources that list the set, even where it is empty.
    #[tactic(auto, using(crate::proofs::FamilyLemmas::fits_choice, crate::proofs::FamilyLemmas::fits_listed))]
    pub fn to_ip_resources(&self) -> Result<IpResources, AllocError>
        ensures choice { IfOk result (λ resources. resources ≡ Blocks self.now) }
        ensures fits { IfOk result (FitsChoice F.family) }
        ensures listed { IfOk result (FitsListed F.family) }
    {
        Ok(IpResources::blocks(self.as_blocks().clone()?))
    }
}

impl<F: Family> Clone for FamilyBlocks<F> {
    ghost is_clone = { λ set copy. copy ≡ set };

    /// A clone is an equal set. It takes no memory, but a count of its copies can be full.
    fn clone(&self) -> Result<Self, AllocError> {
        Ok(FamilyBlocks::from_blocks(self.as_blocks().clone()?))
    }
}

impl<F: Family> PartialEq for FamilyBlocks<F> {
    ghost eq = { runs_eq };

    fn eq(&self, other: &Self) -> bool
        ensures value { result ≡ runs_eq self.now other.now }
        ensures set { IsTrue result ↔ ((n : ℕ) → InRuns self.now n ↔ InRuns other.now n) }
    {
        self.blocks == other.blocks
    }

    ghost laws = { partial_equiv_from_equiv runs_eq_equiv };
}

impl<F: Family> Eq for FamilyBlocks<F> {
    ghost laws = { runs_eq_equiv };
}

/// The blocks, ascending, with `, ` between them.
impl<F: Family> fmt::Display for FamilyBlocks<F> {
    ghost output = { λ set. Some (ip_set_text F.family set) };

    fn fmt<W: fmt::Write>(&self, f: &mut fmt::Formatter<W>) -> fmt::Result {
        match F::family() {
            AddressFamily::Ipv4 => IpBlocksForFamily::v4(&self.blocks).fmt(f),
            AddressFamily::Ipv6 => IpBlocksForFamily::v6(&self.blocks).fmt(f),
        }
    }
}
