//! Chains: canonical lists of blocks, which stand for sets of numbers.

ghost use Rattle.std.specs.Prelude.{◌≡◌, ◌<◌, ◌≤◌, ℕ, ◌↔◌, List, IsTrue, MatchOption, MatchResult, IfOk, length, map, ⊤};
ghost use Rattle.std.specs.Cmp.{partial_equiv_from_equiv};
ghost use Rattle.std.specs.Iterator.{IsFinite, DrainsIf};
ghost use Rattle.resources_chain.specs.Places.{run_at};
ghost use Rattle.resources_chain.specs.Rows.{ProbesAtMost};
ghost use Rattle.resources_chain.specs.Sets.{InRun, InRuns, AreMaximal, IsRunsOf, InEither, InBoth, InFirstOnly, IsInside};
ghost use Rattle.resources_chain.specs.Same.{runs_eq, runs_eq_equiv};

use crate::block::Block;
use crate::place::place_of;
use crate::walk;
use std::alloc::{AllocError, Global};
use std::marker::Model;
use std::rc::Rc;

/// A set of numbers as a borrowed list of blocks in order, none of which overlap or touch. Contracts see the runs
/// of the blocks.
#[derive(Debug, Drop)]
pub struct Chain<'a, B: Block> {
    blocks: &'a [B],
}

impl<'a, B: Block> Model for Chain<'a, B> {
    ghost use Rattle.std.specs.Prelude.{List, map};
    ghost use Rattle.resources_chain.specs.Sets.{Run, AreMaximal};

    ghost Value = { List Run };

    ghost view = { λ a. map B.run a.blocks.now };

    ghost invariant = { λ a. AreMaximal (map B.run a.blocks.now) };
}

impl<'a, B: Block> Chain<'a, B> {
    /// The chain without items.
    pub fn empty() -> Self
        ensures { IsRunsOf (λ n. ⊥) result }
    {
        Chain { blocks: &[] }
    }

    /// The blocks.
    pub fn as_slice(&self) -> &'a [B]
        ensures runs { map B.run result.now ≡ self.now }
        ensures maximal { AreMaximal self.now }
    {
        self.blocks
    }

    /// Whether there are no items.
    pub fn is_empty(&self) -> bool
        ensures { IsTrue result ↔ ((n : ℕ) → ¬ (InRuns self.now n)) }
    {
        self.blocks.is_empty()
    }

    /// Whether the chain has the item.
    pub fn contains_item(&self, item: B::Item) -> bool
        ensures { IsTrue result ↔ InRuns self.now (B.place item) }
    {
        let mut probes = 0;
        self.find(item, &mut probes).is_some()
    }

    /// Whether all items of the block are in the chain.
    pub fn contains_block(&self, block: &B) -> bool
        ensures { IsTrue result ↔ ((n : ℕ) → InRun (B.run block.now) n → InRuns self.now n) }
    {
        walk::has_block(self.blocks, block)
    }

    /// The place of the block that has the item, where one has. It looks at some of the blocks, at most as often as their
    /// number has binary digits, and adds the looks to `probes`.
    pub fn find(&self, item: B::Item, probes: &mut u64) -> Option<usize>
        requires { probes.old ≤ 18446744073709551551 }
        ensures place { MatchOption result (¬ (InRuns self.now (B.place item)))
            (λ k. (k < length self.now) × InRun (run_at self.now k) (B.place item)) }
        ensures probes { ProbesAtMost (length self.now) probes.old probes.new }
    {
        place_of(self.blocks, item, probes)
    }

    /// Whether all items are in the other chain.
    pub fn is_encompassed(&self, other: &Chain<'_, B>) -> bool
        ensures { IsTrue result ↔ IsInside self.now other.now }
    {
        walk::is_inside(self.blocks, other.blocks)
    }

    /// What is left of the chain when it is trimmed to the other; `None` where nothing is trimmed.
    pub fn trim(
        &self,
        alloc: Global,
        other: &Chain<'_, B>,
    ) -> Result<Option<OwnedChain<B>>, AllocError>
        ensures { IfOk result (λ t. MatchOption t (IsInside self.now other.now)
            (λ c. ¬ (IsInside self.now other.now) × IsRunsOf (InBoth self.now other.now) c)) }
    {
        match walk::trim(alloc, self.blocks, other.blocks)? {
            Some(blocks) => Ok(Some(OwnedChain { blocks })),
            None => Ok(None),
        }
    }

    /// The items that aren't in the other chain.
    pub fn difference(
        &self,
        alloc: Global,
        other: &Chain<'_, B>,
    ) -> Result<OwnedChain<B>, AllocError>
        ensures { IfOk result (λ c. IsRunsOf (InFirstOnly self.now other.now) c) }
    {
        Ok(OwnedChain {
            blocks: walk::difference(alloc, self.blocks, other.blocks)?,
        })
    }

    /// The items of both chains.
    pub fn intersection(
        &self,
        alloc: Global,
        other: &Chain<'_, B>,
    ) -> Result<OwnedChain<B>, AllocError>
        ensures { IfOk result (λ c. IsRunsOf (InBoth self.now other.now) c) }
    {
        Ok(OwnedChain {
            blocks: walk::intersection(alloc, self.blocks, other.blocks)?,
        })
    }

    /// The items of one of the chains or of both.
    pub fn union(&self, alloc: Global, other: &Chain<'_, B>) -> Result<OwnedChain<B>, AllocError>
        ensures { IfOk result (λ c. IsRunsOf (InEither self.now other.now) c) }
    {
        Ok(OwnedChain {
            blocks: walk::union(alloc, self.blocks, other.blocks)?,
        })
    }
}

impl<'a, B: Block> Clone for Chain<'a, B> {
    ghost is_clone = { λ chain copy. copy ≡ chain };

    ghost is_infallible = { λ _. ⊤ };

    fn clone(&self) -> Result<Self, AllocError> {
        Ok(Chain {
            blocks: self.blocks,
        })
    }
}

impl<'a, B: Block> PartialEq for Chain<'a, B> {
    ghost eq = { runs_eq };

    fn eq(&self, other: &Self) -> bool
        ensures value { result ≡ runs_eq self.now other.now }
        ensures set { IsTrue result ↔ ((n : ℕ) → InRuns self.now n ↔ InRuns other.now n) }
    {
        walk::is_same(self.blocks, other.blocks)
    }

    ghost laws = { partial_equiv_from_equiv runs_eq_equiv };
}

impl<'a, B: Block> Eq for Chain<'a, B> {
    ghost laws = { runs_eq_equiv };
}

/// A set of numbers that owns its blocks: in order, and none of them overlap or touch.
#[derive(Debug, Drop)]
pub struct OwnedChain<B: Block> {
    blocks: Vec<B>,
}

impl<B: Block> Model for OwnedChain<B> {
    ghost use Rattle.std.specs.Prelude.{List, map};
    ghost use Rattle.resources_chain.specs.Sets.{Run, AreMaximal};

    ghost Value = { List Run };

    ghost view = { λ a. map B.run a.blocks.items };

    ghost invariant = { λ a. AreMaximal (map B.run a.blocks.items) };
}

impl<B: Block> OwnedChain<B> {
    /// The chain without items.
    pub fn empty(alloc: Global) -> Self
        ensures { IsRunsOf (λ n. ⊥) result }
    {
        OwnedChain {
            blocks: Vec::new(alloc),
        }
    }

    /// The chain of all items of the blocks, which may come in any order, overlap and touch.
    pub fn from_vec(alloc: Global, blocks: Vec<B>) -> Result<Self, AllocError>
        ensures { IfOk result (λ c. IsRunsOf (InRuns (map B.run blocks.items)) c) }
    {
        let mut blocks = blocks;
        walk::sort(&mut blocks);
        Ok(OwnedChain {
            blocks: walk::joined(alloc, &blocks)?,
        })
    }

    /// The chain of all items of the blocks that come, in any order.
    pub fn from_iter<I: Iterator<Item = B> + Drop>(
        alloc: Global,
        blocks: I,
    ) -> Result<Self, AllocError>
        requires can { I.can_next blocks }
        requires ends { IsFinite (I.remaining blocks) }
        ensures { IfOk result (λ c. (came : List B) × DrainsIf I.next_gives ⊤ blocks came
            × IsRunsOf (InRuns (map B.run came)) c) }
    {
        let blocks: Vec<B> = blocks.collect(alloc)?;
        OwnedChain::from_vec(alloc, blocks)
    }

    /// The chain of blocks that are sorted already, neither overlapping nor touching.
    pub fn from_vec_unchecked(blocks: Vec<B>) -> Self
        requires { AreMaximal (map B.run blocks.items) }
        ensures { IsRunsOf (InRuns (map B.run blocks.items)) result }
    {
        OwnedChain { blocks }
    }

    /// The chain, borrowed.
    pub fn as_chain(&self) -> Chain<'_, B>
        ensures runs { result ≡ self.now }
        ensures maximal { AreMaximal self.now }
    {
        Chain {
            blocks: &self.blocks,
        }
    }
}

impl<B: Block> Clone for OwnedChain<B> {
    ghost is_clone = { λ chain copy. copy ≡ chain };

    fn clone(&self) -> Result<Self, AllocError> {
        Ok(OwnedChain {
            blocks: Vec::from_slice(*self.blocks.allocator(), &self.blocks)?,
        })
    }
}

impl<B: Block> PartialEq for OwnedChain<B> {
    ghost eq = { runs_eq };

    fn eq(&self, other: &Self) -> bool
        ensures value { result ≡ runs_eq self.now other.now }
        ensures set { IsTrue result ↔ ((n : ℕ) → InRuns self.now n ↔ InRuns other.now n) }
    {
        self.as_chain() == other.as_chain()
    }

    ghost laws = { partial_equiv_from_equiv runs_eq_equiv };
}

impl<B: Block> Eq for OwnedChain<B> {
    ghost laws = { runs_eq_equiv };
}

/// A set of numbers that many may share. The empty one takes no memory.
#[derive(Debug, Drop)]
pub struct SharedChain<B: Block> {
    chain: Option<Rc<OwnedChain<B>>>,
}

impl<B: Block> Model for SharedChain<B> {
    ghost use Rattle.std.specs.Prelude.{List};
    ghost use Rattle.resources_chain.specs.Sets.{Run, AreMaximal};
    ghost use Rattle.resources_chain.specs.Shared.{shared_runs};

    ghost Value = { List Run };

    ghost view = { λ a. shared_runs a.chain };

    ghost invariant = { λ a. AreMaximal (shared_runs a.chain) };
}

impl<B: Block> SharedChain<B> {
    /// The chain without items.
    pub fn empty() -> Self
        ensures { IsRunsOf (λ n. ⊥) result }
    {
        SharedChain { chain: None }
    }

    /// The chain, to be shared.
    pub fn from_owned(alloc: Global, chain: OwnedChain<B>) -> Result<Self, AllocError>
        ensures runs { IfOk result (λ c. c ≡ chain) }
        ensures set { IfOk result (λ c. IsRunsOf (InRuns chain) c) }
    {
        if chain.as_chain().is_empty() {
            return Ok(SharedChain::empty());
        }
        Ok(SharedChain {
            chain: Some(Rc::new(alloc, chain)?),
        })
    }

    /// The chain of all items of the blocks that come, in any order.
    pub fn from_iter<I: Iterator<Item = B> + Drop>(
        alloc: Global,
        blocks: I,
    ) -> Result<Self, AllocError>
        requires can { I.can_next blocks }
        requires ends { IsFinite (I.remaining blocks) }
        ensures { IfOk result (λ c. (came : List B) × DrainsIf I.next_gives ⊤ blocks came
            × IsRunsOf (InRuns (map B.run came)) c) }
    {
        SharedChain::from_owned(alloc, OwnedChain::from_iter(alloc, blocks)?)
    }

    /// The blocks are in order, and none of them overlap or touch. This is a law about the chain: nothing is done.
    pub fn runs_are_maximal(&self)
        ensures { AreMaximal self.now }
    {
        let _ = &self.chain;
    }

    /// The chain, borrowed.
    pub fn as_chain(&self) -> Chain<'_, B>
        ensures runs { result ≡ self.now }
        ensures maximal { AreMaximal self.now }
    {
        let Some(chain) = &self.chain else {
            return Chain::empty();
        };
        chain.as_chain()
    }
}

impl<B: Block> Default for SharedChain<B> {
    ghost is_default = { IsRunsOf (λ n. ⊥) };

    fn default() -> Self {
        SharedChain::empty()
    }
}

impl<B: Block> Clone for SharedChain<B> {
    ghost is_clone = { λ chain copy. copy ≡ chain };

    /// A clone is an equal chain, with one owner more. It takes no memory: it fails only where the count of owners is full.
    fn clone(&self) -> Result<Self, AllocError>
        ensures cases { MatchResult result (λ copy. copy ≡ self.now) (λ _. ¬ ⊥) }
        ensures maximal { IfOk result AreMaximal }
    {
        let chain = match &self.chain {
            Some(chain) => Some(chain.clone()?),
            None => None,
        };
        Ok(SharedChain { chain })
    }
}

impl<B: Block> PartialEq for SharedChain<B> {
    ghost eq = { runs_eq };

    fn eq(&self, other: &Self) -> bool
        ensures value { result ≡ runs_eq self.now other.now }
        ensures set { IsTrue result ↔ ((n : ℕ) → InRuns self.now n ↔ InRuns other.now n) }
    {
        self.as_chain() == other.as_chain()
    }

    ghost laws = { partial_equiv_from_equiv runs_eq_equiv };
}

impl<B: Block> Eq for SharedChain<B> {
    ghost laws = { runs_eq_equiv };
}
