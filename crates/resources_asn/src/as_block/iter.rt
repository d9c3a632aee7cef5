//! The numbers of blocks, one by one.

ghost use Rattle.std.specs.Prelude.{◌≡◌, ℕ, ◌≤◌, List, ◌∷◌, map};
ghost use Rattle.std.specs.Iterator.{YieldsFirstBy, item_count};
ghost use Rattle.resources_asn.specs.Blocks.{as_run};
ghost use Rattle.resources_asn.specs.Counted.{run_numbers, runs_numbers};
ghost use Rattle.resources_asn.specs.Left.{numbers_left, IsLeft};

use crate::Asn;
use crate::as_block::block::AsBlock;
use crate::as_block::range::successor;
use std::marker::Model;

/// The numbers of a block, ascending. Contracts see the list of those that are left.
#[derive(Clone, Debug, Drop)]
pub struct AsBlockIter {
    next: Option<Asn>,
    last: Asn,
}

impl Model for AsBlockIter {
    ghost use Rattle.std.specs.Prelude.{List, ℕ};
    ghost use Rattle.resources_asn.specs.Left.{numbers_left, IsLeft};

    ghost Value = { List ℕ };

    ghost view = { λ a. numbers_left a.next a.last };

    ghost invariant = { λ a. IsLeft a.next a.last };
}

impl AsBlock {
    /// The numbers of the block, ascending.
    pub fn iter(self) -> AsBlockIter
        ensures { result ≡ run_numbers (as_run self) }
    {
        AsBlockIter {
            next: Some(self.min()),
            last: self.max(),
        }
    }
}

impl Iterator for AsBlockIter {
    type Item = Asn;

    ghost next_gives = { YieldsFirstBy (λ a. a.value) (λ s. s) };

    ghost remaining = { item_count (λ s. s) };

    fn next(&mut self) -> Option<Asn> {
        let asn = self.next?;
        self.next = behind(asn, self.last);
        Some(asn)
    }
}

/// The AS number after this one, unless it is the last.
fn behind(asn: Asn, last: Asn) -> Option<Asn>
    requires { asn.value ≤ last.value }
    ensures left { numbers_left (Some asn) last ≡ asn.value ∷ numbers_left result last }
    ensures within { IsLeft result last }
{
    if asn == last { None } else { successor(asn) }
}

/// The blocks of a set of AS numbers, ascending. Contracts see the numbers of each block that is left.
#[derive(Debug, Drop)]
pub struct AsBlocksIter<'a> {
    blocks: &'a [AsBlock],
}

impl<'a> Model for AsBlocksIter<'a> {
    ghost use Rattle.std.specs.Prelude.{List, map};
    ghost use Rattle.resources_asn.specs.resources_chain.Sets.{Run};
    ghost use Rattle.resources_asn.specs.Blocks.{as_run};

    ghost Value = { List Run };

    ghost view = { λ a. map as_run a.blocks.now };
}

impl<'a> AsBlocksIter<'a> {
    /// The blocks of the slice.
    pub fn new(blocks: &'a [AsBlock]) -> Self
        ensures { result ≡ map as_run blocks.now }
    {
        AsBlocksIter { blocks }
    }
}

impl<'a> Iterator for AsBlocksIter<'a> {
    type Item = AsBlock;

    ghost next_gives = { YieldsFirstBy as_run (λ s. s) };

    ghost remaining = { item_count (λ s. s) };

    fn next(&mut self) -> Option<AsBlock> {
        let (first, rest) = self.blocks.split_first()?;
        self.blocks = rest;
        Some(*first)
    }
}

/// The numbers of a set of AS numbers, ascending. Contracts see the list of those that are left.
#[derive(Debug, Drop)]
pub struct AsnIter<'a> {
    block: AsBlockIter,
    blocks: &'a [AsBlock],
}

impl<'a> Model for AsnIter<'a> {
    ghost use Rattle.std.specs.Prelude.{List, ℕ, map, ◌++◌};
    ghost use Rattle.resources_asn.specs.Blocks.{as_run};
    ghost use Rattle.resources_asn.specs.Counted.{runs_numbers};

    ghost Value = { List ℕ };

    ghost view = { λ a. a.block ++ runs_numbers (map as_run a.blocks.now) };
}

impl<'a> AsnIter<'a> {
    /// The numbers of the blocks of the slice, block by block.
    pub fn new(blocks: &'a [AsBlock]) -> Self
        ensures { result ≡ runs_numbers (map as_run blocks.now) }
    {
        let block = AsBlockIter {
            next: None,
            last: Asn::MAX,
        };
        AsnIter { block, blocks }
    }
}

impl<'a> Iterator for AsnIter<'a> {
    type Item = Asn;

    ghost next_gives = { YieldsFirstBy (λ a. a.value) (λ s. s) };

    ghost remaining = { item_count (λ s. s) };

    fn next(&mut self) -> Option<Asn> {
        if let Some(asn) = self.block.next() {
            return Some(asn);
        }
        let (first, behind) = self.blocks.split_first()?;
        self.block = first.iter();
        self.blocks = behind;
        self.block.next()
    }
}

impl IntoIterator for AsBlock {
    type Item = Asn;

    type IntoIter = AsBlockIter;

    ghost into_iter_gives = { λ b s. s ≡ run_numbers (as_run b) };

    fn into_iter(self) -> AsBlockIter {
        self.iter()
    }
}
