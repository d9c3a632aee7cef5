//! Sets of addresses written and read: `10.0.0.0/8, 11.0.0.0-11.0.0.9`.

ghost use Rattle.std.specs.Prelude.{◌≡◌, ◌↔◌, ◌⊎◌, ◌++◌, ℕ, [], List, map, Some, IfOk, IfErr, MatchResult, codes};
ghost use Rattle.std.specs.Fmt.{DisplaysOnOk};
ghost use Rattle.std.specs.List.{flat_map};
ghost use Rattle.resources_ip.specs.resources_chain.Sets.{Run, InRuns};
ghost use Rattle.resources_ip.specs.resources_chain.Lists.{IsListText, HasFault};
ghost use Rattle.resources_ip.specs.resources_ip_prefix.declared.addr.AddressFamily.TheVariants.{Ipv4, Ipv6};
ghost use Rattle.resources_ip_block.specs.Block.{run_of_block};
ghost use Rattle.resources_ip.specs.resources_ip_prefix.Whole.{IsWhole};
ghost use Rattle.resources_ip.specs.resources_ip_prefix.ReadTexts.{Shows};
ghost use Rattle.resources_ip.specs.resources_ip_prefix.declared.addr.AddressFamily.{AddressFamily as FamilyValue};
ghost use Rattle.resources_ip.specs.resources_ip_prefix.declared.error.FromStrError.TheVariants as Cause;
ghost use Rattle.resources_ip_block.specs.BlockText.{block_text, address_text};
ghost use Rattle.resources_ip_block.specs.ReadTexts.{WritesBlock};
ghost use Rattle.resources_ip.specs.Blocks.{blocks_left};
ghost use Rattle.resources_ip.specs.Shown.{shown_family, shown_set};
ghost use Rattle.resources_ip.specs.Texts.{IsIpSetText, IsIpListText, IsNoIpSet, IsNoPiece, ReadsIpSet, ip_set_text};
ghost use Rattle.resources_ip.specs.WholeSets.{AreWhole};
ghost use Rattle.resources_ip.specs.Written.{FitsSet};

use crate::blocks::{IpBlockIter, IpBlocks, IpBlocksBuilder};
use resources_chain::cut_piece;
use resources_ip_block::{AddressFamily, FromStrError, IpBlock};
pub use resources_ip_block::{DisplayV4Block, DisplayV6Block};
use std::alloc::Global;
use std::fmt;

/// Prints the blocks of a set, as those of one family, with `, ` between them.
#[derive(Clone, Copy, Debug)]
pub struct IpBlocksForFamily<'a> {
    family: AddressFamily,
    blocks: &'a IpBlocks,
}

impl<'a> IpBlocksForFamily<'a> {
    /// The set, to be printed as IPv4.
    pub fn v4(blocks: &'a IpBlocks) -> Self
        ensures family { shown_family result ≡ Ipv4 }
        ensures set { shown_set result ≡ blocks.now }
    {
        IpBlocksForFamily {
            family: AddressFamily::Ipv4,
            blocks,
        }
    }

    /// The set, to be printed as IPv6.
    pub fn v6(blocks: &'a IpBlocks) -> Self
        ensures family { shown_family result ≡ Ipv6 }
        ensures set { shown_set result ≡ blocks.now }
    {
        IpBlocksForFamily {
            family: AddressFamily::Ipv6,
            blocks,
        }
    }
}

/// The blocks, ascending, with `, ` between them.
impl fmt::Display for IpBlocksForFamily<'_> {
    ghost output = { λ shown. Some (ip_set_text (shown_family shown) (shown_set shown)) };

    fn fmt<W: fmt::Write>(&self, f: &mut fmt::Formatter<W>) -> fmt::Result {
        let mut blocks = self.blocks.iter();
        let Some(first) = blocks.next() else {
            return Ok(());
        };
        write_block(self.family, first, f)?;
        write_behind(self.family, blocks, f)
    }
}

// Writes a block as one of the family.
fn write_block<W: fmt::Write>(
    family: AddressFamily,
    block: IpBlock,
    f: &mut fmt::Formatter<W>,
) -> fmt::Result
    ensures { DisplaysOnOk W.Write.write_str_gives f.old result
        (Some (block_text (address_text family) (run_of_block block))) f.new }
{
    match family {
        AddressFamily::Ipv4 => write!(f, "{}", block.display_v4()),
        AddressFamily::Ipv6 => write!(f, "{}", block.display_v6()),
    }
}

// Writes blocks as those of the family, each after `, `.
fn write_behind<W: fmt::Write>(
    family: AddressFamily,
    blocks: IpBlockIter<'_>,
    f: &mut fmt::Formatter<W>,
) -> fmt::Result
    ensures { DisplaysOnOk W.Write.write_str_gives f.old result
        (Some (flat_map (λ r. codes ", " ++ block_text (address_text family) r)
        (map run_of_block (blocks_left blocks.entry)))) f.new }
{
    for block in blocks {
        f.write_str(", ")?;
        write_block(family, block, f)?;
    }
    Ok(())
}

impl IpBlocks {
    /// The set of a text: blocks of one family with `,` or `, ` between them, in any order; an IPv6 one has a
    /// colon. Of the empty text, and of no other, it has no addresses. It is refused as by `read_list`.
    pub fn from_str(alloc: Global, text: &str) -> Result<Self, FromStrError>
        ensures none { IfOk result (λ s. ((n : ℕ) → ¬ (InRuns s n)) ↔ (text.now ≡ [])) }
        ensures reads { (family : FamilyValue) → Shows family text.now
            → ReadsIpSet family text.now result }
    {
        let family = AddressFamily::of_text(text);
        read_list(alloc, family, text)
    }

    /// What is printed of the set as one of a family that it can be of is read as the same set. This is a law about the
    /// set: nothing is done.
    pub fn text_is_read(&self)
        ensures { (family : FamilyValue) → FitsSet family self.now
            → IsIpSetText family (ip_set_text family self.now) self.now }
    {
        self.as_blocks();
    }
}

/// The set of a text of blocks of the family, with `,` or `, ` between them, in any order. Of the empty text, and of no
/// other, it has no addresses. The first piece that is no block of the family says what is wrong: `BadBlocks` where it is
/// empty, `FamilyMismatch` where it is of the other family by its colons, else what `IpBlock` refuses. `Memory` comes only
/// of a text without a fault.
#[tactic(auto, using(crate::proofs::WholeLemmas::whole_none, crate::proofs::WholeLemmas::whole_set, crate::proofs::WholeLemmas::some_set))]
pub fn read_list(alloc: Global, family: AddressFamily, text: &str) -> Result<IpBlocks, FromStrError>
    ensures whole { IfOk result (λ s. family ≡ Ipv4 → AreWhole s) }
    ensures none { IfOk result (λ s. ((n : ℕ) → ¬ (InRuns s n)) ↔ (text.now ≡ [])) }
    ensures reads { ReadsIpSet family text.now result }
{
    if text.is_empty() {
        return Ok(IpBlocks::empty());
    }
    check_blocks(family, text)?;
    let blocks = read_blocks(alloc, family, text)?;
    Ok(blocks.finalize(alloc)?)
}

/// Whether a text is that of a set of the family, and what is wrong with it else, as of `read_list`. No memory is taken, so
/// `Memory` isn't answered.
pub fn check_list(family: AddressFamily, text: &str) -> Result<(), FromStrError>
    ensures { MatchResult result (λ _. IsIpListText family text.now) (IsNoIpSet family text.now) }
{
    if text.is_empty() {
        Ok(())
    } else {
        check_blocks(family, text)
    }
}

// Whether each piece of a text is a block of the family; what is wrong with the first that is none.
#[tactic(auto, using(crate::proofs::Cut::piece_shorter))]
fn check_blocks(family: AddressFamily, text: &str) -> Result<(), FromStrError>
    ensures { MatchResult result
        (λ _. (runs : List Run) × IsListText (WritesBlock family) text.now runs)
        (λ e. HasFault (WritesBlock family) (IsNoPiece family e) text.now) }
{
    let mut rest = text;
    while let Some((piece, behind)) = cut_piece(rest) {
        read_piece(family, piece)?;
        rest = behind;
    }
    read_piece(family, rest)?;
    Ok(())
}

// The blocks of a text that has one at least.
#[tactic(auto, using(crate::proofs::WholeLemmas::whole_push, crate::proofs::WholeLemmas::some_pushed, crate::proofs::Cut::piece_shorter))]
fn read_blocks(
    alloc: Global,
    family: AddressFamily,
    text: &str,
) -> Result<IpBlocksBuilder, FromStrError>
    ensures whole { IfOk result (λ b. family ≡ Ipv4 → AreWhole b) }
    ensures some { IfOk result (λ b. (n : ℕ) × InRuns b n) }
    ensures listed { IfOk result (λ b. IsListText (WritesBlock family) text.now b) }
    ensures refused { IfErr result
        (λ e. (e ≡ Cause.Memory) ⊎ HasFault (WritesBlock family) (IsNoPiece family e) text.now) }
{
    let mut blocks = IpBlocksBuilder::new(alloc);
    let mut rest = text;
    while let Some((piece, behind)) = cut_piece(rest) {
        let block = read_piece(family, piece)?;
        blocks.push(block)?;
        rest = behind;
    }
    let block = read_piece(family, rest)?;
    blocks.push(block)?;
    Ok(blocks)
}

// The block of a piece between commas.
fn read_piece(family: AddressFamily, piece: &str) -> Result<IpBlock, FromStrError>
    ensures whole { IfOk result (λ b. family ≡ Ipv4 → IsWhole (run_of_block b)) }
    ensures reads { MatchResult result (λ b. WritesBlock family piece.now (run_of_block b))
        (λ e. IsNoPiece family e piece.now) }
{
    if piece.is_empty() {
        return Err(FromStrError::BadBlocks);
    }
    let shown = AddressFamily::of_text(piece);
    if shown == family {
        IpBlock::from_family_str(family, piece)
    } else {
        Err(FromStrError::FamilyMismatch)
    }
}
