//! Sets of AS numbers written and read: `AS1, AS3-AS5`.

ghost use Rattle.std.specs.Prelude.{◌≡◌, ◌↔◌, ◌⊎◌, ◌++◌, ℕ, [], List, Some, IfOk, IfErr, MatchResult, codes};
ghost use Rattle.std.specs.Fmt.{DisplaysOnOk};
ghost use Rattle.std.specs.List.{flat_map};
ghost use Rattle.resources_as.specs.resources_chain.Sets.{Run, InRuns};
ghost use Rattle.resources_as.specs.resources_chain.Lists.{IsListText, HasFault};
ghost use Rattle.resources_asn.specs.Blocks.{as_run, run_text};
ghost use Rattle.resources_asn.specs.BlockTexts.{IsAsBlockText};
ghost use Rattle.resources_asn.specs.declared.as_block.error.FromStrError.TheVariants.{Memory};
ghost use Rattle.resources_as.specs.resources_chain.declared.choice.ResourcesChoice.TheVariants.{Blocks};
ghost use Rattle.resources_as.specs.Texts.{IsAsSetText, IsAsListText, IsNoAsSet, IsNoPiece, ReadsAsSet, IsAsChoiceText, ReadsAsChoice, as_set_text, as_choice_text};

use crate::blocks::{AsBlocks, AsBlocksBuilder};
use crate::resources::AsResources;
use resources_asn::as_block::{AsBlock, AsBlocksIter, FromStrError};
use resources_chain::{ResourcesChoice, cut_piece};
use std::alloc::Global;
use std::fmt;

impl AsBlocks {
    /// The set of a text: blocks with `,` or `, ` between them, in any order. Of the empty text, and of no other, it has no
    /// AS numbers. The first piece that is no block says what is wrong: `BadBlocks` where it is empty, else what `AsBlock`
    /// refuses. `Memory` comes only of a text without a fault.
    #[tactic(auto, using(crate::proofs::Pushed::some_set))]
    pub fn from_str(alloc: Global, text: &str) -> Result<Self, FromStrError>
        ensures none { IfOk result (λ s. ((n : ℕ) → ¬ (InRuns s n)) ↔ (text.now ≡ [])) }
        ensures reads { ReadsAsSet text.now result }
    {
        if text.is_empty() {
            return Ok(AsBlocks::empty());
        }
        check_blocks(text)?;
        let blocks = read_blocks(alloc, text)?;
        Ok(blocks.finalize(alloc)?)
    }

    /// Whether a text is that of a set, and what is wrong with it else, as of `from_str`. No memory is taken, so `Memory`
    /// isn't answered.
    pub fn check_str(text: &str) -> Result<(), FromStrError>
        ensures { MatchResult result (λ _. IsAsListText text.now) (IsNoAsSet text.now) }
    {
        if text.is_empty() {
            Ok(())
        } else {
            check_blocks(text)
        }
    }

    /// What is printed of the set is read as the same set. This is a law about the set: nothing is done.
    pub fn text_is_read(&self)
        ensures { IsAsSetText (as_set_text self.now) self.now }
    {
        self.runs_are_maximal();
        self.as_blocks();
    }
}

/// Whether each piece of a text is a block; what is wrong with the first that is none.
#[tactic(auto, using(crate::proofs::Cut::piece_shorter))]
fn check_blocks(text: &str) -> Result<(), FromStrError>
    ensures { MatchResult result (λ _. (runs : List Run) × IsListText IsAsBlockText text.now runs)
        (λ e. HasFault IsAsBlockText (IsNoPiece e) text.now) }
{
    let mut rest = text;
    while let Some((piece, behind)) = cut_piece(rest) {
        read_piece(piece)?;
        rest = behind;
    }
    read_piece(rest)?;
    Ok(())
}

/// The blocks of a text that has one at least.
#[tactic(auto, using(crate::proofs::Pushed::some_pushed, crate::proofs::Cut::piece_shorter))]
fn read_blocks(alloc: Global, text: &str) -> Result<AsBlocksBuilder, FromStrError>
    ensures some { IfOk result (λ b. (n : ℕ) × InRuns b n) }
    ensures listed { IfOk result (λ b. IsListText IsAsBlockText text.now b) }
    ensures refused { IfErr result
        (λ e. (e ≡ Memory) ⊎ HasFault IsAsBlockText (IsNoPiece e) text.now) }
{
    let mut blocks = AsBlocksBuilder::new(alloc);
    let mut rest = text;
    while let Some((piece, behind)) = cut_piece(rest) {
        let block = read_piece(piece)?;
        blocks.push(block)?;
        rest = behind;
    }
    let block = read_piece(rest)?;
    blocks.push(block)?;
    Ok(blocks)
}

/// The block of a piece between commas.
fn read_piece(piece: &str) -> Result<AsBlock, FromStrError>
    ensures { MatchResult result (λ b. IsAsBlockText piece.now (as_run b))
        (λ e. IsNoPiece e piece.now) }
{
    if piece.is_empty() {
        return Err(FromStrError::BadBlocks);
    }
    piece.parse::<AsBlock>()
}

/// The blocks, ascending, with `, ` between them.
impl fmt::Display for AsBlocks {
    ghost output = { λ set. Some (as_set_text set) };

    fn fmt<W: fmt::Write>(&self, f: &mut fmt::Formatter<W>) -> fmt::Result {
        let mut blocks = self.iter();
        let Some(first) = blocks.next() else {
            return Ok(());
        };
        write!(f, "{first}")?;
        write_behind(blocks, f)
    }
}

/// Writes blocks, each after `, `.
fn write_behind<W: fmt::Write>(blocks: AsBlocksIter<'_>, f: &mut fmt::Formatter<W>) -> fmt::Result
    ensures { DisplaysOnOk W.Write.write_str_gives f.old result
        (Some (flat_map (λ r. codes ", " ++ run_text r) blocks.entry)) f.new }
{
    for block in blocks {
        write!(f, ", {block}")?;
    }
    Ok(())
}

impl AsResources {
    /// The resources of a text: `inherit`, or a set; of the empty text, none. It is refused as by
    /// `AsBlocks::from_str`.
    pub fn from_str(alloc: Global, text: &str) -> Result<Self, FromStrError>
        ensures { ReadsAsChoice text.now result }
    {
        if text == "inherit" {
            return Ok(AsResources::inherit());
        }
        if text.is_empty() {
            return Ok(AsResources::missing());
        }
        Ok(AsResources::blocks(AsBlocks::from_str(alloc, text)?))
    }

    /// What is printed of the resources is read as the same, unless they list the empty set: that prints as nothing, as
    /// missing resources do. This is a law about the resources: nothing is done.
    pub fn text_is_read(&self)
        ensures { ¬ (self.now ≡ Blocks []) → IsAsChoiceText (as_choice_text self.now) self.now }
    {
        if let ResourcesChoice::Blocks(blocks) = self.choice() {
            blocks.text_is_read();
        }
    }
}
