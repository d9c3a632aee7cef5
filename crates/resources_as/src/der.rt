//! AS resources that are read from an encoding (RFC 3779 section 3.2.3).

ghost use Rattle.std.specs.Prelude.{◌≡◌, true, IfOk, OnErr};
ghost use Rattle.resources_as.specs.bcder_content.Exact.{ReadsAs, ReadsAllAs};
ghost use Rattle.resources_as.specs.bcder_content.Grammar.{Then, End, Many};
ghost use Rattle.resources_as.specs.bcder_content.Here.{here};
ghost use Rattle.resources_as.specs.resources_chain.Claims.{HasMaximal};
ghost use Rattle.resources_as.specs.resources_chain.Sets.{AreMaximal};
ghost use Rattle.resources_asn.specs.BlockEncodings.{IsAsBlock};
ghost use Rattle.resources_as.specs.Encodings.{AreAsIdentifiers, AreBlocks, IsAsChoice, IsAsResources, IsAsSet, only_choice};

use crate::blocks::{AsBlocks, AsBlocksBuilder};
use crate::codec::Tag;
use crate::codec::decode::{Constructed, DecodeError, Source};
use crate::resources::AsResources;
use resources_asn::as_block::AsBlock;
use std::alloc::Global;

// All blocks of a content.
fn take_blocks<S: Source>(
    alloc: Global,
    cons: &mut Constructed<S>,
) -> Result<AsBlocksBuilder, DecodeError<S::Error>>
    ensures { ReadsAllAs (λ b. b) (Many IsAsBlock) (here S.rest cons.old) result
        (here S.rest cons.new) }
{
    let mut blocks = AsBlocksBuilder::new(alloc);
    while let Some(block) = AsBlock::take_opt_from(cons)? {
        blocks.push(block)?;
    }
    Ok(blocks)
}

// The union of all blocks of a content.
fn blocks_in<S: Source>(
    alloc: Global,
    cons: &mut Constructed<S>,
) -> Result<AsBlocks, DecodeError<S::Error>>
    ensures { ReadsAllAs (λ s. s) AreBlocks (here S.rest cons.old) result (here S.rest cons.new) }
{
    let blocks = take_blocks(alloc, cons)?;
    let set = blocks.finalize(alloc)?;
    Ok(set)
}

impl AsBlocks {
    /// The set of a SEQUENCE OF blocks, in any order (RFC 3779 section 3.2.3.4).
    pub fn take_from<S: Source>(
        alloc: Global,
        cons: &mut Constructed<S>,
    ) -> Result<AsBlocks, DecodeError<S::Error>>
        ensures reads { ReadsAs (λ s. s) IsAsSet (here S.rest cons.old) result
            (here S.rest cons.new) }
        ensures maximal { IfOk result AreMaximal }
        ensures failed { OnErr result ((here S.rest cons.new).failed ≡ true) }
    {
        cons.take_sequence(
            |cons|
                ensures { ReadsAllAs (λ s. s) AreBlocks (here S.rest cons.old) result
                    (here S.rest cons.new) }
            { blocks_in(alloc, cons) },
        )
    }
}

// What is inherited, or listed.
fn take_choice<S: Source>(
    alloc: Global,
    cons: &mut Constructed<S>,
) -> Result<AsResources, DecodeError<S::Error>>
    ensures { ReadsAs (λ r. r) IsAsChoice (here S.rest cons.old) result (here S.rest cons.new) }
{
    let inherit = cons.take_opt_null()?;
    if let Some(()) = inherit {
        return Ok(AsResources::inherit());
    }
    let set = AsBlocks::take_from(alloc, cons)?;
    Ok(AsResources::blocks(set))
}

impl AsResources {
    /// The AS resources of an extension's value (RFC 3779 section 3.2.3; RFC 6487 section 4.8.11): inherited, or the
    /// union of what is listed, in any order.
    ///
    /// Anything else is refused: no `asnum`, routing domains, a number over 32 bits, a range that ends before it
    /// begins.
    pub fn take_from<S: Source>(
        alloc: Global,
        cons: &mut Constructed<S>,
    ) -> Result<AsResources, DecodeError<S::Error>>
        ensures reads { ReadsAs (λ r. r) IsAsResources (here S.rest cons.old) result
            (here S.rest cons.new) }
        ensures maximal { IfOk result HasMaximal }
        ensures failed { OnErr result ((here S.rest cons.new).failed ≡ true) }
    {
        cons.take_sequence(
            |cons|
                ensures { ReadsAllAs (λ r. (only_choice r, tt)) AreAsIdentifiers
                    (here S.rest cons.old) result (here S.rest cons.new) }
            {
                let choice = cons.take_constructed_if(
                    Tag::CTX_0,
                    |cons|
                        ensures { ReadsAllAs only_choice (Then IsAsChoice End)
                            (here S.rest cons.old) result (here S.rest cons.new) }
                    {
                        let choice = take_choice(alloc, cons)?;
                        Ok(choice)
                    },
                )?;
                Ok(choice)
            },
        )
    }
}
