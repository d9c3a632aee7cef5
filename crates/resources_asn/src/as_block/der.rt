//! Blocks of AS numbers that are read from an encoding (RFC 3779 section 3.2.3.5).

ghost use Rattle.std.specs.Prelude.{◌≡◌, ◌≢◌, true, IfErr, OnErr};
ghost use Rattle.resources_asn.specs.bcder_tree.Tags.{sequence_tag};
ghost use Rattle.resources_asn.specs.bcder_source.declared.error.DecodeError.TheVariants.{Memory};
ghost use Rattle.resources_asn.specs.bcder_content.Exact.{ReadsOptAs, ReadsAllAs};
ghost use Rattle.resources_asn.specs.bcder_content.Here.{here};
ghost use Rattle.resources_asn.specs.bcder_content.Perhaps.{ReadsIfAs};
ghost use Rattle.resources_asn.specs.Blocks.{as_run};
ghost use Rattle.resources_asn.specs.BlockEncodings.{AreEnds, AreOrdered, IsAsBlock, IsAsRange, IsAnyAsBlock};
ghost use Rattle.resources_asn.specs.Reading.{bounds_ends, range_ends};

use crate::Asn;
use crate::as_block::block::AsBlock;
use crate::as_block::range::AsRange;
use crate::codec::decode::{Constructed, ContentError, DecodeError, Source};

// The two numbers of a range, in any order.
#[derive(Clone, Copy, Debug)]
struct Bounds {
    min: u32,
    max: u32,
}

// The two numbers of a range.
fn bounds_in<S: Source>(cons: &mut Constructed<S>) -> Result<Bounds, DecodeError<S::Error>>
    ensures reads { ReadsAllAs bounds_ends AreEnds (here S.rest cons.old) result
        (here S.rest cons.new) }
    ensures no_memory { IfErr result (λ e. e ≢ Memory) }
{
    let min = cons.take_u32()?;
    let max = cons.take_u32()?;
    Ok(Bounds { min, max })
}

// The range of the content of a SEQUENCE.
fn range_in<S: Source>(cons: &mut Constructed<S>) -> Result<AsRange, DecodeError<S::Error>>
    ensures reads { ReadsAllAs range_ends AreOrdered (here S.rest cons.old) result
        (here S.rest cons.new) }
    ensures no_memory { IfErr result (λ e. e ≢ Memory) }
{
    let bounds = bounds_in(cons)?;
    if bounds.max < bounds.min {
        return Err(cons.content_err(ContentError::from_static(
            "an AS range that ends before it begins",
        )));
    }
    Ok(AsRange::new(Asn::from_u32(bounds.min), Asn::from_u32(bounds.max)))
}

// A range, if a SEQUENCE is next.
fn take_opt_range<S: Source>(
    cons: &mut Constructed<S>,
) -> Result<Option<AsRange>, DecodeError<S::Error>>
    ensures reads { ReadsOptAs range_ends sequence_tag IsAsRange (here S.rest cons.old) result
        (here S.rest cons.new) }
    ensures failed { OnErr result ((here S.rest cons.new).failed ≡ true) }
    ensures no_memory { IfErr result (λ e. e ≢ Memory) }
{
    cons.take_opt_sequence(
        |cons|
            ensures reads { ReadsAllAs range_ends AreOrdered (here S.rest cons.old) result
                (here S.rest cons.new) }
            ensures no_memory { IfErr result (λ e. e ≢ Memory) }
        { range_in(cons) },
    )
}

impl AsBlock {
    /// A number or a range (RFC 3779 section 3.2.3.5), if a value is next that may be one: an INTEGER or a SEQUENCE.
    /// Where another is next, nothing is read.
    pub fn take_opt_from<S: Source>(
        cons: &mut Constructed<S>,
    ) -> Result<Option<AsBlock>, DecodeError<S::Error>>
        ensures reads { ReadsIfAs as_run IsAsBlock (here S.rest cons.old) result
            (here S.rest cons.new) }
        ensures failed { OnErr result ((here S.rest cons.new).failed ≡ true) }
        ensures no_memory { IfErr result (λ e. e ≢ Memory) }
    {
        let id = cons.take_opt_u32()?;
        if let Some(id) = id {
            return Ok(Some(AsBlock::Id(Asn::from_u32(id))));
        }
        let range = take_opt_range(cons)?;
        match range {
            Some(range) => Ok(Some(AsBlock::Range(range))),
            None => Ok(None),
        }
    }

    /// Skips a number or a range, as `take_opt_from` reads one, and answers whether one was there.
    pub fn skip_opt_in<S: Source>(
        cons: &mut Constructed<S>,
    ) -> Result<Option<()>, DecodeError<S::Error>>
        ensures reads { ReadsIfAs (λ x. x) IsAnyAsBlock (here S.rest cons.old) result
            (here S.rest cons.new) }
        ensures failed { OnErr result ((here S.rest cons.new).failed ≡ true) }
        ensures no_memory { IfErr result (λ e. e ≢ Memory) }
    {
        let block = AsBlock::take_opt_from(cons)?;
        match block {
            Some(_) => Ok(Some(())),
            None => Ok(None),
        }
    }
}
