//! Ranges and blocks that are read from an encoding (RFC 3779 2.2.3.7, 2.2.3.9).

ghost use Rattle.std.specs.Prelude.{◌≡◌, ◌≢◌, true, IfErr, OnErr};
ghost use Rattle.resources_ip_block.specs.bcder_source.declared.error.DecodeError.TheVariants.{Memory};
ghost use Rattle.resources_ip_block.specs.bcder_tree.Tags.{sequence_tag};
ghost use Rattle.resources_ip_block.specs.bcder_content.Exact.{ReadsAllAs, ReadsAs, ReadsOptAs};
ghost use Rattle.resources_ip_block.specs.bcder_content.Here.{here};
ghost use Rattle.resources_ip_block.specs.bcder_content.Perhaps.{ReadsIfAs};
ghost use Rattle.resources_ip_block.specs.Block.{run_of_block};
ghost use Rattle.resources_ip_block.specs.BlockEncodings.{AreEnds, AreOrdered, IsBlock, IsRange, bounds_ends};
ghost use Rattle.resources_ip_block.specs.Range.{run_of_range};

use crate::block::IpBlock;
use crate::codec::decode::{Constructed, ContentError, DecodeError, Source};
use crate::range::AddressRange;
use resources_ip_prefix::{AddressFamily, Prefix};
use std::alloc::Global;

// What the two bit strings of a range begin, in any order.
#[derive(Clone, Copy, Debug)]
struct Bounds {
    min: Prefix,
    max: Prefix,
}

// The two bit strings of a range.
fn bounds_in<S: Source>(
    alloc: Global,
    cons: &mut Constructed<S>,
    family: AddressFamily,
) -> Result<Bounds, DecodeError<S::Error>>
    ensures reads { ReadsAllAs bounds_ends (AreEnds (here S.rest cons.old).mode family)
        (here S.rest cons.old) result (here S.rest cons.new) }
    ensures no_memory { IfErr result (λ e. e ≢ Memory) }
{
    let min = Prefix::take_from(alloc, cons, family)?;
    let max = Prefix::take_from(alloc, cons, family)?;
    Ok(Bounds { min, max })
}

// The range of the content of a SEQUENCE.
fn range_in<S: Source>(
    alloc: Global,
    cons: &mut Constructed<S>,
    family: AddressFamily,
) -> Result<AddressRange, DecodeError<S::Error>>
    ensures reads { ReadsAllAs run_of_range (AreOrdered (here S.rest cons.old).mode family)
        (here S.rest cons.old) result (here S.rest cons.new) }
    ensures no_memory { IfErr result (λ e. e ≢ Memory) }
{
    let bounds = bounds_in(alloc, cons, family)?;
    let min = bounds.min.min();
    let max = bounds.max.max();
    if max.to_bits() < min.to_bits() {
        return Err(cons.content_err(ContentError::from_static(
            "an address range that ends before it begins",
        )));
    }
    Ok(AddressRange::new(min, max))
}

impl AddressRange {
    /// The next value, a SEQUENCE of two bit strings (RFC 3779 2.2.3.9): the addresses of the family from the first,
    /// filled with zeros, to the second, filled with ones. A first that is above the second is refused. No memory
    /// is taken.
    pub fn take_from<S: Source>(
        alloc: Global,
        cons: &mut Constructed<S>,
        family: AddressFamily,
    ) -> Result<AddressRange, DecodeError<S::Error>>
        ensures reads { ReadsAs run_of_range (IsRange (here S.rest cons.old).mode family)
            (here S.rest cons.old) result (here S.rest cons.new) }
        ensures failed { OnErr result ((here S.rest cons.new).failed ≡ true) }
        ensures no_memory { IfErr result (λ e. e ≢ Memory) }
    {
        cons.take_sequence(
            |cons|
                ensures reads { ReadsAllAs run_of_range
                    (AreOrdered (here S.rest cons.old).mode family) (here S.rest cons.old) result
                    (here S.rest cons.new) }
                ensures no_memory { IfErr result (λ e. e ≢ Memory) }
            { range_in(alloc, cons, family) },
        )
    }

    /// Reads a range where a SEQUENCE is next; else nothing is read. No memory is taken.
    pub fn take_opt_from<S: Source>(
        alloc: Global,
        cons: &mut Constructed<S>,
        family: AddressFamily,
    ) -> Result<Option<AddressRange>, DecodeError<S::Error>>
        ensures reads { ReadsOptAs run_of_range sequence_tag
            (IsRange (here S.rest cons.old).mode family) (here S.rest cons.old) result
            (here S.rest cons.new) }
        ensures failed { OnErr result ((here S.rest cons.new).failed ≡ true) }
        ensures no_memory { IfErr result (λ e. e ≢ Memory) }
    {
        cons.take_opt_sequence(
            |cons|
                ensures reads { ReadsAllAs run_of_range
                    (AreOrdered (here S.rest cons.old).mode family) (here S.rest cons.old) result
                    (here S.rest cons.new) }
                ensures no_memory { IfErr result (λ e. e ≢ Memory) }
            { range_in(alloc, cons, family) },
        )
    }
}

impl IpBlock {
    /// A prefix or a range of the family, where a BIT STRING or a SEQUENCE is next (RFC 3779 2.2.3.7); else nothing is
    /// read. No memory is taken.
    pub fn take_opt_from<S: Source>(
        alloc: Global,
        cons: &mut Constructed<S>,
        family: AddressFamily,
    ) -> Result<Option<IpBlock>, DecodeError<S::Error>>
        ensures reads { ReadsIfAs run_of_block (IsBlock (here S.rest cons.old).mode family)
            (here S.rest cons.old) result (here S.rest cons.new) }
        ensures failed { OnErr result ((here S.rest cons.new).failed ≡ true) }
        ensures no_memory { IfErr result (λ e. e ≢ Memory) }
    {
        let prefix = Prefix::take_opt_from(alloc, cons, family)?;
        if let Some(prefix) = prefix {
            return Ok(Some(IpBlock::Prefix(prefix)));
        }
        let range = AddressRange::take_opt_from(alloc, cons, family)?;
        match range {
            Some(range) => Ok(Some(IpBlock::Range(range))),
            None => Ok(None),
        }
    }
}
