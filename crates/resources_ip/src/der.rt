//! IP resources that are read from an encoding (RFC 3779 2.2.3).

ghost use Rattle.std.specs.Prelude.{◌≡◌, ◌≢◌, [], ◌∷◌, true, MatchOption, IfOk, OnErr};
ghost use Rattle.resources_ip.specs.bcder_tree.Tags.{sequence_tag};
ghost use Rattle.resources_ip.specs.bcder_content.Exact.{ReadsAllAs, ReadsAs, ReadsOptAs};
ghost use Rattle.resources_ip.specs.bcder_content.Grammar.{Many};
ghost use Rattle.resources_ip.specs.bcder_content.Here.{here};
ghost use Rattle.resources_ip.specs.resources_ip_prefix.declared.addr.AddressFamily.TheVariants.{Ipv4 as V4, Ipv6 as V6};
ghost use Rattle.resources_ip_block.specs.BlockEncodings.{IsBlock};
ghost use Rattle.resources_ip.specs.Encodings.{AreBlocks, AreFamilyFields, AreIpFamilies, IsBlockList, IsIpAddrBlocks, IsIpChoice, IsIpFamily, choices_of};
ghost use Rattle.resources_ip.specs.Reading.{ArePair, Repeats, all_of, family_choice, family_choices, pair_fields};
ghost use Rattle.resources_ip.specs.WholeSets.{ListsWhole};
ghost use Rattle.resources_ip.specs.Written.{FitsChoice, FitsSet};

use crate::blocks::{IpBlocks, IpBlocksBuilder};
use crate::codec::decode::{Constructed, ContentError, DecodeError, Source};
use crate::resources::{IpFamilies, IpResources};
use resources_ip_block::{AddressFamily, IpBlock};
use std::alloc::Global;

// All blocks of a content.
fn gather<S: Source>(
    alloc: Global,
    cons: &mut Constructed<S>,
    family: AddressFamily,
) -> Result<IpBlocksBuilder, DecodeError<S::Error>>
    ensures { ReadsAllAs (λ b. b) (Many (IsBlock (here S.rest cons.old).mode family))
        (here S.rest cons.old) result (here S.rest cons.new) }
{
    let mut blocks = IpBlocksBuilder::new(alloc);
    while let Some(block) = IpBlock::take_opt_from(alloc, cons, family)? {
        blocks.push(block)?;
    }
    Ok(blocks)
}

// The union of all blocks of a content.
fn blocks_in<S: Source>(
    alloc: Global,
    cons: &mut Constructed<S>,
    family: AddressFamily,
) -> Result<IpBlocks, DecodeError<S::Error>>
    ensures { ReadsAllAs (λ b. b) (AreBlocks (here S.rest cons.old).mode family)
        (here S.rest cons.old) result (here S.rest cons.new) }
{
    let blocks = gather(alloc, cons, family)?;
    let set = blocks.finalize(alloc)?;
    Ok(set)
}

impl IpBlocks {
    /// The next value, a list of blocks of the family (RFC 3779 2.2.3.6): their union, in whatever order they are, and
    /// also where they overlap. It may be empty.
    pub fn take_from<S: Source>(
        alloc: Global,
        cons: &mut Constructed<S>,
        family: AddressFamily,
    ) -> Result<IpBlocks, DecodeError<S::Error>>
        ensures reads { ReadsAs (λ b. b) (IsBlockList (here S.rest cons.old).mode family)
            (here S.rest cons.old) result (here S.rest cons.new) }
        ensures fits { IfOk result (FitsSet family) }
        ensures failed { OnErr result ((here S.rest cons.new).failed ≡ true) }
    {
        cons.take_sequence(
            |cons|
                ensures { ReadsAllAs (λ b. b) (AreBlocks (here S.rest cons.old).mode family)
                    (here S.rest cons.old) result (here S.rest cons.new) }
            { blocks_in(alloc, cons, family) },
        )
    }
}

// What is said of one family.
#[derive(Drop)]
struct IpFamily {
    family: AddressFamily,
    resources: IpResources,
}

// The two fields of a family.
fn fields_in<S: Source>(
    alloc: Global,
    cons: &mut Constructed<S>,
) -> Result<IpFamily, DecodeError<S::Error>>
    ensures { ReadsAllAs family_choice (AreFamilyFields (here S.rest cons.old).mode)
        (here S.rest cons.old) result (here S.rest cons.new) }
{
    let family = AddressFamily::take_from(alloc, cons)?;
    let resources = IpResources::take_from(alloc, cons, family)?;
    Ok(IpFamily { family, resources })
}

// A family.
fn take_family<S: Source>(
    alloc: Global,
    cons: &mut Constructed<S>,
) -> Result<IpFamily, DecodeError<S::Error>>
    ensures { ReadsAs family_choice (IsIpFamily (here S.rest cons.old).mode) (here S.rest cons.old)
        result (here S.rest cons.new) }
{
    cons.take_sequence(
        |cons|
            ensures { ReadsAllAs family_choice (AreFamilyFields (here S.rest cons.old).mode)
                (here S.rest cons.old) result (here S.rest cons.new) }
        { fields_in(alloc, cons) },
    )
}

// A family, if one is next.
fn take_opt_family<S: Source>(
    alloc: Global,
    cons: &mut Constructed<S>,
) -> Result<Option<IpFamily>, DecodeError<S::Error>>
    ensures { ReadsOptAs family_choice sequence_tag (IsIpFamily (here S.rest cons.old).mode)
        (here S.rest cons.old) result (here S.rest cons.new) }
{
    cons.take_opt_sequence(
        |cons|
            ensures { ReadsAllAs family_choice (AreFamilyFields (here S.rest cons.old).mode)
                (here S.rest cons.old) result (here S.rest cons.new) }
        { fields_in(alloc, cons) },
    )
}

// One family or two, since there are no more.
#[derive(Drop)]
struct Pair {
    first: IpFamily,
    second: Option<IpFamily>,
}

// The families, which may be the same.
fn pair_in<S: Source>(
    alloc: Global,
    cons: &mut Constructed<S>,
) -> Result<Pair, DecodeError<S::Error>>
    ensures { ReadsAllAs pair_fields (ArePair (here S.rest cons.old).mode) (here S.rest cons.old)
        result (here S.rest cons.new) }
{
    let first = take_family(alloc, cons)?;
    let second = take_opt_family(alloc, cons)?;
    Ok(Pair { first, second })
}

// What is said where one family alone is mentioned.
fn alone(only: IpFamily) -> IpFamilies
    ensures { family_choices result ≡ choices_of (family_choice only ∷ []) }
{
    match only.family {
        AddressFamily::Ipv4 => IpFamilies {
            v4: only.resources,
            v6: IpResources::missing(),
        },
        AddressFamily::Ipv6 => IpFamilies {
            v4: IpResources::missing(),
            v6: only.resources,
        },
    }
}

// What is said where both are; none where they are the same.
fn both(first: IpFamily, second: IpFamily) -> Option<IpFamilies>
    ensures { MatchOption result (second.family ≡ first.family)
        (λ all. (second.family ≢ first.family)
        × (family_choices all ≡ choices_of (family_choice first ∷ family_choice second ∷ []))) }
{
    match (first.family, second.family) {
        (AddressFamily::Ipv4, AddressFamily::Ipv6) => Some(IpFamilies {
            v4: first.resources,
            v6: second.resources,
        }),
        (AddressFamily::Ipv6, AddressFamily::Ipv4) => Some(IpFamilies {
            v4: second.resources,
            v6: first.resources,
        }),
        _ => None,
    }
}

// What a pair says; nothing where a family occurs twice.
fn families_of(pair: Pair) -> Option<IpFamilies>
    ensures { MatchOption result (Repeats (pair_fields pair).0 (pair_fields pair).1.0)
        (λ all. ¬ (Repeats (pair_fields pair).0 (pair_fields pair).1.0)
        × (family_choices all ≡ choices_of (all_of (pair_fields pair).0 (pair_fields pair).1.0))) }
{
    let Pair { first, second } = pair;
    match second {
        None => Some(alone(first)),
        Some(second) => both(first, second),
    }
}

// What is said of each family.
fn families_in<S: Source>(
    alloc: Global,
    cons: &mut Constructed<S>,
) -> Result<IpFamilies, DecodeError<S::Error>>
    ensures { ReadsAllAs family_choices (AreIpFamilies (here S.rest cons.old).mode)
        (here S.rest cons.old) result (here S.rest cons.new) }
{
    let pair = pair_in(alloc, cons)?;
    match families_of(pair) {
        Some(families) => Ok(families),
        None => Err(
            (*cons).content_err(ContentError::from_static("an address family that occurs twice")),
        ),
    }
}

impl IpResources {
    /// The next value, what is said of the addresses of the family (RFC 3779 2.2.3.4): NULL, where they are those of the
    /// issuer, or a list of blocks, which means their union.
    ///
    /// Anything else is refused: more bits than an address has, a range that ends before it begins.
    pub fn take_from<S: Source>(
        alloc: Global,
        cons: &mut Constructed<S>,
        family: AddressFamily,
    ) -> Result<IpResources, DecodeError<S::Error>>
        ensures reads { ReadsAs (λ r. r) (IsIpChoice (here S.rest cons.old).mode family)
            (here S.rest cons.old) result (here S.rest cons.new) }
        ensures fits { IfOk result (FitsChoice family) }
        ensures whole { IfOk result (λ r. family ≡ V4 → ListsWhole r) }
        ensures failed { OnErr result ((here S.rest cons.new).failed ≡ true) }
    {
        let inherit = cons.take_opt_null()?;
        if let Some(()) = inherit {
            return Ok(IpResources::inherit());
        }
        let blocks = IpBlocks::take_from(alloc, cons, family)?;
        Ok(IpResources::blocks(blocks))
    }

    /// The IP resources of an extension's value (RFC 3779 2.2.3; RFC 6487 section 4.8.10), of both families: missing where
    /// a family isn't mentioned. One is mentioned at least, and each once at most, in any order.
    pub fn take_families_from<S: Source>(
        alloc: Global,
        cons: &mut Constructed<S>,
    ) -> Result<IpFamilies, DecodeError<S::Error>>
        ensures reads { ReadsAs family_choices (IsIpAddrBlocks (here S.rest cons.old).mode)
            (here S.rest cons.old) result (here S.rest cons.new) }
        ensures fits_v4 { IfOk result (λ x. FitsChoice V4 x.v4) }
        ensures fits_v6 { IfOk result (λ x. FitsChoice V6 x.v6) }
        ensures whole { IfOk result (λ x. ListsWhole x.v4) }
        ensures failed { OnErr result ((here S.rest cons.new).failed ≡ true) }
    {
        cons.take_sequence(
            |cons|
                ensures { ReadsAllAs family_choices (AreIpFamilies (here S.rest cons.old).mode)
                    (here S.rest cons.old) result (here S.rest cons.new) }
            { families_in(alloc, cons) },
        )
    }
}
