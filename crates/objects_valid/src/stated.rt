//! Resources that signed documents state: read, and tested against what is held (RFC 9323 4.1).

ghost use Rattle.std.specs.Prelude.{◌≡◌, ◌↔◌, true, IsTrue, OnErr};
ghost use Rattle.std.specs.Option.{option_map};
ghost use Rattle.objects_cms.specs.bcder_content.Exact.{ReadsAs, ReadsOptAs};
ghost use Rattle.objects_cms.specs.bcder_content.Grammar.{Inside};
ghost use Rattle.objects_cms.specs.bcder_content.Here.{here};
ghost use Rattle.objects_cms.specs.bcder_content.InMode.{ReadsFields};
ghost use Rattle.objects_cms.specs.bcder_tree.Tags.{context};
ghost use Rattle.resources_ip.specs.resources_chain.Sets.{InRuns};
ghost use Rattle.resources_ip.specs.Reading.{family_choices};
ghost use Rattle.objects_valid.specs.Reading.{IsAsContent, IsAsnumContent, IsBlocksContent, IsFamiliesContent, alone, alone_twice, families_alone, parts_of};
ghost use Rattle.objects_valid.specs.Stated.{AreHeld, AreListed, AreParts, AreStated, IsAsIdentifiers, IsAsPart, IsCovered, IsStated, SaysSome, asn_of, families_of, stated_of};

pub mod laws;

use bcder::Tag;
use bcder::decode::{Constructed, ContentError, DecodeError, Source};
use resources_as::{AsBlocks, AsResources};
use resources_ip::{IpBlocks, IpFamilies, IpResources};
use std::alloc::Global;
use std::marker::Model;

/// In which form a kind of document states AS numbers.
#[derive(Clone, Copy, Debug, PartialEq, Eq)]
pub enum AsForm {
    /// As identifiers: `SEQUENCE { asnum [0] EXPLICIT SEQUENCE OF ASIdOrRange }`, as checklists do (RFC 9323 4.1.1).
    Identifiers,
    /// As their blocks alone: `SEQUENCE OF ASIdOrRange`.
    BlocksAlone,
}

/// The resources that a signed document states: of AS numbers, of IPv4 and of IPv6 addresses a set, or none. Contracts
/// see the three.
#[derive(Clone, Debug, Drop)]
pub struct StatedResources {
    asn: AsResources,
    families: IpFamilies,
}

impl Model for StatedResources {
    ghost use Rattle.objects_valid.specs.Stated.{Stated};

    ghost Value = { Stated };

    ghost view = { λ s. record { asn = s.asn; v4 = s.families.v4; v6 = s.families.v6 } };
}

// What is read of the parts.
#[derive(Drop)]
struct Read {
    asn: Option<AsBlocks>,
    families: Option<IpFamilies>,
}

// A set of AS numbers, which is all of a content.
fn take_blocks<S: Source>(
    alloc: Global,
    cons: &mut Constructed<S>,
) -> Result<AsBlocks, DecodeError<S::Error>>
    ensures { ReadsFields alone IsBlocksContent
        (here S.rest cons.old) result (here S.rest cons.new) }
{
    let set = AsBlocks::take_from(alloc, cons)?;
    Ok(set)
}

// The content of identifiers: `asnum [0] EXPLICIT`.
fn take_asnum<S: Source>(
    alloc: Global,
    cons: &mut Constructed<S>,
) -> Result<AsBlocks, DecodeError<S::Error>>
    ensures { ReadsFields alone_twice IsAsnumContent
        (here S.rest cons.old) result (here S.rest cons.new) }
{
    let set = cons.take_constructed_if(
        Tag::CTX_0,
        |cons|
            ensures { ReadsFields alone IsBlocksContent
                (here S.rest cons.old) result (here S.rest cons.new) }
        { take_blocks(alloc, cons) },
    )?;
    Ok(set)
}

// AS numbers as identifiers.
fn take_identifiers<S: Source>(
    alloc: Global,
    cons: &mut Constructed<S>,
) -> Result<AsBlocks, DecodeError<S::Error>>
    ensures { ReadsAs (λ s. s) IsAsIdentifiers
        (here S.rest cons.old) result (here S.rest cons.new) }
{
    cons.take_sequence(
        |cons|
            ensures { ReadsFields alone_twice IsAsnumContent
                (here S.rest cons.old) result (here S.rest cons.new) }
        { take_asnum(alloc, cons) },
    )
}

// AS numbers in that form.
fn take_as_part<S: Source>(
    alloc: Global,
    cons: &mut Constructed<S>,
    form: AsForm,
) -> Result<AsBlocks, DecodeError<S::Error>>
    ensures { ReadsAs (λ s. s) (IsAsPart form)
        (here S.rest cons.old) result (here S.rest cons.new) }
{
    match form {
        AsForm::Identifiers => take_identifiers(alloc, cons),
        AsForm::BlocksAlone => AsBlocks::take_from(alloc, cons),
    }
}

// AS numbers in that form, which are all of a content.
fn take_as_content<S: Source>(
    alloc: Global,
    cons: &mut Constructed<S>,
    form: AsForm,
) -> Result<AsBlocks, DecodeError<S::Error>>
    ensures { ReadsFields alone (IsAsContent form)
        (here S.rest cons.old) result (here S.rest cons.new) }
{
    let set = take_as_part(alloc, cons, form)?;
    Ok(set)
}

// AS numbers, if they are stated: `asID [0] EXPLICIT OPTIONAL`.
fn take_opt_asn<S: Source>(
    alloc: Global,
    cons: &mut Constructed<S>,
    form: AsForm,
) -> Result<Option<AsBlocks>, DecodeError<S::Error>>
    ensures { ReadsOptAs alone (context 0)
        (Inside (context 0) (IsAsContent form (here S.rest cons.old).mode))
        (here S.rest cons.old) result (here S.rest cons.new) }
{
    cons.take_opt_constructed_if(
        Tag::CTX_0,
        |cons|
            ensures { ReadsFields alone (IsAsContent form)
                (here S.rest cons.old) result (here S.rest cons.new) }
        { take_as_content(alloc, cons, form) },
    )
}

// Whether neither family is inherited.
fn are_listed(families: &IpFamilies) -> bool
    ensures { IsTrue result ↔ AreListed (family_choices families.now) }
{
    !families.v4.is_inherited() && !families.v6.is_inherited()
}

// The addresses of each family, which are all of a content.
fn take_families<S: Source>(
    alloc: Global,
    cons: &mut Constructed<S>,
) -> Result<IpFamilies, DecodeError<S::Error>>
    ensures { ReadsFields families_alone IsFamiliesContent
        (here S.rest cons.old) result (here S.rest cons.new) }
{
    let families = IpResources::take_families_from(alloc, cons)?;
    if !are_listed(&families) {
        drop(families);
        return Err((*cons).content_err(ContentError::from_static("inherited resources")));
    }
    Ok(families)
}

// The addresses of each family, if they are stated: `ipAddrBlocks [1] EXPLICIT OPTIONAL`.
fn take_opt_families<S: Source>(
    alloc: Global,
    cons: &mut Constructed<S>,
) -> Result<Option<IpFamilies>, DecodeError<S::Error>>
    ensures { ReadsOptAs families_alone (context 1)
        (Inside (context 1) (IsFamiliesContent (here S.rest cons.old).mode))
        (here S.rest cons.old) result (here S.rest cons.new) }
{
    cons.take_opt_constructed_if(
        Tag::CTX_1,
        |cons|
            ensures { ReadsFields families_alone IsFamiliesContent
                (here S.rest cons.old) result (here S.rest cons.new) }
        { take_families(alloc, cons) },
    )
}

// The parts, each where it is stated.
fn take_parts<S: Source>(
    alloc: Global,
    cons: &mut Constructed<S>,
    form: AsForm,
) -> Result<Read, DecodeError<S::Error>>
    ensures { ReadsFields parts_of (AreParts form)
        (here S.rest cons.old) result (here S.rest cons.new) }
{
    let asn = take_opt_asn(alloc, cons, form)?;
    match take_opt_families(alloc, cons) {
        Ok(families) => Ok(Read { asn, families }),
        Err(error) => {
            drop(asn);
            Err(error)
        }
    }
}

// What is stated of AS numbers.
fn asn_listed(asn: Option<AsBlocks>) -> AsResources
    ensures { result ≡ asn_of (option_map alone asn) }
{
    match asn {
        Some(set) => AsResources::blocks(set),
        None => AsResources::missing(),
    }
}

// What is stated of addresses.
fn families_listed(families: Option<IpFamilies>) -> IpFamilies
    ensures { family_choices result
        ≡ families_of (option_map families_alone families) }
{
    match families {
        Some(families) => families,
        None => IpFamilies {
            v4: IpResources::missing(),
            v6: IpResources::missing(),
        },
    }
}

// Whether a part is there.
fn says_some(read: &Read) -> bool
    ensures { IsTrue result ↔ SaysSome (parts_of read.now) }
{
    read.asn.is_some() || read.families.is_some()
}

// What the parts state.
fn listed(read: Read) -> StatedResources
    ensures { result ≡ stated_of (parts_of read) }
{
    let Read { asn, families } = read;
    StatedResources {
        asn: asn_listed(asn),
        families: families_listed(families),
    }
}

// What is stated, by all values of a content.
fn take_content<S: Source>(
    alloc: Global,
    cons: &mut Constructed<S>,
    form: AsForm,
) -> Result<StatedResources, DecodeError<S::Error>>
    ensures { ReadsFields (λ s. s) (AreStated form)
        (here S.rest cons.old) result (here S.rest cons.new) }
{
    let read = take_parts(alloc, cons, form)?;
    if !says_some(&read) {
        drop(read);
        return Err((*cons).content_err(ContentError::from_static("no resources stated")));
    }
    Ok(listed(read))
}

// Whether all AS numbers that are stated are held.
fn is_as_held(alloc: Global, stated: &AsResources, held: &AsBlocks) -> bool
    ensures { IsTrue result ↔ AreHeld stated.now (InRuns held.now) }
{
    match held.verify_covered(alloc, stated) {
        Ok(()) => true,
        Err(error) => {
            drop(error);
            false
        }
    }
}

// Whether all addresses that are stated are held.
fn is_ip_held(alloc: Global, stated: &IpResources, held: &IpBlocks) -> bool
    ensures { IsTrue result ↔ AreHeld stated.now (InRuns held.now) }
{
    match held.verify_covered(alloc, stated) {
        Ok(()) => true,
        Err(error) => {
            drop(error);
            false
        }
    }
}

impl StatedResources {
    /// The resources that come next, with AS numbers in that form: refused are a value with neither part, inherited
    /// resources, a family twice, a list without families, and a range that ends before it begins. Blocks may come in any
    /// order, and be none.
    pub fn take_from<S: Source>(
        alloc: Global,
        cons: &mut Constructed<S>,
        form: AsForm,
    ) -> Result<Self, DecodeError<S::Error>>
        ensures reads { ReadsAs (λ s. s) (IsStated form (here S.rest cons.old).mode)
            (here S.rest cons.old) result (here S.rest cons.new) }
        ensures failed { OnErr result ((here S.rest cons.new).failed ≡ true) }
    {
        cons.take_sequence(
            |cons|
                ensures { ReadsFields (λ s. s) (AreStated form)
                    (here S.rest cons.old) result (here S.rest cons.new) }
            { take_content(alloc, cons, form) },
        )
    }

    /// What is stated of AS numbers: a set, or that they are missing.
    pub fn as_resources(&self) -> &AsResources
        ensures { result.now ≡ self.now.asn }
    {
        &self.asn
    }

    /// What is stated of IPv4 addresses: a set, or that they are missing.
    pub fn v4_resources(&self) -> &IpResources
        ensures { result.now ≡ self.now.v4 }
    {
        &self.families.v4
    }

    /// What is stated of IPv6 addresses: a set, or that they are missing.
    pub fn v6_resources(&self) -> &IpResources
        ensures { result.now ≡ self.now.v6 }
    {
        &self.families.v6
    }

    /// Whether all that is stated is held: of each kind the set is within that one (RFC 9323 5). A kind that isn't stated
    /// needs nothing. Where some number isn't held memory is taken, and lack of it doesn't change the answer.
    pub fn is_covered(&self, alloc: Global, asn: &AsBlocks, v4: &IpBlocks, v6: &IpBlocks) -> bool
        ensures { IsTrue result
            ↔ IsCovered (InRuns asn.now) (InRuns v4.now) (InRuns v6.now) self.now }
    {
        is_as_held(alloc, &self.asn, asn)
            && is_ip_held(alloc, &self.families.v4, v4)
            && is_ip_held(alloc, &self.families.v6, v6)
    }
}
