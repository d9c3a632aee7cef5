//! Bundles, read by the codec up to the end of their octets.

ghost use Rattle.std.specs.Prelude.{◌≡◌, IfErr, OnErr, true};
ghost use Rattle.rpki_bundle.specs.bcder_content.Exact.{ReadsAs};
ghost use Rattle.rpki_bundle.specs.bcder_content.Here.{here};
ghost use Rattle.rpki_bundle.specs.bcder_content.InMode.{ReadsFields};
ghost use Rattle.rpki_bundle.specs.bcder_content.Memory.{OnMemory};
ghost use Rattle.rpki_bundle.specs.Begun.{BeginsBundle, BeginsFields, BeginsText, Found};
ghost use Rattle.rpki_bundle.specs.Ends.{ReadsToEndAs};
ghost use Rattle.rpki_bundle.specs.Bundle.{AreBundleFields, AreLists, IsBundle};
ghost use Rattle.rpki_bundle.specs.PartFields.{IsBundleAlone, TellsBundle, entries_fields, parts_alone, parts_fields, parts_value};

use crate::entries::take_list;
use crate::reader::take_depth;
use crate::{Locator, Object, Time, Verdict, Version};
use certs_key::Mode;
use certs_key::decode::{Constructed, ContentError, Decode, DecodeError, IntoSource, Source};
use std::alloc::Global;

/// A bundle's lists.
#[derive(Debug, Drop)]
pub struct Entries {
    /// The trust anchor locators.
    pub locators: Vec<Locator>,
    /// The objects.
    pub objects: Vec<Object>,
    /// The good signatures.
    pub verdicts: Vec<Verdict>,
}

/// The parts of a bundle.
#[derive(Debug, Drop)]
pub struct Parts {
    /// The version.
    pub version: Version,
    /// The moment at which validity is judged.
    pub moment: Time,
    /// The greatest length of chains.
    pub depth: u8,
    /// The lists.
    pub entries: Entries,
}

// The lists of a bundle, up to the end of their content.
fn take_entries<S: Source>(
    alloc: Global,
    cons: &mut Constructed<S>,
) -> Result<Entries, DecodeError<S::Error>>
    ensures { ReadsFields entries_fields AreLists (here S.rest cons.old) result
        (here S.rest cons.new) }
{
    let locators = take_list::<Locator, S>(alloc, cons)?;
    let objects = take_list::<Object, S>(alloc, cons)?;
    let verdicts = take_list::<Verdict, S>(alloc, cons)?;
    Ok(Entries {
        locators,
        objects,
        verdicts,
    })
}

// The fields of a bundle, up to the end of their content. In version 1 a flag stands in front of the lists. Nothing before
// the lists takes memory.
fn take_parts<S: Source>(
    alloc: Global,
    cons: &mut Constructed<S>,
) -> Result<Parts, DecodeError<S::Error>>
    ensures reads { ReadsFields parts_fields AreBundleFields (here S.rest cons.old) result
        (here S.rest cons.new) }
    ensures begins { Found result (BeginsFields (here S.rest cons.old)) }
{
    let number = cons.take_u8()?;
    let moment = Time::take_generalized_from(cons)?;
    let depth = take_depth(cons)?;
    if number == 0 {
        let entries = take_entries(alloc, cons)?;
        return Ok(Parts {
            version: Version::Zero,
            moment,
            depth,
            entries,
        });
    }
    if number != 1 {
        cons.fail();
        return Err(cons.content_err(ContentError::from_static("the version isn't 0 or 1")));
    }
    let relaxed = cons.take_bool()?;
    let entries = take_entries(alloc, cons)?;
    Ok(Parts {
        version: Version::One { relaxed },
        moment,
        depth,
        entries,
    })
}

// A bundle.
fn take_bundle<S: Source>(
    alloc: Global,
    cons: &mut Constructed<S>,
) -> Result<Parts, DecodeError<S::Error>>
    ensures reads { ReadsAs parts_value (IsBundle (here S.rest cons.old).mode)
        (here S.rest cons.old) result (here S.rest cons.new) }
    ensures failed { OnErr result ((here S.rest cons.new).failed ≡ true) }
    ensures begins { Found result (BeginsBundle (here S.rest cons.old)) }
{
    cons.take_sequence(
        |cons|
            ensures reads { ReadsFields parts_fields AreBundleFields
                (here S.rest cons.old) result (here S.rest cons.new) }
            ensures begins { Found result (BeginsFields (here S.rest cons.old)) }
        { take_parts(alloc, cons) },
    )
}

// A bundle, after which the source has ended.
fn take_alone<S: Source>(
    alloc: Global,
    cons: &mut Constructed<S>,
) -> Result<Parts, DecodeError<S::Error>>
    ensures reads { ReadsToEndAs parts_alone (IsBundleAlone (here S.rest cons.old).mode)
        (here S.rest cons.old) result (here S.rest cons.new) }
    ensures failed { OnErr result ((here S.rest cons.new).failed ≡ true) }
    ensures memory { IfErr result (λ e. OnMemory e (BeginsBundle (here S.rest cons.old))) }
{
    let parts = take_bundle(alloc, cons)?;
    let behind = cons.skip_one(alloc)?;
    if let Some(_skipped) = behind {
        cons.fail();
        return Err(cons.content_err(ContentError::from_static("octets after the bundle")));
    }
    Ok(parts)
}

/// What all octets of a source tell of a bundle, in DER. `Memory` only where they begin as one, up to its lists.
pub fn read_whole<I: IntoSource>(
    alloc: Global,
    source: I,
) -> Result<Parts, DecodeError<<I::Source as Source>::Error>>
    ensures tells { TellsBundle (I.octets source) result }
    ensures memory { IfErr result (λ e. OnMemory e (BeginsText (I.octets source))) }
{
    Mode::Der.decode(
        source,
        |cons|
            ensures reads { ReadsToEndAs parts_alone
                (IsBundleAlone (here I.Source.rest cons.old).mode) (here I.Source.rest cons.old)
                result (here I.Source.rest cons.new) }
            ensures memory { IfErr result
                (λ e. OnMemory e (BeginsBundle (here I.Source.rest cons.old))) }
        { take_alone(alloc, cons) },
    )
}
