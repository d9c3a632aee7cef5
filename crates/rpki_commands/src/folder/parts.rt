//! From what was read of a folder to the parts of a bundle.

ghost use Rattle.std.specs.Prelude.{◌≡◌, IfOk, IfErr, IfNone, IfSome};
ghost use Rattle.std.specs.Ordering.{nat_cmp};
ghost use Rattle.std.specs.Cmp.Lexicographic.{slice_cmp};
ghost use Rattle.std.specs.List.Sorted.{IsPermutation};
ghost use Rattle.rpki_commands.specs.rpki_bundle.Bundle.{BundleValue, verdict_row};
ghost use Rattle.rpki_commands.specs.rpki_bundle.declared.version.Version.{Version as VersionValue};
ghost use Rattle.rpki_commands.specs.rpki_bundle.Errors.{OnNotABundle};
ghost use Rattle.rpki_commands.specs.Folders.{IsSortedOn, OnMemory, Tells, TellsParts, TellsSome, TellsVersion};

use crate::folder::lines::{depth_of, flag_of, moment_of};
use crate::folder::verdicts::verdicts_of;
use rpki_validator::{BundleError, Locator, Object, Time, Verdict, Version};
use std::alloc::Global;
use std::cmp::Ordering;

// So many octets of a file are read at most; a file that has them is too long for a bundle.
const MOST_OCTETS: usize = 4_294_967_296;

/// What was read of a folder.
#[derive(Debug, Drop)]
pub struct Contents {
    /// The octets of `moment`.
    pub moment: Vec<u8>,
    /// The octets of `depth`.
    pub depth: Vec<u8>,
    /// The octets of `relaxed`, if it is there.
    pub relaxed: Option<Vec<u8>>,
    /// The octets of `verdicts`; none where it is absent.
    pub verdicts: Vec<u8>,
    /// The files of `tals`, each under its name without `.tal`, in any order.
    pub locators: Vec<Locator>,
    /// The files of `rsync` and `https`, each under its URI, in any order.
    pub objects: Vec<Object>,
}

/// Parts of a bundle, sorted as a bundle has them.
#[derive(Debug, Drop)]
pub struct Parts {
    /// The version.
    pub version: Version,
    /// The moment at which validity is judged.
    pub moment: Time,
    /// The greatest number of certificates in a chain.
    pub depth: u8,
    /// The trust anchor locators, by name.
    pub locators: Vec<Locator>,
    /// The objects, by URI.
    pub objects: Vec<Object>,
    /// The good signatures, by their three digests.
    pub verdicts: Vec<Verdict>,
}

// The locators, sorted by their names.
fn sorted_locators(mut locators: Vec<Locator>) -> Vec<Locator>
    ensures permutation { IsPermutation locators.items result.items }
    ensures sorted { IsSortedOn (λ l. l.name) result.items }
{
    locators.sort_unstable_by(|a, b| a.name.as_slice().cmp(&b.name.as_slice()));
    locators
}

// The objects, sorted by their URIs.
fn sorted_objects(mut objects: Vec<Object>) -> Vec<Object>
    ensures permutation { IsPermutation objects.items result.items }
    ensures sorted { IsSortedOn (λ o. o.uri) result.items }
{
    objects.sort_unstable_by(|a, b| a.uri.as_slice().cmp(&b.uri.as_slice()));
    objects
}

// The order of verdicts, by their 96 octets.
fn cmp_verdicts(a: &Verdict, b: &Verdict) -> Ordering
    ensures { result ≡ slice_cmp nat_cmp (verdict_row a.now) (verdict_row b.now) }
{
    a.key
        .cmp(&b.key)
        .then(a.message.cmp(&b.message))
        .then(a.signature.cmp(&b.signature))
}

// The verdicts, sorted by their 96 octets.
fn sorted_verdicts(mut verdicts: Vec<Verdict>) -> Vec<Verdict>
    ensures permutation { IsPermutation verdicts.items result.items }
    ensures sorted { IsSortedOn verdict_row result.items }
{
    verdicts.sort_unstable_by(|a, b| cmp_verdicts(a, b));
    verdicts
}

// The version that a folder's file `relaxed` gives, if it says whether signed objects are.
fn version_of(relaxed: &Option<Vec<u8>>) -> Option<Version>
    ensures found { IfSome result (λ version. TellsVersion relaxed.now version) }
    ensures none { IfNone result
        ((version : VersionValue) → TellsVersion relaxed.now version → ⊥) }
{
    let Some(text) = relaxed else {
        return Some(Version::Zero);
    };
    match flag_of(text.as_slice()) {
        Some(relaxed) => Some(Version::One { relaxed }),
        None => None,
    }
}

/// The parts that the contents of a folder give. Lists keep what was read, entries that occur twice included.
pub fn parts_of(alloc: Global, contents: Contents) -> Result<Parts, BundleError>
    ensures ok { IfOk result (λ parts. TellsParts contents parts) }
    ensures refused { IfErr result
        (λ e. OnNotABundle e ((b : BundleValue) → Tells contents b → ⊥)) }
    ensures memory { IfErr result (λ e. OnMemory e (TellsSome contents)) }
{
    let Some(version) = version_of(&contents.relaxed) else {
        return Err(BundleError::NotABundle);
    };
    let Some(moment) = moment_of(contents.moment.as_slice()) else {
        return Err(BundleError::NotABundle);
    };
    let Some(depth) = depth_of(contents.depth.as_slice()) else {
        return Err(BundleError::NotABundle);
    };
    if contents.verdicts.len() >= MOST_OCTETS {
        return Err(BundleError::NotABundle);
    }
    let verdicts = match verdicts_of(alloc, contents.verdicts.as_slice()) {
        Ok(verdicts) => verdicts,
        Err(error) => return Err(error),
    };
    Ok(Parts {
        version,
        moment,
        depth,
        locators: sorted_locators(contents.locators),
        objects: sorted_objects(contents.objects),
        verdicts: sorted_verdicts(verdicts),
    })
}
