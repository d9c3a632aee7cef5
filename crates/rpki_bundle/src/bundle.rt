//! Bundles, made of parts, read and written.

ghost use Rattle.std.specs.Prelude.{◌≡◌, ◌↔◌, ℕ, ◌<◌, List, IsTrue, IfSome, IfNone, IfOk, IfErr};
ghost use Rattle.std.specs.Ordering.{nat_cmp};
ghost use Rattle.std.specs.Cmp.Lexicographic.{slice_cmp};
ghost use Rattle.certs_basics.specs.Uris.{IsUri, lookup_key as key_of};
ghost use Rattle.rpki_bundle.specs.Orders.{Ascends};
ghost use Rattle.rpki_bundle.specs.Objects.{IsAt};
ghost use Rattle.rpki_bundle.specs.declared.error.BundleError.TheVariants.{NotABundle as not_a_bundle};
ghost use Rattle.rpki_bundle.specs.Ends.{Refuses};
ghost use Rattle.rpki_bundle.specs.Begun.{BeginsText};
ghost use Rattle.rpki_bundle.specs.Errors.{OnMemory, OnNotABundle};
ghost use Rattle.rpki_bundle.specs.PartFields.{parts_value};
ghost use Rattle.rpki_bundle.specs.Bundle.{BundleText, IsSpelled};
ghost use Rattle.rpki_bundle.specs.declared.version.Version.TheVariants.{Zero as version_0, One as version_1};

use crate::entries::is_lawful_list;
use crate::reader::is_depth;
use crate::uri::{cmp_lookup_key, is_uri};
use crate::whole::{Entries, Parts, read_whole};
use crate::writer::{members_len, write_members};
use crate::{BundleError, Locator, Object, Time, Verdict, Version};
use bytes::Bytes;
use certs_key::decode::DecodeError;
use std::alloc::{AllocError, Global};
use std::cmp::Ordering;
use std::convert::Infallible;
use std::marker::Model;

/// All that one run of the validator is given: a moment, the greatest length of chains, trust anchor locators,
/// published objects, and the signatures that are good.
#[derive(Debug, Drop)]
pub struct Bundle {
    parts: Parts,
}

impl Model for Bundle {
    ghost use Rattle.rpki_bundle.specs.Bundle.{BundleValue};

    ghost Value = { BundleValue };

    ghost use Rattle.rpki_bundle.specs.PartFields.{parts_value};

    ghost view = { λ b. parts_value b.parts };

    ghost use Rattle.rpki_bundle.specs.Bundle.{IsSpelled};

    ghost invariant = { λ b. IsSpelled (parts_value b.parts) };
}

// The bundle of what was read.
fn bundle_of(parts: Parts) -> Bundle
    requires { IsSpelled (parts_value parts) }
    ensures { result ≡ parts_value parts }
{
    Bundle { parts }
}

// Why octets are no bundle, by why they can't be read.
fn refusal(error: DecodeError<Infallible>) -> BundleError
    ensures { Refuses error result }
{
    match error {
        DecodeError::Content(_, _) => BundleError::NotABundle,
        DecodeError::Source(never) => match never {},
        DecodeError::Memory => BundleError::Memory,
    }
}

// Whether a bundle may have these parts.
fn is_lawful(parts: &Parts) -> bool
    ensures { IsTrue result ↔ IsSpelled (parts_value parts.now) }
{
    if !is_depth(parts.depth) {
        return false;
    }
    if !is_lawful_list(parts.entries.locators.as_slice()) {
        return false;
    }
    if !is_lawful_list(parts.entries.objects.as_slice()) {
        return false;
    }
    if !is_lawful_list(parts.entries.verdicts.as_slice()) {
        return false;
    }
    let text = parts.moment.generalized();
    members_len(parts.version, &text, parts.depth, &parts.entries).is_ok()
}

// A bundle with these parts, if there is one.
fn of_parts(parts: Parts) -> Result<Bundle, BundleError>
    ensures ok { IfOk result (λ b. b ≡ parts_value parts) }
    ensures spelled { IfOk result (λ b. (octets : List ℕ) × BundleText octets b) }
    ensures refused { IfErr result (λ e. (e ≡ not_a_bundle)
        × ((octets : List ℕ) → BundleText octets (parts_value parts) → ⊥)) }
{
    if !is_lawful(&parts) {
        return Err(BundleError::NotABundle);
    }
    Ok(Bundle { parts })
}

// The octets of the object at the lookup key of a URI, among objects that ascend.
fn find<'a>(objects: &'a [Object], uri: &[u8]) -> Option<&'a [u8]>
    requires { Ascends (λ o. o.uri) objects.now }
    ensures found { IfSome result (λ octets. IsAt objects.now (key_of uri.now) octets.now) }
    ensures none { IfNone result
        ((octets : List ℕ) → IsAt objects.now (key_of uri.now) octets → ⊥) }
{
    let found = objects.binary_search_by(
        |object: &Object| -> Ordering
            ensures { result ≡ slice_cmp nat_cmp object.now.uri (key_of uri.entry.now) }
        { cmp_lookup_key(object.uri.as_slice(), uri) },
    );
    match found {
        Ok(i) => Some(objects[i].octets.as_slice()),
        Err(_) => None,
    }
}

impl Bundle {
    ghost use Rattle.rpki_bundle.specs.Bundle.{BundleValue, is_relaxed};

    /// A bundle of version 0 with these parts, which have to be those of some bundle: a depth from `MIN_DEPTH` to
    /// `MAX_DEPTH`, names that are printable, not empty and without a space, URIs that are their own lookup keys, each list
    /// strictly ascending, and no more octets than a length can say. Nothing is sorted, and refused parts are dropped.
    pub fn from_parts(
        moment: Time,
        depth: u8,
        locators: Vec<Locator>,
        objects: Vec<Object>,
        verdicts: Vec<Verdict>,
    ) -> Result<Bundle, BundleError>
        ensures ok { IfOk result (λ b. b
            ≡ record {
              version = version_0;
              moment = moment;
              depth = depth;
              locators = locators.items;
              objects = objects.items;
              verdicts = verdicts.items;
            }) }
        ensures spelled { IfOk result (λ b. (octets : List ℕ) × BundleText octets b) }
        ensures refused { IfErr result (λ e. (e ≡ not_a_bundle)
            × ((octets : List ℕ)
            → BundleText octets
            (record {
              version = version_0;
              moment = moment;
              depth = depth;
              locators = locators.items;
              objects = objects.items;
              verdicts = verdicts.items;
            }) → ⊥)) }
    {
        of_parts(Parts {
            version: Version::Zero,
            moment,
            depth,
            entries: Entries {
                locators,
                objects,
                verdicts,
            },
        })
    }

    /// A bundle of version 1 with these parts, as [`Bundle::from_parts`] makes one of version 0. Where `relaxed` is true,
    /// its manifests, ROAs and ASPAs are read in BER.
    pub fn from_parts_v1(
        relaxed: bool,
        moment: Time,
        depth: u8,
        locators: Vec<Locator>,
        objects: Vec<Object>,
        verdicts: Vec<Verdict>,
    ) -> Result<Bundle, BundleError>
        ensures ok { IfOk result (λ b. b
            ≡ record {
              version = version_1 relaxed;
              moment = moment;
              depth = depth;
              locators = locators.items;
              objects = objects.items;
              verdicts = verdicts.items;
            }) }
        ensures spelled { IfOk result (λ b. (octets : List ℕ) × BundleText octets b) }
        ensures refused { IfErr result (λ e. (e ≡ not_a_bundle)
            × ((octets : List ℕ)
            → BundleText octets
            (record {
              version = version_1 relaxed;
              moment = moment;
              depth = depth;
              locators = locators.items;
              objects = objects.items;
              verdicts = verdicts.items;
            }) → ⊥)) }
    {
        of_parts(Parts {
            version: Version::One { relaxed },
            moment,
            depth,
            entries: Entries {
                locators,
                objects,
                verdicts,
            },
        })
    }

    /// The bundle of version 1 with the same parts, of a bundle of any version. Where `relaxed` is true, its manifests, ROAs
    /// and ASPAs are read in BER. Its parts are moved, and no memory is taken.
    ///
    /// `NotABundle` where there is no such bundle: its octets would be more than a length can say, since what else a bundle
    /// asks of its parts holds of them already. Then the bundle is handed back as it was.
    pub fn upgrade(self, relaxed: bool) -> Result<Bundle, (Bundle, BundleError)>
        ensures ok { IfOk result (λ b. b ≡ record self { version = version_1 relaxed }) }
        ensures spelled { IfOk result (λ b. (octets : List ℕ) × BundleText octets b) }
        ensures handed_back { IfErr result (λ e. e.0 ≡ self) }
        ensures refused { IfErr result (λ e. (e.1 ≡ not_a_bundle)
            × ((octets : List ℕ)
            → BundleText octets (record self { version = version_1 relaxed }) → ⊥)) }
    {
        let version = Version::One { relaxed };
        if !self.has_text_as(version) {
            return Err((self, BundleError::NotABundle));
        }
        let Bundle { parts } = self;
        let Parts {
            version: _,
            moment,
            depth,
            entries,
        } = parts;
        let parts = Parts {
            version,
            moment,
            depth,
            entries,
        };
        Ok(Bundle { parts })
    }

    // Whether octets spell the bundle with that version in place of its own.
    fn has_text_as(&self, version: Version) -> bool
        ensures { IsTrue result ↔ IsSpelled (record self.now { version = version }) }
    {
        let moment = self.parts.moment.generalized();
        members_len(version, &moment, self.parts.depth, &self.parts.entries).is_ok()
    }

    /// Reads a bundle, in DER.
    ///
    /// `NotABundle` where the octets, all of them, are none: octets after the value are refused. `Memory` where a
    /// growth was refused, which comes only of octets that begin as a bundle's: version, moment, depth and flag were good.
    pub fn decode(alloc: Global, octets: &[u8]) -> Result<Bundle, BundleError>
        ensures ok { IfOk result (BundleText octets.now) }
        ensures not_a_bundle { IfErr result
            (λ e. OnNotABundle e ((b : BundleValue) → BundleText octets.now b → ⊥)) }
        ensures memory { IfErr result (λ e. OnMemory e (BeginsText octets.now)) }
    {
        match read_whole(alloc, octets) {
            Ok(parts) => Ok(bundle_of(parts)),
            Err(error) => Err(refusal(error)),
        }
    }

    /// Reads a bundle as [`Bundle::decode`] does, of octets that it then shares: its names, texts, URIs and objects are pieces
    /// of them, and nothing is copied.
    pub fn decode_shared(alloc: Global, octets: Bytes) -> Result<Bundle, BundleError>
        ensures ok { IfOk result (BundleText octets) }
        ensures not_a_bundle { IfErr result
            (λ e. OnNotABundle e ((b : BundleValue) → BundleText octets b → ⊥)) }
        ensures memory { IfErr result (λ e. OnMemory e (BeginsText octets)) }
    {
        match read_whole(alloc, octets) {
            Ok(parts) => Ok(bundle_of(parts)),
            Err(error) => Err(refusal(error)),
        }
    }

    /// Octets spell each bundle: it was read of some, or made of parts that a bundle may have.
    pub fn is_spelled(&self)
        ensures { (octets : List ℕ) × BundleText octets self.now }
    {
        let _depth = self.parts.depth;
    }

    /// The octets of the bundle: the only ones that are read as it.
    pub fn encode(&self, alloc: Global) -> Result<Vec<u8>, AllocError>
        ensures { IfOk result (λ v. BundleText v.items self.now) }
    {
        let text = self.parts.moment.generalized();
        let entries = &self.parts.entries;
        let (version, depth) = (self.parts.version, self.parts.depth);
        let size = match members_len(version, &text, depth, entries) {
            Ok(size) => size,
            Err(_) => unreachable!(),
        };
        let mut octets = Vec::with_capacity(alloc, size)?;
        match write_members(version, &text, depth, entries, &mut octets) {
            Ok(()) => Ok(octets),
            Err(_) => Err(AllocError),
        }
    }

    /// The octets of the object at a URI, which is looked up by its lookup key; none for a text that is no URI.
    pub fn get(&self, uri: &[u8]) -> Option<&[u8]>
        ensures found { IfSome result
            (λ octets. IsUri uri.now × IsAt self.now.objects (key_of uri.now) octets.now) }
        ensures none { IfNone result
            (IsUri uri.now → (octets : List ℕ) → IsAt self.now.objects (key_of uri.now) octets
            → ⊥) }
    {
        if !is_uri(uri) {
            return None;
        }
        find(self.parts.entries.objects.as_slice(), uri)
    }

    /// The version.
    pub fn version(&self) -> Version
        ensures { result ≡ self.now.version }
    {
        self.parts.version
    }

    /// Whether manifests, ROAs and ASPAs are read in BER; those of a bundle of version 0 never are.
    pub fn relaxed(&self) -> bool
        ensures { result ≡ is_relaxed self.now.version }
    {
        self.parts.version.is_relaxed()
    }

    /// The moment at which validity is judged.
    pub fn moment(&self) -> Time
        ensures { result ≡ self.now.moment }
    {
        self.parts.moment
    }

    /// The greatest number of certificates in a chain, from `MIN_DEPTH` to `MAX_DEPTH`.
    pub fn depth(&self) -> u8
        ensures { result ≡ self.now.depth }
    {
        self.parts.depth
    }

    /// The trust anchor locators, ascending by name.
    pub fn locators(&self) -> &[Locator]
        ensures { result.now ≡ self.now.locators }
    {
        self.parts.entries.locators.as_slice()
    }

    /// The objects, ascending by URI.
    pub fn objects(&self) -> &[Object]
        ensures { result.now ≡ self.now.objects }
    {
        self.parts.entries.objects.as_slice()
    }

    /// The good signatures, ascending by their three digests.
    pub fn verdicts(&self) -> &[Verdict]
        ensures { result.now ≡ self.now.verdicts }
    {
        self.parts.entries.verdicts.as_slice()
    }
}
