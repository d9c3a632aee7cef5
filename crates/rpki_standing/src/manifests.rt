//! The manifest of an authority (RFC 9286 6.2, 6.3).

ghost use Rattle.std.specs.Prelude.{◌↔◌, ◌+◌, ◌≤◌, IfErr, IfOk, IsTrue, [], ◌∷◌};
ghost use Rattle.rpki_standing.specs.Crls.{Finds};
ghost use Rattle.rpki_standing.specs.Manifests.{FindsManifest, IsOwnManifest, IsReadIn};
ghost use Rattle.rpki_standing.specs.PointFaults.{FailsUnheld, own_tests};
ghost use Rattle.rpki_standing.specs.Readers.{SameReader, world_by};
ghost use Rattle.rpki_standing.specs.Tests.{Tells};
ghost use Rattle.rpki_rules.specs.Certs.{Cert as CertValue, Digests, Verdicts};
ghost use Rattle.rpki_rules.specs.PointReasons.{NextUpdate, PassesManifest, ThisUpdate};
ghost use Rattle.rpki_rules.specs.ReasonViews.{manifest_test_of};
ghost use Rattle.rpki_rules.specs.World.{world_of};

use crate::points::decode::DecodeError;
use crate::reader::BundleReader;
use crate::signed::{Cert, Digester, Verifier, check_content, check_object_cert};
use crate::table::Index;
use bytes::Bytes;
use objects_valid::kinds::Manifest;
use rpki_rules::reason::{ManifestTest, PointReason};
use std::alloc::{AllocError, Global};

// The manifest that those octets begin with (RFC 9286 4), where strict in DER, and else in BER. Nothing of it is verified.
fn manifest_in(alloc: Global, octets: &Bytes, strict: bool) -> Result<Option<Manifest>, AllocError>
    ensures { IfOk result (Finds (IsReadIn strict octets.now)) }
{
    match Manifest::decode(alloc, octets.clone()?, strict) {
        Ok(manifest) => Ok(Some(manifest)),
        Err(DecodeError::Content(_, _)) => Ok(None),
        Err(DecodeError::Source(never)) => match never {},
        Err(DecodeError::Memory) => Err(AllocError),
    }
}

/// The manifest that the object at the authority's manifest URI reads as, as strictly as the bundle asks, whosever it is.
/// Else why none does: the authority names no such URI, or no object is there (`NoManifest`), or it reads as no manifest
/// (`BadManifest`). Nothing of it is verified.
pub fn manifest_at(
    alloc: Global,
    ca: &Cert,
    index: &Index<'_>,
) -> Result<Result<Manifest, PointReason>, AllocError>
    ensures { IfOk result (λ found. (d : Digests) (v : Verdicts)
        → FindsManifest (world_of d v index.now) ca.now found) }
{
    let Some(uri) = ca.tbs().rpki_manifest() else {
        return Ok(Err(PointReason::NoManifest));
    };
    let Some(object) = index.object_at(uri.as_slice()) else {
        return Ok(Err(PointReason::NoManifest));
    };
    match manifest_in(alloc, &object.octets, index.strict())? {
        Some(manifest) => Ok(Ok(manifest)),
        None => Ok(Err(PointReason::BadManifest)),
    }
}

// Whether the manifest's update isn't to come at the bundle's moment (RFC 9286 6.3).
fn is_made(manifest: &Manifest, index: &Index<'_>) -> bool
    ensures { IsTrue result ↔ (manifest.now.content.this_update ≤ index.now.moment) }
{
    manifest.content().this_update() <= index.moment()
}

// Whether its next update isn't past.
fn is_fresh(manifest: &Manifest, index: &Index<'_>) -> bool
    ensures { IsTrue result ↔ (index.now.moment ≤ manifest.now.content.next_update) }
{
    index.moment() <= manifest.content().next_update()
}

// Whether the bundle's moment lies between both updates, which are both included; else which of them fails.
fn check_updates(manifest: &Manifest, index: &Index<'_>) -> Result<(), ManifestTest>
    ensures { (d : Digests) (v : Verdicts) (ca : CertValue) → Tells manifest_test_of
        (PassesManifest (world_of d v index.now) ca manifest.now.signed manifest.now.content)
        (ThisUpdate ∷ NextUpdate ∷ []) result }
{
    if !is_made(manifest, index) {
        return Err(ManifestTest::ThisUpdate);
    }
    if !is_fresh(manifest, index) {
        return Err(ManifestTest::NextUpdate);
    }
    Ok(())
}

// Whether the manifest is current and the authority's own: its certificate is issued by it, and the object is sound; else
// the first test that fails. The verifier is asked twice, at most.
fn check_own<D: Digester, V: Verifier>(
    alloc: Global,
    manifest: &Manifest,
    ca: &Cert,
    reader: &mut BundleReader<'_, D, V>,
) -> Result<Result<(), ManifestTest>, AllocError>
    ensures told { IfOk result (Tells manifest_test_of
        (PassesManifest (world_by D.sha256_digest D.sha1_digest V.says reader.old)
        ca.now manifest.now.signed manifest.now.content) own_tests) }
    ensures same { SameReader V.says reader.old reader.new }
    ensures asked { V.count reader.new.verifier.now ≤ V.count reader.old.verifier.now + 2 }
{
    if let Err(test) = check_updates(manifest, &reader.index) {
        return Ok(Err(test));
    }
    if let Err(test) = check_object_cert(manifest.cert(), ca, reader) {
        return Ok(Err(ManifestTest::ManifestCert(test)));
    }
    match check_content(alloc, manifest.signed(), reader.digester, reader.verifier)? {
        Ok(()) => Ok(Ok(())),
        Err(test) => Ok(Err(ManifestTest::ManifestContent(test))),
    }
}

/// The authority's manifest: the one at its manifest URI, if it is current and its own; else why it has none. What the
/// certificate of the manifest claims isn't looked at. The verifier is asked twice, at most: for its certificate, and for
/// its content.
pub fn find_manifest<D: Digester, V: Verifier>(
    alloc: Global,
    ca: &Cert,
    reader: &mut BundleReader<'_, D, V>,
) -> Result<Result<Manifest, PointReason>, AllocError>
    ensures found { IfOk result (λ told. IfOk told
        (IsOwnManifest (world_by D.sha256_digest D.sha1_digest V.says reader.old) ca.now)) }
    ensures refused { IfOk result (λ told. IfErr told
        (FailsUnheld (world_by D.sha256_digest D.sha1_digest V.says reader.old) ca.now)) }
    ensures same { SameReader V.says reader.old reader.new }
    ensures asked { V.count reader.new.verifier.now ≤ V.count reader.old.verifier.now + 2 }
{
    let manifest = match manifest_at(alloc, ca, &reader.index)? {
        Ok(manifest) => manifest,
        Err(reason) => return Ok(Err(reason)),
    };
    match check_own(alloc, &manifest, ca, reader) {
        Ok(Ok(())) => Ok(Ok(manifest)),
        Ok(Err(test)) => {
            drop(manifest);
            Ok(Err(PointReason::ManifestFails(test)))
        }
        Err(error) => {
            drop(manifest);
            Err(error)
        }
    }
}
