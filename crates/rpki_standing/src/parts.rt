//! The files and the revocation list of a point (RFC 9286 6.4, 6.5, RFC 6487 5).

ghost use Rattle.std.specs.Prelude.{◌≡◌, ◌+◌, ◌≤◌, IfErr, IfOk};
ghost use Rattle.rpki_standing.specs.certs_basics.Lists.{FirstFailing};
ghost use Rattle.rpki_standing.specs.certs_key.Digesting.{digests_of};
ghost use Rattle.rpki_standing.specs.Manifests.{IsOwnManifest};
ghost use Rattle.rpki_standing.specs.PointFaults.{FailsList, FailsUnheld, held_tests};
ghost use Rattle.rpki_standing.specs.Readers.{SameReader, world_by};
ghost use Rattle.rpki_standing.specs.Standing.{AreParts};
ghost use Rattle.rpki_rules.specs.Certs.{Digests, Verdicts};
ghost use Rattle.rpki_rules.specs.PointReasons.{PassesManifest};
ghost use Rattle.rpki_rules.specs.Points.{HasFiles, IsCrlOf, files as files_by};
ghost use Rattle.rpki_rules.specs.ReasonViews.{manifest_test_of};
ghost use Rattle.rpki_rules.specs.World.{world_of};

use crate::points::{Crl, check_files, files_of, find_crl};
use crate::reader::BundleReader;
use crate::signed::{Cert, Digester, Verifier};
use crate::table::Index;
use bytes::Bytes;
use objects_valid::kinds::Manifest;
use rpki_rules::reason::{ManifestTest, PointReason};
use std::alloc::{AllocError, Global};

/// The lookup keys of the files that the manifest lists, if the authority has a folder, they differ by name, and each is
/// there as it is listed; else the first of these tests that fails.
pub fn held_files<D: Digester>(
    alloc: Global,
    ca: &Cert,
    manifest: &Manifest,
    index: &Index<'_>,
    digester: &D,
) -> Result<Result<Vec<Bytes>, ManifestTest>, AllocError>
    ensures held { IfOk result (λ told. IfOk told (λ keys. (v : Verdicts) → HasFiles (world_of
        (digests_of D.sha256_digest D.sha1_digest digester.now) v index.now)
        ca.now manifest.now.content)) }
    ensures keys { IfOk result (λ told. IfOk told
        (λ keys. keys.items ≡ files_by ca.now manifest.now.content)) }
    ensures refused { IfOk result (λ told. IfErr told (λ test. (v : Verdicts)
        → FirstFailing (PassesManifest (world_of
        (digests_of D.sha256_digest D.sha1_digest digester.now) v index.now)
        ca.now manifest.now.signed manifest.now.content)
        (held_tests manifest.now.content) (manifest_test_of test))) }
{
    let Some(folder) = ca.tbs().ca_repository() else {
        return Ok(Err(ManifestTest::Folder));
    };
    if let Err(test) = check_files(alloc, folder, manifest.content(), index, digester)? {
        return Ok(Err(test));
    }
    let keys = files_of(alloc, folder, manifest.content())?;
    Ok(Ok(keys))
}

/// The revocation list that the manifest's certificate names, if it is one of the files and the authority's; else the first
/// test of it that fails. The verifier is asked once, at most.
pub fn own_list<D: Digester, V: Verifier>(
    alloc: Global,
    ca: &Cert,
    manifest: &Manifest,
    keys: &[Bytes],
    reader: &mut BundleReader<'_, D, V>,
) -> Result<Result<Crl, PointReason>, AllocError>
    requires { keys.now ≡ files_by ca.now manifest.now.content }
    ensures found { IfOk result (λ told. IfOk told (λ crl. (d : Digests) → IsCrlOf
        (world_of d (V.says reader.old.verifier.now) reader.old.index) ca.now
        manifest.now.signed manifest.now.content crl)) }
    ensures refused { IfOk result (λ told. IfErr told (λ why. (d : Digests) → FailsList
        (world_of d (V.says reader.old.verifier.now) reader.old.index) ca.now
        manifest.now.signed manifest.now.content why)) }
    ensures same { SameReader V.says reader.old reader.new }
    ensures asked { V.count reader.new.verifier.now ≤ V.count reader.old.verifier.now + 1 }
{
    let Some(uri) = manifest.cert().tbs().crl_uri() else {
        return Ok(Err(PointReason::ManifestFails(ManifestTest::ListNamed)));
    };
    find_crl(alloc, uri, keys, ca, manifest.cert(), reader)
}

/// The files and the revocation list of the authority's point, by its manifest; else why it has no point: a file isn't as
/// it is listed, or the list isn't there or isn't good. The verifier is asked once, at most.
pub(crate) fn find_parts<D: Digester, V: Verifier>(
    alloc: Global,
    ca: &Cert,
    manifest: &Manifest,
    reader: &mut BundleReader<'_, D, V>,
) -> Result<Result<(Vec<Bytes>, Crl), PointReason>, AllocError>
    ensures found { IfOk result (λ told. IfOk told (λ p. AreParts
        (world_by D.sha256_digest D.sha1_digest V.says reader.old)
        ca.now manifest.now p.0.items p.1)) }
    ensures refused { IfOk result (λ told.
        let w = world_by D.sha256_digest D.sha1_digest V.says reader.old in
        IfErr told (λ why. IsOwnManifest w ca.now manifest.now → FailsUnheld w ca.now why)) }
    ensures same { SameReader V.says reader.old reader.new }
    ensures asked { V.count reader.new.verifier.now ≤ V.count reader.old.verifier.now + 1 }
{
    let keys = match held_files(alloc, ca, manifest, &reader.index, reader.digester)? {
        Ok(keys) => keys,
        Err(test) => return Ok(Err(PointReason::ManifestFails(test))),
    };
    match own_list(alloc, ca, manifest, keys.as_slice(), reader)? {
        Ok(crl) => Ok(Ok((keys, crl))),
        Err(reason) => Ok(Err(reason)),
    }
}
