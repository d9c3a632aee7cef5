//! The files that a manifest lists: their lookup keys, and whether all of them are there (RFC 9286 6.4, 6.5).

ghost use Rattle.std.specs.Prelude.{◌≡◌, IfOk, Some, flat_map};
ghost use Rattle.certs_cert.specs.certs_key.Digesting.{digests_of};
ghost use Rattle.rpki_standing.specs.PointFaults.{names_tests};
ghost use Rattle.rpki_standing.specs.Tests.{Tells};
ghost use Rattle.rpki_rules.specs.Certs.{Cert, Verdicts};
ghost use Rattle.rpki_rules.specs.Objects.{Manifest, Object};
ghost use Rattle.rpki_rules.specs.PointReasons.{IsFolder, PassesManifest, file_tests};
ghost use Rattle.rpki_rules.specs.Points.{files_in};
ghost use Rattle.rpki_rules.specs.ReasonViews.{manifest_test_of};
ghost use Rattle.rpki_rules.specs.World.{world_of};

use crate::points::held::check_held;
use crate::points::keys::key_in;
use crate::points::names::differ_by_name;
use crate::table::Index;
use bytes::Bytes;
use certs_cert::{Digester, Rsync};
use objects_cms::manifest::ManifestContent;
use rpki_rules::reason::ManifestTest;
use std::alloc::{AllocError, Global};

/// The lookup keys of the files that a manifest lists, in its order: their names joined to the folder.
pub fn files_of(
    alloc: Global,
    folder: &Rsync,
    manifest: &ManifestContent,
) -> Result<Vec<Bytes>, AllocError>
    ensures { IfOk result (λ keys. keys.items
        ≡ files_in (Some folder.now) manifest.now.files) }
{
    let mut keys = Vec::new(alloc);
    let mut left = manifest.iter();
    while let Some(file) = left.next() {
        let key = key_in(alloc, folder, file.file())?;
        keys.push(key)?;
    }
    Ok(keys)
}

// Whether each of the files that a manifest lists is in that folder, with the hash that is listed; else the first test that
// fails, of the first file. One digest a file is made, up to the first that isn't there so.
fn check_each<D: Digester>(
    alloc: Global,
    folder: &Rsync,
    manifest: &ManifestContent,
    index: &Index<'_>,
    digester: &D,
) -> Result<Result<(), ManifestTest>, AllocError>
    ensures { IfOk result (λ told. (v : Verdicts) (ca : Cert) (o : Object) (m : Manifest)
        → IsFolder ca folder.now → Tells manifest_test_of (PassesManifest (world_of
        (digests_of D.sha256_digest D.sha1_digest digester.now) v index.now) ca o m)
        (flat_map file_tests manifest.now.files) told) }
{
    let mut left = manifest.iter();
    while let Some(file) = left.next() {
        if let Err(test) = check_held(alloc, folder, &file, index, digester)? {
            return Ok(Err(test));
        }
    }
    Ok(Ok(()))
}

/// Whether that folder has the files that a manifest lists: they differ by name, and each is there with the hash that is
/// listed; else the first test that fails. One digest a file is made, up to the first that isn't there so; none where two
/// have one name.
pub fn check_files<D: Digester>(
    alloc: Global,
    folder: &Rsync,
    manifest: &ManifestContent,
    index: &Index<'_>,
    digester: &D,
) -> Result<Result<(), ManifestTest>, AllocError>
    ensures { IfOk result (λ told. (v : Verdicts) (ca : Cert) (o : Object)
        → IsFolder ca folder.now → Tells manifest_test_of (PassesManifest (world_of
        (digests_of D.sha256_digest D.sha1_digest digester.now) v index.now) ca o manifest.now)
        (names_tests manifest.now) told) }
{
    if !differ_by_name(alloc, manifest)? {
        return Ok(Err(ManifestTest::NamesDiffer));
    }
    check_each(alloc, folder, manifest, index, digester)
}
