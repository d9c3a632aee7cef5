//! Whether a file of a manifest is there, as it is listed (RFC 9286 6.4, 6.5).

ghost use Rattle.std.specs.Prelude.{◌≡◌, IfOk};
ghost use Rattle.certs_cert.specs.certs_key.Digesting.{digests_of};
ghost use Rattle.rpki_standing.specs.Tests.{Tells};
ghost use Rattle.rpki_rules.specs.Certs.{Cert, Verdicts};
ghost use Rattle.rpki_rules.specs.Objects.{Manifest, Object};
ghost use Rattle.rpki_rules.specs.PointReasons.{IsFolder, PassesManifest, file_tests};
ghost use Rattle.rpki_rules.specs.ReasonViews.{file_of, manifest_test_of};
ghost use Rattle.rpki_rules.specs.World.{world_of};

use crate::table::Index;
use bytes::Bytes;
use certs_cert::grammar::lookup_key;
use certs_cert::paths::join;
use certs_cert::{DigestAlgorithm, Digester, Rsync};
use objects_cms::manifest::{FileAndHash, ManifestHash};
use rpki_rules::reason::{ListedFile, ManifestTest};
use std::alloc::{AllocError, Global};

// A copy of what a manifest lists of a file.
fn listed(alloc: Global, file: &FileAndHash<'_>) -> Result<ListedFile, AllocError>
    ensures { IfOk result (λ copy. file_of copy ≡ file.now) }
{
    let name = Bytes::copy_from_slice(alloc, file.file())?;
    let hash = Bytes::copy_from_slice(alloc, file.hash())?;
    Ok(ListedFile { name, hash })
}

/// Whether the file is in that folder, with the hash that is listed; else which of both fails. One digest is made, at most.
pub fn check_held<D: Digester>(
    alloc: Global,
    folder: &Rsync,
    file: &FileAndHash<'_>,
    index: &Index<'_>,
    digester: &D,
) -> Result<Result<(), ManifestTest>, AllocError>
    ensures { IfOk result (λ told. (v : Verdicts) (ca : Cert) (o : Object) (m : Manifest)
        → IsFolder ca folder.now → Tells manifest_test_of (PassesManifest (world_of
        (digests_of D.sha256_digest D.sha1_digest digester.now) v index.now) ca o m)
        (file_tests file.now) told) }
{
    let uri = join(alloc, folder.as_slice(), file.file())?;
    let key = lookup_key(alloc, uri.as_slice())?;
    let Some(object) = index.object(key.as_slice()) else {
        return Ok(Err(ManifestTest::FileHeld(listed(alloc, file)?)));
    };
    let hash = ManifestHash::new(file.hash(), DigestAlgorithm::default());
    if hash.verify(digester, object.octets.as_slice()).is_err() {
        return Ok(Err(ManifestTest::FileHash(listed(alloc, file)?)));
    }
    Ok(Ok(()))
}
