//! The files of a publication point, with their octets (RFC 9286 6.4).

ghost use Rattle.std.specs.Prelude.{◌≡◌, All, IfOk, MatchOption, None};
ghost use Rattle.rpki_standing.specs.certs_basics.Paths.{join as joined};
ghost use Rattle.rpki_standing.specs.certs_basics.Uris.{IsUriOctet, lookup_key as key_of};
ghost use Rattle.rpki_rules.specs.World.{find_object};
ghost use Rattle.rpki_steps.specs.PointFiles.{AreFilesIn, AreFilesOf, IsFileIn, NoFilesIn, NoFilesOf};

use bytes::Bytes;
use certs_basics::uri::{Error, Rsync};
use rpki_rules::Bundle;
use rpki_standing::{Cert, Index, ManifestContent};
use std::alloc::{AllocError, Global};

/// A file of a publication point.
#[derive(Debug, Drop)]
pub struct File {
    /// Its URI: its name joined to the authority's repository, in the case of letters in which both are written.
    pub uri: Rsync,
    /// The octets that are held there.
    pub octets: Bytes,
}

// The URI of the file with that name in that folder, or nothing where the name isn't written in octets of URIs.
fn uri_in(alloc: Global, folder: &Rsync, name: &[u8]) -> Result<Option<Rsync>, AllocError>
    ensures { IfOk result (λ found. MatchOption found (¬ (All IsUriOctet name.now))
        (λ uri. uri ≡ joined folder.now name.now)) }
{
    match folder.join(alloc, name) {
        Ok(uri) => Ok(Some(uri)),
        Err(Error::BadUri) => Ok(None),
        Err(Error::Memory) => Err(AllocError),
    }
}

// The file with that name in that folder, or nothing where the bundle holds no object there. Its octets are shared.
fn file_in(
    alloc: Global,
    folder: &Rsync,
    name: &[u8],
    bundle: &Bundle,
) -> Result<Option<File>, AllocError>
    ensures { IfOk result (λ found. MatchOption found
        (find_object bundle.now.objects (key_of (joined folder.now name.now)) ≡ None)
        (λ file. IsFileIn (find_object bundle.now.objects) folder.now name.now file)) }
{
    // So all that it holds stands at URIs.
    bundle.is_spelled();
    let Some(uri) = uri_in(alloc, folder, name)? else {
        return Ok(None);
    };
    let index = Index::new(bundle);
    let Some(object) = index.object_at(uri.as_slice()) else {
        return Ok(None);
    };
    let octets = object.octets.clone()?;
    Ok(Some(File { uri, octets }))
}

// The files that a manifest lists, in its order, if the bundle holds all of them in that folder.
fn files_in(
    alloc: Global,
    folder: &Rsync,
    manifest: &ManifestContent,
    bundle: &Bundle,
) -> Result<Option<Vec<File>>, AllocError>
    ensures { IfOk result (λ found. MatchOption found
        (NoFilesIn (find_object bundle.now.objects) folder.now manifest.now.files)
        (λ files. AreFilesIn (find_object bundle.now.objects) folder.now manifest.now.files
        files.items)) }
{
    let mut files = Vec::new(alloc);
    let mut left = manifest.iter();
    while let Some(listed) = left.next() {
        let Some(file) = file_in(alloc, folder, listed.file(), bundle)? else {
            return Ok(None);
        };
        files.push(file)?;
    }
    Ok(Some(files))
}

/// The files of the authority's repository that its manifest lists, in its order, each with the octets that are held there;
/// nothing where the authority names no repository, or one of them isn't held. Their hashes aren't looked at.
pub(crate) fn read_files(
    alloc: Global,
    ca: &Cert,
    manifest: &ManifestContent,
    bundle: &Bundle,
) -> Result<Option<Vec<File>>, AllocError>
    ensures { IfOk result (λ found. MatchOption found
        (NoFilesOf (find_object bundle.now.objects) ca.now manifest.now)
        (λ files. AreFilesOf (find_object bundle.now.objects) ca.now manifest.now files.items)) }
{
    let Some(folder) = ca.tbs().ca_repository() else {
        return Ok(None);
    };
    files_in(alloc, folder, manifest, bundle)
}
