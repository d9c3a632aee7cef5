//! What authorities name by their manifests, as lookup keys (RFC 9286 4.2).

ghost use Rattle.std.specs.Prelude.{◌≡◌, ◌↔◌, IfOk, List, ℕ};
ghost use Rattle.rpki_rules.specs.Certs.{Digests, Verdicts};
ghost use Rattle.rpki_rules.specs.Points.{files};
ghost use Rattle.rpki_rules.specs.Reach.{NamesFile};
ghost use Rattle.rpki_rules.specs.Words.{Mem};
ghost use Rattle.rpki_rules.specs.World.{world_of};
ghost use Rattle.rpki_walk.specs.Naming.{AreNamed};

use bytes::Bytes;
use certs_verify::Cert;
use rpki_standing::points::key_at;
use rpki_standing::{Index, ManifestContent, files_of, manifest_at};
use std::alloc::{AllocError, Global};

// The lookup keys of the authority's files by that manifest.
fn keys_by(alloc: Global, ca: &Cert, manifest: &ManifestContent) -> Result<Vec<Bytes>, AllocError>
    ensures { IfOk result (λ keys. keys.items ≡ files ca.now manifest.now) }
{
    match ca.tbs().ca_repository() {
        Some(folder) => files_of(alloc, folder, manifest),
        None => Ok(Vec::new(alloc)),
    }
}

// The lookup keys of the files that a manifest lists which reads at the authority's manifest URI, whosever it is.
fn listed_keys(alloc: Global, ca: &Cert, index: &Index<'_>) -> Result<Vec<Bytes>, AllocError>
    ensures { IfOk result (λ keys. (d : Digests) (v : Verdicts) (key : List ℕ)
        → Mem keys.items key ↔ NamesFile (world_of d v index.now) ca.now key) }
{
    match manifest_at(alloc, ca, index)? {
        Ok(manifest) => {
            let keys = keys_by(alloc, ca, manifest.content());
            drop(manifest);
            keys
        }
        Err(reason) => {
            drop(reason);
            Ok(Vec::new(alloc))
        }
    }
}

/// The lookup keys that the authority names: those of the files that a manifest lists which reads at its manifest URI, and
/// that of the URI (RFC 9286 4.2).
pub fn named_keys(alloc: Global, ca: &Cert, index: &Index<'_>) -> Result<Vec<Bytes>, AllocError>
    ensures { IfOk result (λ keys. (d : Digests) (v : Verdicts)
        → AreNamed (world_of d v index.now) ca.now keys.items) }
{
    let mut keys = listed_keys(alloc, ca, index)?;
    let Some(uri) = ca.tbs().rpki_manifest() else {
        return Ok(keys);
    };
    keys.push(key_at(alloc, uri.as_slice())?)?;
    Ok(keys)
}
