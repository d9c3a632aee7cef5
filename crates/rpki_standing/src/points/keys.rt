//! Under which key a URI is looked up, and a file of a manifest.

ghost use Rattle.std.specs.Prelude.{◌≡◌, IfOk};
ghost use Rattle.rpki_standing.specs.certs_basics.Paths.{join as joined};
ghost use Rattle.rpki_standing.specs.certs_basics.Uris.{lookup_key as key_of};

use bytes::Bytes;
use certs_cert::Rsync;
use certs_cert::grammar::lookup_key;
use certs_cert::paths::join;
use std::alloc::{AllocError, Global};

/// The lookup key of a URI.
pub fn key_at(alloc: Global, uri: &[u8]) -> Result<Bytes, AllocError>
    ensures { IfOk result (λ key. key ≡ key_of uri.now) }
{
    let key = lookup_key(alloc, uri)?;
    match Bytes::from_vec(key) {
        Ok(octets) => Ok(octets),
        Err(_) => Err(AllocError),
    }
}

/// The lookup key of the file with that name in that folder.
pub fn key_in(alloc: Global, folder: &Rsync, name: &[u8]) -> Result<Bytes, AllocError>
    ensures { IfOk result (λ key. key ≡ key_of (joined folder.now name.now)) }
{
    let uri = join(alloc, folder.as_slice(), name)?;
    let key = key_at(alloc, uri.as_slice())?;
    Ok(key)
}
