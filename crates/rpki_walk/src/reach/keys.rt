//! Keys among URIs.

ghost use Rattle.std.specs.Prelude.{◌≡◌, IfOk, map};
ghost use Rattle.rpki_walk.specs.rpki_bundle.Uris.{lookup_key as key_of};
ghost use Rattle.rpki_walk.specs.Naming.{names_any, names_key};

use bytes::Bytes;
use certs_basics::uri::grammar::lookup_key;
use std::alloc::{AllocError, Global};
use std::marker::Model;

/// The URIs that are asked after, and beside them their lookup keys, sorted, so that one is found by halving. Contracts see
/// the URIs.
#[derive(Drop)]
pub(crate) struct Wanted<'a> {
    uris: &'a [Bytes],
    keys: Vec<Bytes>,
}

impl<'a> Model for Wanted<'a> {
    ghost use Rattle.std.specs.Prelude.{List, ℕ};
    ghost use Rattle.rpki_walk.specs.Naming.{AreSortedKeys};

    ghost Value = { List (List ℕ) };

    ghost view = { λ wanted. wanted.uris.now };

    ghost invariant = { λ wanted. AreSortedKeys wanted.uris.now wanted.keys.items };
}

// The lookup key of a URI.
fn key_at(alloc: Global, uri: &[u8]) -> Result<Bytes, AllocError>
    ensures { IfOk result (λ key. key ≡ key_of uri.now) }
{
    let key = lookup_key(alloc, uri)?;
    match Bytes::from_vec(key) {
        Ok(octets) => Ok(octets),
        Err(_) => Err(AllocError),
    }
}

// The lookup keys of URIs.
fn keys_of(alloc: Global, uris: &[Bytes]) -> Result<Vec<Bytes>, AllocError>
    ensures { IfOk result (λ keys. keys.items ≡ map key_of uris.now) }
{
    let mut keys = Vec::new(alloc);
    for uri in uris {
        let key = key_at(alloc, uri.as_slice())?;
        keys.push(key)?;
    }
    Ok(keys)
}

impl<'a> Wanted<'a> {
    /// The URIs, with their lookup keys.
    pub(crate) fn new(alloc: Global, uris: &'a [Bytes]) -> Result<Wanted<'a>, AllocError>
        ensures { IfOk result (λ wanted. wanted ≡ uris.now) }
    {
        let mut keys = keys_of(alloc, uris)?;
        keys.sort_unstable();
        Ok(Wanted { uris, keys })
    }

    // Whether one of the URIs has this lookup key. It looks at as many keys as their number has binary digits.
    fn has(&self, key: &Bytes) -> bool
        ensures { result ≡ names_key self.now key.now }
    {
        self.keys.as_slice().binary_search(key).is_ok()
    }
}

/// Whether one of the URIs has one of the lookup keys.
pub(crate) fn names_any(wanted: &Wanted<'_>, keys: &[Bytes]) -> bool
    ensures { result ≡ names_any wanted.now keys.now }
{
    keys.iter().any(|key| wanted.has(key))
}
