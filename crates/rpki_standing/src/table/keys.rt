//! Digests of keys that are asked for again and again.

ghost use Rattle.std.specs.Prelude.{◌≡◌, IfSome};
ghost use Rattle.rpki_standing.specs.certs_basics.Keys.{encoded};

use rpki_rules::{Digester, PublicKey};
use std::marker::Model;

// A key with the digest of what is encoded of it.
#[derive(Drop)]
struct Kept {
    key: PublicKey,
    digest: [u8; 32],
}

/// Digests by one digester, of which that of one key is kept: an authority's is wanted for each certificate that it signed.
/// Contracts see what the digests are made by.
#[derive(Drop)]
pub struct KeyDigests<'a, D: Digester> {
    digester: &'a D,
    kept: Option<Kept>,
    // Whether the last key wasn't the one that is kept: the second such key in a row takes its place.
    missed: bool,
}

impl<'a, D: Digester> Model for KeyDigests<'a, D> {
    ghost use Rattle.std.specs.Prelude.{◌≡◌, IfSome};
    ghost use Rattle.rpki_standing.specs.certs_basics.Keys.{encoded};

    ghost Value = { D };

    ghost view = { λ k. k.digester.now };

    ghost invariant = { λ k. IfSome k.kept
        (λ own. own.digest ≡ D.sha256_digest k.digester.now (encoded own.key)) };
}

impl<'a, D: Digester> KeyDigests<'a, D> {
    /// The digests that this digester makes. None is kept yet.
    pub fn new(digester: &'a D) -> KeyDigests<'a, D>
        ensures { result ≡ digester.now }
    {
        KeyDigests {
            digester,
            kept: None,
            missed: false,
        }
    }

    /// The SHA-256 digest of octets.
    pub fn sha256(&self, octets: &[u8]) -> [u8; 32]
        ensures { result ≡ D.sha256_digest self.now octets.now }
    {
        self.digester.sha256(octets)
    }

    // The digest of what is encoded of the key, if it is the one that is kept.
    fn kept_of(&self, key: &PublicKey) -> Option<[u8; 32]>
        ensures { IfSome result (λ digest. digest ≡ D.sha256_digest self.now (encoded key.now)) }
    {
        match &self.kept {
            Some(own) if own.key.encoded() == key.encoded() => Some(own.digest),
            _ => None,
        }
    }

    // Keeps the digest of a key that isn't the one that is kept, if the one before it wasn't either, and memory is there.
    fn keep(&mut self, key: &PublicKey, digest: [u8; 32])
        requires { digest ≡ D.sha256_digest self.old (encoded key.now) }
        ensures { self.new ≡ self.old }
    {
        self.missed = !self.missed;
        if self.missed {
            return;
        }
        if let Ok(key) = key.clone() {
            self.kept = Some(Kept { key, digest });
        }
    }

    /// The SHA-256 digest of what is encoded of a key.
    pub fn sha256_of(&mut self, key: &PublicKey) -> [u8; 32]
        ensures digest { result ≡ D.sha256_digest self.old (encoded key.now) }
        ensures same { self.new ≡ self.old }
    {
        if let Some(digest) = self.kept_of(key) {
            self.missed = false;
            return digest;
        }
        let digest = self.digester.sha256(key.encoded());
        self.keep(key, digest);
        digest
    }
}
