//! The entries of a bundle's lists.

use bytes::Bytes;

/// A trust anchor locator as it was handed in.
#[derive(Debug, Drop)]
pub struct Locator {
    /// The name by which lines speak of it: printable, not empty, without a space.
    pub name: Bytes,
    /// Its text, which need not be a locator's.
    pub text: Bytes,
}

/// A published object.
#[derive(Debug, Drop)]
pub struct Object {
    /// Where it is published: an rsync or https URI that is its own lookup key.
    pub uri: Bytes,
    /// Its octets.
    pub octets: Bytes,
}

/// A signature that is good, by the SHA-256 digests of what it is made of.
#[derive(Clone, Copy, Debug, PartialEq, Eq, Hash)]
pub struct Verdict {
    /// The digest of the encoded key.
    pub key: [u8; 32],
    /// The digest of the message.
    pub message: [u8; 32],
    /// The digest of the signature's octets.
    pub signature: [u8; 32],
}
