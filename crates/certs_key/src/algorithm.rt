//! Algorithms of signatures and digests, and signatures (RFC 7935): read exactly and written in one way.
//!
//! RPKI signs by RSA with SHA-256. A certificate names that by sha256WithRSAEncryption, a signed object by that or by
//! rsaEncryption, each with NULL after the identifier or nothing; a [`RpkiSignatureAlgorithm`] says whether NULL is
//! there, and the two names apart by nothing.
//!
//! What differs from the Rust crate: a [`Signature`] keeps how many bits of its last octet are unused, so that what was
//! read is written as it was.

pub mod algorithm;
pub mod digest;
pub mod identifier;
pub mod laws;
pub mod signature;

pub use algorithm::{RpkiSignatureAlgorithm, SignatureAlgorithm};
pub use certs_name::{
    BitString, Captured, ConstOid, Ia5String, Mode, OctetString, Oid, PrintableString,
    PublicKeyFormat, Tag, decode, encode, string,
};
pub use digest::DigestAlgorithm;
pub use identifier::AlgorithmIdentifier;
pub use signature::{RpkiSignature, Signature};
