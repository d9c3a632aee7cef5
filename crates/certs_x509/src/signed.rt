//! Signed data: octets that are signed as they stand, the algorithm, and the signature (RFC 5280 4.1.1, 5.1.1).
//!
//! A [`SignedData`] keeps the very octets of what is signed, so that the signature is verified over these and over
//! nothing that was written anew. Certificates and revocation lists are read of them.
//!
//! What differs from the Rust crate: what takes memory is given an allocator, and answers a `Result`; a signature is verified
//! by a `Verifier` that is handed in.

pub mod laws;
pub mod signed;
mod verify;
pub mod written;

pub use certs_key::{
    ConstOid, DigestAlgorithm, Digester, KeyIdentifier, Mode, Name, OctetString, Oid, PublicKey,
    RpkiSignatureAlgorithm, Serial, SignatureAlgorithm, Tag, Verifier, decode,
};
pub use signed::SignedData;
pub use written::SignedDataValues;
