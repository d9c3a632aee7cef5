//! Public keys and their identifiers (RFC 5280 4.1.2.7, 4.2.1.2; RFC 7935 3; RFC 8608 3.1), and what is handed in for them:
//! digests, verdicts on signatures, and keys that sign. [`algorithm`] has the algorithms, digests and signatures.
//!
//! What differs from the Rust crate: digests and verdicts on signatures are handed in, as a [`Digester`] and a
//! [`Verifier`]; a key keeps its encoded octets, which `encoded` lends; a key whose encoded octets no length could tell
//! isn't read; reading takes an allocator, and `clone` answers a `Result`; a [`Signer`] refuses by [`SigningError`] alone.
#![tactic(auto)]

pub mod algorithm;
pub mod digest;
mod encoded;
mod equal;
mod expected;
mod format;
pub mod identifier;
pub mod key;
pub mod laws;
pub mod signer;
mod taken;
pub mod verifier;

pub use algorithm::{
    AlgorithmIdentifier, BitString, Captured, ConstOid, DigestAlgorithm, Ia5String, Mode,
    OctetString, Oid, PrintableString, PublicKeyFormat, RpkiSignature, RpkiSignatureAlgorithm,
    Signature, SignatureAlgorithm, Tag, decode, encode, string,
};
pub use certs_name::{InvalidName, Name, Serial, oid};
pub use digest::Digester;
pub use identifier::KeyIdentifier;
pub use key::PublicKey;
pub use signer::{Signer, SigningError};
pub use verifier::Verifier;
