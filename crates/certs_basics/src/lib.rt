//! What certificates, revocation lists and signed objects share: definitions of names, keys, algorithms and identifiers, and
//! their URIs ([`uri`]), moments ([`time`]) and object identifiers ([`oid`]), and what trust anchor locators are called
//! ([`tal`]).
#![tactic(auto)]

pub mod oid;
pub mod tal;
pub mod time;
pub mod uri;

/// The format of a public key (RFC 7935 3, RFC 8608 3.1).
#[derive(Clone, Copy, Debug, PartialEq, Eq)]
pub enum PublicKeyFormat {
    /// rsaEncryption.
    Rsa,
    /// ecPublicKey on the curve secp256r1.
    Ecdsa,
}

pub use bcder::{
    BitString, Captured, ConstOid, Ia5String, Mode, OctetString, Oid, PrintableString, Tag, decode,
    encode, int, string,
};
