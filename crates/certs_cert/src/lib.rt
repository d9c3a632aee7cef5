//! Resource certificates (RFC 5280 4.1, RFC 6487 4): what is signed of a certificate, field by
//! field, and the certificate around it.
//!
//! A [`TbsCert`] is made by `TbsCert::new` and changed by its setters. Contracts see its fields; a
//! setter changes its own field alone. [`Cert::decode`] reads a certificate in DER exactly where the
//! octets begin with one, and keeps the very octets that are signed.
//!
//! What differs from the Rust crate: the digester by which a key's identifier is found is handed
//! in; a subject that is made from the key takes memory, so `new` is given an allocator and answers
//! a `Result`; a [`Cert`] lends its fields by `tbs`, and isn't dereferenced.
#![tactic(auto)]

pub mod access;
pub mod building;
pub mod cert;
pub mod claims;
mod clone;
mod decoding;
pub mod identity;
pub mod keys;
mod reading;
pub mod tbs;
pub mod usages;

pub use cert::{Cert, CertValues};
pub use certs_extension::access::{PublicKeyFormat, Rsync, grammar, paths};
pub use certs_extension::claims::with_value;
pub use certs_extension::forms::{
    AsBlocks, ClaimError, InheritedAsResources, InheritedIpResources, InspectionError, IpBlocks,
    KeyUsage, Role, Time,
};
pub use certs_extension::{
    Digester, ExtendedKeyUsage, Extension, KeyIdentifier, take_authority_key_identifier,
};
pub use certs_x509::signed::{
    ConstOid, DigestAlgorithm, Mode, OctetString, Oid, RpkiSignatureAlgorithm, SignedData, Tag,
    Verifier, decode,
};
pub use certs_x509::{errors, signed};
pub use tbs::TbsCert;
