//! Inspection of certificates: whether the form of one is that of its role (RFC 6487 4, RFC 8209
//! 3.1).
//!
//! Each role has a list of tests in their order. An inspection answers `Ok` exactly where the
//! certificate passes all of them, and else the first that it doesn't pass. Nothing else is asked:
//! not the moment, the signature, or the issuer.
//!
//! What differs from the Rust crate: the calls are those of the trait [`Inspect`]; the digester by
//! which the key's identifier is found is handed in; names with constructed strings are refused; a
//! manifest lies in a repository where its `parent` is identical to that.

mod access;
mod claims;
mod identity;
pub mod inspect;
mod tests;
mod usages;

pub use certs_cert::{
    AsBlocks, Cert, ClaimError, InheritedAsResources, InheritedIpResources, InspectionError,
    IpBlocks,
};
pub use inspect::Inspect;
