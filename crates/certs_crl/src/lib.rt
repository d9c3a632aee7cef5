//! Revocation lists (RFC 5280 5, RFC 6487 5): what is signed of a list, field by field, and the list around it.
//!
//! [`Crl::decode`] reads a list in DER exactly where the octets begin with one, and keeps the very octets that are signed;
//! an extension that a list doesn't have is refused as an [`InvalidExtension`]. [`Crl::contains`] is membership in the
//! list, with a cache of the serial numbers and without. [`TbsCertList::into_crl`] builds a list of fields and a
//! signature, which is read again with the same fields.
//!
//! What differs from the Rust crate: what holds the revoked certificates of a [`TbsCertList`] that is signed is a `Vec` of
//! entries or their octets, by [`IntoRevoked`]; a [`Crl`] lends its fields by `as_cert_list`, and isn't dereferenced; whether
//! a list is stale is asked of a moment that is handed in; what takes memory is given an allocator and answers a `Result`.
#![tactic(auto)]

mod building;
mod claim;
pub mod crl;
mod decoding;
pub mod entries;
mod extensions;
pub mod invalid;
pub mod laws;
mod reading;
pub mod setting;
pub mod store;
pub mod tbs;
pub mod written;

pub use bcder::decode;
pub use certs_basics::time::Time;
pub use certs_key::{Signer, SigningError};
pub use certs_x509::revoked::{
    CrlEntry, RevokedCertificates, RevokedCertificatesIter, SerialCache,
};
pub use crl::Crl;
pub use entries::IntoRevoked;
pub use invalid::InvalidExtension;
pub use store::CrlStore;
pub use tbs::TbsCertList;
pub use written::TbsCertListValues;
