//! Revoked certificates: the entries of revocation lists (RFC 5280 5.1.2.6).
//!
//! What differs from the Rust crate: an entry isn't read from a text; a list is made of a slice of entries, and of no
//! iterator; what takes memory is given an allocator and answers a `Result`.

pub mod anew;
pub mod cache;
pub mod entry;
pub mod iter;
pub mod laws;
pub mod revoked;
mod search;
mod written;

pub use cache::SerialCache;
pub use certs_extension::forms::laws::crl_is_spelled;
pub use entry::CrlEntry;
pub use iter::RevokedCertificatesIter;
pub use revoked::RevokedCertificates;
