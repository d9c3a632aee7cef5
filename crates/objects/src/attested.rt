//! Provider attestations that are put together, written and signed (draft-ietf-sidrops-aspa-profile 3, 4).
//!
//! An [`AspaBuilder`] has a customer and its providers; `finalize` writes this content, and signs it with what a
//! `SignedObjectBuilder` has.
//!
//! What differs from the Rust crate: what takes memory is given an allocator and answers a `Result`; that a provider is there
//! already is answered beside lack of memory, by [`ProviderError`]; `finalize` is given a digester, and answers the octets of the
//! object, which `Aspa::decode` reads.

pub mod builder;
pub mod error;
pub mod laws;
pub mod signed;
pub mod written;

pub use builder::AspaBuilder;
pub use error::{DuplicateProviderAs, ProviderError};
pub use written::AspaValue;
