//! Provider attestations: which networks a customer names as its providers (draft-ietf-sidrops-aspa-profile).
//!
//! What differs from the Rust crate: what takes memory is given an allocator and answers a `Result`.

pub mod attestation;
pub mod iter;
pub mod laws;
pub mod providers;
mod run;

pub use attestation::AsProviderAttestation;
pub use iter::ProviderAsIter;
pub use providers::ProviderAsSet;
