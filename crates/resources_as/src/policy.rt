//! The object identifiers by which a certificate says what becomes of resources that its issuer doesn't hold.
//!
//! What differs from the Rust crate: the calls of [`Overclaim`] that need object identifiers are those of the trait
//! [`OverclaimIds`], so that sets and claims stand without the codec. Identifiers are answered by value, and
//! `from_policy` answers an `Option`, as its two neighbours do.

pub mod ids;
pub mod laws;

pub use ids::OverclaimIds;
pub use resources_chain::Overclaim;
