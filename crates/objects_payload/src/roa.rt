//! Contents of route origin attestations (RFC 9582 4).
//!
//! What differs from the Rust crate: what takes memory is given an allocator and answers a `Result`, and the addresses
//! of a family are kept as values.

pub mod address;
pub mod addresses;
pub mod attestation;
pub mod builder;
mod families;
pub mod friendly;
pub mod origins;

pub use address::RoaIpAddress;
pub use addresses::{RoaIpAddressIter, RoaIpAddresses};
pub use attestation::RouteOriginAttestation;
pub use builder::{RoaBuilder, RoaIpAddressesBuilder};
pub use friendly::{FriendlyRoaIpAddress, FriendlyRoaIpAddressIter};
pub use origins::RouteOriginIter;
