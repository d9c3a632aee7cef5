//! Sets of resources of all three kinds: AS numbers, and addresses of IPv4 and of IPv6; blocks and sets of addresses of
//! one family (RFC 3779 section 2).
//!
//! What differs from the Rust crate: what takes memory is given an allocator and answers a `Result`; a set is made
//! from the resources of a certificate by `ResourceSet::from_resources`; a difference lends what was added and what
//! was removed.

pub mod diff;
pub mod error;
pub mod family;
pub mod laws;
pub mod set;

pub use diff::ResourceDiff;
pub use error::{FromStrError, InheritError};
pub use family::{
    Family, FamilyBlock, FamilyBlocks, Ipv4Block, Ipv4Blocks, Ipv6Block, Ipv6Blocks, V4, V6,
};
pub use set::ResourceSet;
