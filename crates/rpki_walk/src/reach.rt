//! What one authority can reach: the numbers of the accepted chains that name one of some URIs, and which chains these are.

pub mod answer;
pub mod chains;
mod gather;
mod keys;
mod locators;
pub mod naming;
mod union;
pub mod whole;

pub use answer::Reach;
pub use chains::naming_chains;
pub use naming::Naming;
pub use resources::{Ipv4Blocks, Ipv6Blocks, ResourceSet, laws};
