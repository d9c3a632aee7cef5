//! The base of the codec: modes, tags and lengths, and what octets spell which trees.
#![tactic(auto)]

pub mod identifier;
pub mod laws;
pub mod length;
pub mod mode;
pub mod tag;

pub use length::Length;
pub use mode::Mode;
pub use tag::Tag;
