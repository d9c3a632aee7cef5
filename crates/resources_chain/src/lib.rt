//! Sets of numbers as canonical lists of blocks, over any ordered type of numbers.
#![tactic(auto)]

pub mod block;
pub mod chain;
pub mod choice;
pub mod claims;
pub mod laws;
pub mod pieces;
mod place;
pub mod row;
mod walk;

pub use block::Block;
pub use chain::{Chain, OwnedChain, SharedChain};
pub use choice::{InheritedResources, ResourcesChoice};
pub use claims::{Claim, ClaimError, Overclaim};
pub use pieces::cut_piece;
pub use row::{Row, halve};
