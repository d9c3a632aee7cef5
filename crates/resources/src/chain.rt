//! Blocks of any kind of numbers, and canonical chains of them.

pub use resources_chain::{Block, Chain, OwnedChain, Row, SharedChain, halve};
