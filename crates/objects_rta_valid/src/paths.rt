//! Paths from signers' certificates up, by key identifiers alone.
//!
//! The certificates that a document carries are given as nodes, and of each signer the one path is had, as places in that list:
//!
//! ```text
//! let Some(paths) = paths(alloc, &nodes, &signers)? else { .. };
//! for signer in 0..paths.len() { for place in paths.path(signer) { .. certificates[place] .. } }
//! ```

mod find;
mod graph;
pub mod keys;
pub mod laws;
mod lengths;
pub mod node;
pub mod places;
mod table;

pub use find::paths;
pub use keys::are_same_keys;
pub use node::NodeKeys;
pub use places::{PathPlaces, Paths};
