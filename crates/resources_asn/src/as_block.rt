//! Blocks of AS numbers (RFC 3779 section 3.2.3.5), their texts and encodings, and the numbers of blocks one by one.

pub mod block;
mod der;
pub mod error;
pub mod iter;
pub mod laws;
pub mod range;
mod text;
mod write;

pub use block::AsBlock;
pub use error::FromStrError;
pub use iter::{AsBlockIter, AsBlocksIter, AsnIter};
pub use range::AsRange;
