//! AS resources: blocks of AS numbers, sets of them, and claims; read and written.

pub use resources_as::{
    AsBlock, AsBlockIter, AsBlocks, AsBlocksBuilder, AsBlocksIter, AsRange, AsResources,
    AsResourcesBuilder, AsnIter, FromStrError, InheritedAsResources, OverclaimedAsResources,
};
