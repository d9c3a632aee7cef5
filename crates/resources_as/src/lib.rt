//! AS numbers and AS resources (RFC 3779 section 3); and the identifiers of the policies by which a certificate says
//! what becomes of resources that its issuer doesn't hold ([`policy`], RFC 8360).
#![tactic(auto)]

pub mod blocks;
pub mod claims;
mod der;
pub mod laws;
pub mod policy;
pub mod resources;
mod text;
mod write;

pub use blocks::{AsBlocks, AsBlocksBuilder};
pub use claims::OverclaimedAsResources;
pub use resources::{AsResources, AsResourcesBuilder, InheritedAsResources};
pub use resources_asn::as_block::{
    AsBlock, AsBlockIter, AsBlocksIter, AsRange, AsnIter, FromStrError, block, error, iter, range,
};
pub use resources_asn::{
    Asn, Origin, ParseAsnError, SmallAsnSet, SmallSetDifference, SmallSetIntersection,
    SmallSetIter, SmallSetSymmetricDifference, SmallSetUnion, asn, codec, small_set,
};
