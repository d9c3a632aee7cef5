//! IP resources: sets of addresses as canonical chains, and claims of them (RFC 3779 section 2).
#![tactic(auto)]

pub mod blocks;
pub mod claims;
mod der;
mod families;
pub mod laws;
pub mod listed;
pub mod resources;
mod write;

pub use blocks::{IpBlockIter, IpBlocks, IpBlocksBuilder};
pub use claims::{OverclaimedIpResources, OverclaimedIpv4Resources, OverclaimedIpv6Resources};
pub use families::IpFamiliesEncoder;
pub use listed::IpBlocksForFamily;
pub use resources::{InheritedIpResources, IpFamilies, IpResources, IpResourcesBuilder};
pub use resources_ip_block::{
    Addr, AddressFamily, AddressRange, DisplayV4Block, DisplayV6Block, FromStrError, IpBlock,
    IpBlockEncoder, Prefix, RangeEncoder, RangePrefixes, addr, block, codec, cover, error, ip_addr,
    prefix, range,
};
