//! IP resources: addresses and blocks of them, sets, and claims, read and written.

pub use crate::set::{Ipv4Block, Ipv4Blocks, Ipv6Block, Ipv6Blocks};
pub use resources_ip::{
    Addr, AddressFamily, AddressRange, DisplayV4Block, DisplayV6Block, FromStrError,
    InheritedIpResources, IpBlock, IpBlockEncoder, IpBlockIter, IpBlocks, IpBlocksBuilder,
    IpBlocksForFamily, IpFamilies, IpFamiliesEncoder, IpResources, IpResourcesBuilder,
    OverclaimedIpResources, OverclaimedIpv4Resources, OverclaimedIpv6Resources, Prefix,
    RangeEncoder, RangePrefixes,
};
