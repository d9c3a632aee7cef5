//! Ranges and blocks of IP addresses, as runs of numbers of 128 bits (RFC 3779 section 2).
#![tactic(auto)]

pub mod block;
pub mod cover;
mod der;
pub mod encode;
pub mod laws;
pub mod range;
mod text;

pub use block::IpBlock;
pub use cover::RangePrefixes;
pub use encode::{IpBlockEncoder, RangeEncoder};
pub use range::AddressRange;
pub use resources_ip_prefix::{
    Addr, AddressFamily, FromStrError, Prefix, addr, codec, error, ip_addr, prefix,
};
pub use text::{DisplayV4Block, DisplayV6Block};
