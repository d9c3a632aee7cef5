//! The two families of addresses, as types; blocks and sets of addresses of one family: whole IPv4 addresses, or IPv6
//! addresses (RFC 3779 section 2).

ghost use Rattle.std.specs.Prelude.{◌≡◌};
ghost use Rattle.resources.specs.resources_ip_prefix.declared.addr.AddressFamily.{AddressFamily as FamilyValue};
ghost use Rattle.resources.specs.resources_ip_prefix.declared.addr.AddressFamily.TheVariants.{Ipv4, Ipv6};

pub mod block;
pub mod blocks;
pub(crate) mod joined;

pub use block::{FamilyBlock, Ipv4Block, Ipv6Block};
pub use blocks::{FamilyBlocks, Ipv4Blocks, Ipv6Blocks};
use resources_ip::AddressFamily;
use std::fmt::Debug;

/// A family of addresses (RFC 3779 2.2.3.3).
pub trait Family: Copy + Debug {
    // The family.
    ghost family: { FamilyValue };

    /// The family.
    fn family() -> AddressFamily
        ensures { result ≡ family };
}

/// IPv4, whose addresses are the first 32 of 128 bits (RFC 3779 2.1.1).
#[derive(Clone, Copy, Debug)]
pub struct V4;

impl Family for V4 {
    ghost family = { Ipv4 };

    fn family() -> AddressFamily {
        AddressFamily::Ipv4
    }
}

/// IPv6.
#[derive(Clone, Copy, Debug)]
pub struct V6;

impl Family for V6 {
    ghost family = { Ipv6 };

    fn family() -> AddressFamily {
        AddressFamily::Ipv6
    }
}
