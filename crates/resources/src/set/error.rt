//! Why there is no set of resources.

use resources_as::InheritedAsResources;
use resources_ip::InheritedIpResources;
use std::alloc::AllocError;
use thiserror::Error;

/// Why three texts aren't those of a set of resources.
#[derive(Clone, Copy, Debug, PartialEq, Eq, Error)]
pub enum FromStrError {
    /// The first is no set of AS numbers.
    #[error("cannot parse ASN resources: {0}")]
    Asn(resources_as::FromStrError),
    /// The second is no set of IPv4 addresses.
    #[error("cannot parse IPv4 resources: {0}")]
    Ipv4(resources_ip::FromStrError),
    /// The third is no set of IPv6 addresses.
    #[error("cannot parse IPv6 resources: {0}")]
    Ipv6(resources_ip::FromStrError),
    /// A growth of memory was refused.
    #[error("out of memory")]
    Memory,
}

/// Why the resources of a certificate have no set of their own.
#[derive(Clone, Copy, Debug, PartialEq, Eq, Hash, Error)]
pub enum InheritError {
    /// Those of some kind are the issuer's.
    #[error("cannot determine resources: some are inherited")]
    Inherited,
    /// No memory is left.
    #[error("out of memory")]
    Memory,
}
