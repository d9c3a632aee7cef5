//! What a certificate claims.

use resources::asres::AsResources;
use resources::ipres::IpResources;
use resources::overclaim::Overclaim;

/// What a certificate claims of each kind, and by which policy.
#[derive(Clone, Copy, Debug)]
pub struct Claims<'a> {
    /// Its policy.
    pub policy: Overclaim,
    /// Of AS numbers.
    pub asn: &'a AsResources,
    /// Of IPv4 addresses.
    pub v4: &'a IpResources,
    /// Of IPv6 addresses.
    pub v6: &'a IpResources,
}
