//! What is held and what is claimed, lent.

use resources::{AsBlocks, AsResources, IpBlocks, IpResources, Overclaim};
use std::marker::Model;

/// What an authority holds of each kind of number resources. Contracts see the sets.
#[derive(Drop)]
pub struct Holding<'a> {
    /// Its AS numbers.
    pub asn: &'a AsBlocks,
    /// Its IPv4 addresses.
    pub ipv4: &'a IpBlocks,
    /// Its IPv6 addresses.
    pub ipv6: &'a IpBlocks,
}

impl<'a> Model for Holding<'a> {
    ghost use Rattle.rpki_walk.specs.resources.Resources.{Resources};

    ghost Value = { Resources };

    ghost view = { λ h. record { asn = h.asn.now; ipv4 = h.ipv4.now; ipv6 = h.ipv6.now } };
}

/// What a certificate claims of each kind of number resources (RFC 3779), and what becomes of numbers that its issuer
/// doesn't hold (RFC 8360 4.2). Contracts see the choices and the policy.
#[derive(Drop)]
pub struct Claim<'a> {
    /// The policy.
    pub mode: Overclaim,
    /// Its AS numbers.
    pub asn: &'a AsResources,
    /// Its IPv4 addresses.
    pub ipv4: &'a IpResources,
    /// Its IPv6 addresses.
    pub ipv6: &'a IpResources,
}

impl<'a> Model for Claim<'a> {
    ghost use Rattle.rpki_walk.specs.Claimed.{ClaimValue};

    ghost Value = { ClaimValue };

    ghost view = { λ c. record {
      mode = c.mode;
      asn = c.asn.now;
      ipv4 = c.ipv4.now;
      ipv6 = c.ipv6.now;
    } };
}
