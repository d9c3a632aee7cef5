//! Prefixes of 128 bits and those that know their family, made of each other.

ghost use Rattle.std.specs.Prelude.{◌≡◌, ◌<◌, MatchOption};
ghost use Rattle.resources_ip_prefix.specs.AddrPrefixes.{Ipv4, Ipv6};
ghost use Rattle.resources_ip_prefix.specs.Address.{bits_of};
ghost use Rattle.resources_ip_prefix.specs.Family.{max_len_of};
ghost use Rattle.resources_ip_prefix.specs.Prefix.{prefix_addr, prefix_len, run_of_prefix};
ghost use Rattle.resources_ip_prefix.specs.Wide.{widened, wide_run, family_in, IsOfFamily};

use crate::addr::{Addr, AddressFamily};
use crate::ip_addr::Prefix as FamilyPrefix;
use crate::prefix::Prefix;

impl Prefix {
    /// The prefix of the same addresses: those of IPv4 are the first 32 of 128 bits (RFC 3779 2.1.1).
    pub fn from_addr_prefix(prefix: FamilyPrefix) -> Self
        ensures addr { bits_of (prefix_addr result) ≡ widened prefix.family prefix.first }
        ensures len { prefix_len result ≡ prefix.len }
        ensures run { run_of_prefix result ≡ wide_run prefix }
    {
        Prefix::new(Addr::from(prefix.addr()), prefix.len())
    }

    /// The prefix of the same addresses, as those of the family; none where it has more bits than an address of the
    /// family.
    pub fn to_addr_prefix(self, family: AddressFamily) -> Option<FamilyPrefix>
        ensures { MatchOption result (max_len_of family < prefix_len self)
            (IsOfFamily (family_in family) (bits_of (prefix_addr self)) (prefix_len self)) }
    {
        match family {
            AddressFamily::Ipv4 => to_v4(self),
            AddressFamily::Ipv6 => to_v6(self),
        }
    }
}

// The IPv4 prefix of the first 32 bits.
fn to_v4(prefix: Prefix) -> Option<FamilyPrefix>
    ensures { MatchOption result (32 < prefix_len prefix)
        (IsOfFamily Ipv4 (bits_of (prefix_addr prefix)) (prefix_len prefix)) }
{
    match FamilyPrefix::new_v4_relaxed(prefix.addr().to_v4(), prefix.addr_len()) {
        Ok(prefix) => Some(prefix),
        Err(_) => None,
    }
}

// The IPv6 prefix.
fn to_v6(prefix: Prefix) -> Option<FamilyPrefix>
    ensures { MatchOption result (128 < prefix_len prefix)
        (IsOfFamily Ipv6 (bits_of (prefix_addr prefix)) (prefix_len prefix)) }
{
    match FamilyPrefix::new_v6_relaxed(prefix.addr().to_v6(), prefix.addr_len()) {
        Ok(prefix) => Some(prefix),
        Err(_) => None,
    }
}

impl From<FamilyPrefix> for Prefix {
    ghost from_gives = { λ p q. run_of_prefix q ≡ wide_run p };

    fn from(prefix: FamilyPrefix) -> Self {
        Prefix::from_addr_prefix(prefix)
    }
}
