//! Addresses that are listed and that the issuer doesn't hold.

ghost use Rattle.std.specs.Prelude.{◌≡◌, ◌++◌, Some, codes};
ghost use Rattle.resources_ip.specs.resources_ip_prefix.declared.addr.AddressFamily.TheVariants.{Ipv4, Ipv6};
ghost use Rattle.resources_ip.specs.Texts.{ip_set_text};

use crate::blocks::IpBlocks;
use crate::listed::IpBlocksForFamily;
use std::error::Error;
use std::fmt;
use std::marker::Model;

/// The addresses that a certificate lists and that its issuer doesn't hold. Contracts see their runs.
#[derive(Clone, Debug, Drop, PartialEq, Eq)]
pub struct OverclaimedIpResources {
    blocks: IpBlocks,
}

impl Model for OverclaimedIpResources {
    ghost use Rattle.std.specs.Prelude.{List};
    ghost use Rattle.resources_ip.specs.resources_chain.Sets.{Run};

    ghost Value = { List Run };

    ghost view = { λ a. a.blocks };

    ghost inverse = { λ runs. record { blocks = runs } };
}

impl OverclaimedIpResources {
    // The refusal of these addresses.
    pub(crate) fn new(blocks: IpBlocks) -> Self
        ensures { result ≡ blocks }
    {
        OverclaimedIpResources { blocks }
    }

    /// The addresses.
    pub fn blocks(&self) -> &IpBlocks
        ensures { result.now ≡ self.now }
    {
        &self.blocks
    }

    /// The addresses, handed over.
    pub fn into_blocks(self) -> IpBlocks
        ensures { result ≡ self }
    {
        self.blocks
    }

    /// The refusal, of IPv4.
    pub fn v4(self) -> OverclaimedIpv4Resources
        ensures { result.0 ≡ self }
    {
        OverclaimedIpv4Resources(self)
    }

    /// The refusal, of IPv6.
    pub fn v6(self) -> OverclaimedIpv6Resources
        ensures { result.0 ≡ self }
    {
        OverclaimedIpv6Resources(self)
    }
}

/// IPv4 addresses that a certificate lists and that its issuer doesn't hold.
#[derive(Clone, Debug, Drop, PartialEq, Eq)]
pub struct OverclaimedIpv4Resources(pub OverclaimedIpResources);

/// `overclaimed IPv4 resources: ` and the set.
impl fmt::Display for OverclaimedIpv4Resources {
    ghost output = { λ claim. Some
        (codes "overclaimed IPv4 resources: " ++ ip_set_text Ipv4 claim.0) };

    fn fmt<W: fmt::Write>(&self, f: &mut fmt::Formatter<W>) -> fmt::Result {
        write!(
            f,
            "overclaimed IPv4 resources: {}",
            IpBlocksForFamily::v4(self.0.blocks())
        )
    }
}

impl Error for OverclaimedIpv4Resources {}

/// IPv6 addresses that a certificate lists and that its issuer doesn't hold.
#[derive(Clone, Debug, Drop, PartialEq, Eq)]
pub struct OverclaimedIpv6Resources(pub OverclaimedIpResources);

/// `overclaimed IPv6 resources: ` and the set.
impl fmt::Display for OverclaimedIpv6Resources {
    ghost output = { λ claim. Some
        (codes "overclaimed IPv6 resources: " ++ ip_set_text Ipv6 claim.0) };

    fn fmt<W: fmt::Write>(&self, f: &mut fmt::Formatter<W>) -> fmt::Result {
        write!(
            f,
            "overclaimed IPv6 resources: {}",
            IpBlocksForFamily::v6(self.0.blocks())
        )
    }
}

impl Error for OverclaimedIpv6Resources {}
