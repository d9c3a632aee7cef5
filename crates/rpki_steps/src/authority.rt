//! An authority of the walk.

ghost use Rattle.std.specs.Prelude.{◌≡◌, IfOk};
ghost use Rattle.rpki_steps.specs.Holders.{sets_of};
ghost use Rattle.rpki_walk.specs.resources_ip.WholeSets.{AreWhole};

use certs_verify::ResourceCert;
use rpki_walk::reach::{Ipv4Blocks, Ipv6Blocks, ResourceSet};
use std::alloc::AllocError;
use std::marker::Model;

/// An authority's certificate that was verified, with the numbers that its chain holds: those of IPv4 are whole addresses, as
/// all are that were read as IPv4. Contracts see the certificate with the numbers.
#[derive(Drop)]
pub struct Authority {
    cert: ResourceCert,
}

impl Model for Authority {
    ghost use Rattle.rpki_steps.specs.certs_verify.Holders.{ResourceCertValue};
    ghost use Rattle.rpki_walk.specs.resources_ip.WholeSets.{AreWhole};

    ghost Value = { ResourceCertValue };

    ghost view = { λ a. a.cert };

    ghost invariant = { λ a. AreWhole a.cert.holder.v4 };
}

impl Authority {
    // The authority with that certificate.
    pub(crate) fn new(cert: ResourceCert) -> Self
        requires { AreWhole cert.holder.v4 }
        ensures { result ≡ cert }
    {
        Authority { cert }
    }

    /// The certificate that was verified.
    pub fn verified(&self) -> &ResourceCert
        ensures cert { result.now ≡ self.now }
        ensures whole { AreWhole self.now.holder.v4 }
    {
        &self.cert
    }

    /// The numbers that its chain holds.
    pub fn held(&self) -> Result<ResourceSet, AllocError>
        ensures { IfOk result (λ set. set ≡ sets_of self.now) }
    {
        let asn = self.cert.as_resources().clone()?;
        let ipv4 = Ipv4Blocks::from_blocks(self.cert.v4_resources().clone()?);
        let ipv6 = Ipv6Blocks::from_blocks(self.cert.v6_resources().clone()?);
        Ok(ResourceSet::new(asn, ipv4, ipv6))
    }
}
