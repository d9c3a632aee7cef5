//! Certificates that were verified, with what they hold.

ghost use Rattle.std.specs.Prelude.{◌≡◌};
ghost use Rattle.certs_verify.specs.Holders.{holding};

use crate::inspect::{AsBlocks, Cert, IpBlocks};
use certs_x509::TalInfo;
use std::alloc::{AllocError, Global};
use std::marker::Model;
use std::rc::Rc;

/// What a certificate holds of each kind of number resources.
#[derive(Debug, Drop)]
pub(crate) struct Held {
    pub(crate) v4: IpBlocks,
    pub(crate) v6: IpBlocks,
    pub(crate) asn: AsBlocks,
}

impl Model for Held {
    ghost use Rattle.certs_verify.specs.Holders.{HeldValue};

    ghost Value = { HeldValue };

    ghost view = { λ h. record { v4 = h.v4; v6 = h.v6; asn = h.asn } };

    ghost inverse = { λ h. record { v4 = h.v4; v6 = h.v6; asn = h.asn } };
}

/// A clone holds the same. The sets are shared.
impl Clone for Held {
    ghost is_clone = { λ held copy. copy ≡ held };

    fn clone(&self) -> Result<Self, AllocError> {
        let v4 = self.v4.clone()?;
        let v6 = self.v6.clone()?;
        let asn = self.asn.clone()?;
        Ok(Held { v4, v6, asn })
    }
}

/// A certificate that was verified, with the number resources that it holds by that, and what the locator of its anchor
/// is called (RFC 6487 7.2, RFC 8360 4.2). Contracts see all of them.
#[derive(Debug, Drop)]
pub struct ResourceCert {
    cert: Cert,
    held: Held,
    tal: Rc<TalInfo>,
}

impl Model for ResourceCert {
    ghost use Rattle.certs_verify.specs.Holders.{ResourceCertValue, holding};

    ghost Value = { ResourceCertValue };

    ghost view = { λ r. record { holder = holding r.cert r.held; tal = r.tal.value } };
}

impl ResourceCert {
    // The certificate, with what it holds.
    pub(crate) fn new(cert: Cert, held: Held, tal: Rc<TalInfo>) -> Self
        ensures { result ≡ record { holder = holding cert held; tal = tal.value } }
    {
        ResourceCert { cert, held, tal }
    }

    /// The certificate.
    pub fn as_cert(&self) -> &Cert
        ensures { result.now ≡ self.now.holder.cert }
    {
        &self.cert
    }

    /// The IPv4 addresses that it holds.
    pub fn v4_resources(&self) -> &IpBlocks
        ensures { result.now ≡ self.now.holder.v4 }
    {
        &self.held.v4
    }

    /// The IPv6 addresses that it holds.
    pub fn v6_resources(&self) -> &IpBlocks
        ensures { result.now ≡ self.now.holder.v6 }
    {
        &self.held.v6
    }

    /// The AS numbers that it holds.
    pub fn as_resources(&self) -> &AsBlocks
        ensures { result.now ≡ self.now.holder.asn }
    {
        &self.held.asn
    }

    /// What the locator is called by which its anchor was found.
    pub fn tal(&self) -> &Rc<TalInfo>
        ensures { result.now.value ≡ self.now.tal }
    {
        &self.tal
    }

    /// What the locator is called by which its anchor was found, handed over.
    pub fn into_tal(self) -> Rc<TalInfo>
        ensures { result.value ≡ self.tal }
    {
        self.tal
    }
}

/// A clone is the same certificate, holds the same and has the same locator. Octets and sets are shared, so that memory is
/// taken for the purposes of the key alone; but a count of copies can be full.
impl Clone for ResourceCert {
    ghost is_clone = { λ cert copy. copy ≡ cert };

    fn clone(&self) -> Result<Self, AllocError> {
        let held = self.held.clone()?;
        let tal = self.tal.clone()?;
        let cert = self.cert.clone()?;
        Ok(ResourceCert { cert, held, tal })
    }
}
