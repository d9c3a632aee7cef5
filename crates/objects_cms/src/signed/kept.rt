//! The certificate of a signed object, at a place of its own: an object is handed on from call to call while it is read,
//! and a certificate is a thousand octets wide.

ghost use Rattle.std.specs.Prelude.{◌≡◌, IfOk};

use certs_cert::Cert;
use std::alloc::{AllocError, Global};
use std::marker::Model;

/// A certificate that is handed on by its place. Contracts see the certificate.
#[derive(Drop)]
pub struct KeptCert {
    cert: Box<Cert>,
}

impl Model for KeptCert {
    ghost use Rattle.objects_cms.specs.certs_extension.Cert.{CertValue};

    ghost Value = { CertValue };

    ghost view = { λ kept. kept.cert.value };
}

impl KeptCert {
    /// Finds a place for the certificate.
    pub fn new(alloc: Global, cert: Cert) -> Result<KeptCert, AllocError>
        ensures { IfOk result (λ kept. kept ≡ cert) }
    {
        let cert = Box::new(alloc, cert)?;
        Ok(KeptCert { cert })
    }

    /// The certificate.
    pub fn as_cert(&self) -> &Cert
        ensures { result.now ≡ self.now }
    {
        self.cert.as_ref()
    }

    /// The certificate, out of its place.
    pub fn into_cert(self) -> Cert
        ensures { result ≡ self }
    {
        Box::into_inner(self.cert)
    }
}
