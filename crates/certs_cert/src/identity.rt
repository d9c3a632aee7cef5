//! Who a certificate is of, by whom, and when it is valid (RFC 5280 4.1.2.2, 4.1.2.4 to 4.1.2.6).

ghost use Rattle.std.specs.Prelude.{◌≡◌};

use crate::tbs::TbsCert;
use certs_extension::forms::Validity;
use certs_x509::signed::{Name, RpkiSignatureAlgorithm, Serial};

impl TbsCert {
    /// The serial number (RFC 5280 4.1.2.2).
    pub fn serial_number(&self) -> Serial
        ensures { result ≡ self.now.serial }
    {
        self.serial_number
    }

    /// Sets the serial number.
    pub fn set_serial_number(&mut self, serial: Serial)
        ensures { self.new ≡ record self.old { serial = serial } }
    {
        self.serial_number = serial;
    }

    /// The algorithm that the signed part names (RFC 5280 4.1.2.3).
    pub fn signature(&self) -> RpkiSignatureAlgorithm
        ensures { result ≡ self.now.has_null }
    {
        self.signature
    }

    /// The name of the issuer (RFC 5280 4.1.2.4).
    pub fn issuer(&self) -> &Name
        ensures { result.now ≡ self.now.issuer }
    {
        &self.issuer
    }

    /// Sets the name of the issuer.
    pub fn set_issuer(&mut self, name: Name)
        ensures { self.new ≡ record self.old { issuer = name } }
    {
        self.issuer = name;
    }

    /// From when to when the certificate is valid (RFC 5280 4.1.2.5).
    pub fn validity(&self) -> Validity
        ensures { result ≡ record {
          not_before = self.now.not_before;
          not_after = self.now.not_after;
        } }
    {
        self.validity
    }

    /// Sets the validity.
    pub fn set_validity(&mut self, validity: Validity)
        ensures { self.new ≡ record self.old {
          not_before = validity.not_before;
          not_after = validity.not_after;
        } }
    {
        self.validity = validity;
    }

    /// The name of the subject (RFC 5280 4.1.2.6).
    pub fn subject(&self) -> &Name
        ensures { result.now ≡ self.now.subject }
    {
        &self.subject
    }

    /// Sets the name of the subject.
    pub fn set_subject(&mut self, subject: Name)
        ensures { self.new ≡ record self.old { subject = subject } }
    {
        self.subject = subject;
    }
}
