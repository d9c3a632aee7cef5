//! What a signed object is built of (RFC 6488 2, RFC 6487 4).

ghost use Rattle.std.specs.Prelude.{◌≡◌, None, option_copied};
ghost use Rattle.objects_written.specs.resources_chain.declared.choice.ResourcesChoice.TheVariants.{Missing};

use certs_extension::{AsResources, IpResources, Rsync, Time, Validity};
use certs_key::{DigestAlgorithm, Name, Serial};
use std::marker::Model;

// The number of the certificate, when it is valid, and its names where they aren't made from the keys.
#[derive(Drop)]
pub(crate) struct Identity {
    pub(crate) serial_number: Serial,
    pub(crate) validity: Validity,
    pub(crate) issuer: Option<Name>,
    pub(crate) subject: Option<Name>,
}

// Where the revocation list, the issuer's certificate and the object are found.
#[derive(Drop)]
pub(crate) struct Places {
    pub(crate) crl_uri: Rsync,
    pub(crate) ca_issuer: Rsync,
    pub(crate) signed_object: Rsync,
}

// The resources of the certificate.
#[derive(Drop)]
pub(crate) struct Holdings {
    pub(crate) v4: IpResources,
    pub(crate) v6: IpResources,
    pub(crate) asn: AsResources,
}

/// A signed object that is put together: the fields of its certificate that the keys don't give, and the moment of signing.
/// Contracts see them.
#[derive(Drop)]
pub struct SignedObjectBuilder {
    digest_algorithm: DigestAlgorithm,
    pub(crate) identity: Identity,
    pub(crate) places: Places,
    pub(crate) holdings: Holdings,
    signing_time: Time,
}

impl Model for SignedObjectBuilder {
    ghost use Rattle.objects_written.specs.Builders.{BuilderValue};

    ghost Value = { BuilderValue };

    ghost view = { λ b. record {
      serial = b.identity.serial_number;
      not_before = b.identity.validity.not_before;
      not_after = b.identity.validity.not_after;
      issuer = b.identity.issuer;
      subject = b.identity.subject;
      crl_uri = b.places.crl_uri;
      ca_issuer = b.places.ca_issuer;
      signed_object = b.places.signed_object;
      v4 = b.holdings.v4;
      v6 = b.holdings.v6;
      asn = b.holdings.asn;
      signing_time = b.signing_time;
    } };
}

impl SignedObjectBuilder {
    /// An object with these fields: without names of its own, and with all resources missing.
    pub fn new(
        serial_number: Serial,
        validity: Validity,
        crl_uri: Rsync,
        ca_issuer: Rsync,
        signed_object: Rsync,
        signing_time: Time,
    ) -> Self
        ensures { result ≡ record {
          serial = serial_number;
          not_before = validity.not_before;
          not_after = validity.not_after;
          issuer = None;
          subject = None;
          crl_uri = crl_uri;
          ca_issuer = ca_issuer;
          signed_object = signed_object;
          v4 = Missing;
          v6 = Missing;
          asn = Missing;
          signing_time = signing_time;
        } }
    {
        SignedObjectBuilder {
            digest_algorithm: DigestAlgorithm::default(),
            identity: Identity {
                serial_number,
                validity,
                issuer: None,
                subject: None,
            },
            places: Places {
                crl_uri,
                ca_issuer,
                signed_object,
            },
            holdings: Holdings {
                v4: IpResources::missing(),
                v6: IpResources::missing(),
                asn: AsResources::missing(),
            },
            signing_time,
        }
    }

    /// The algorithm of digests, which is SHA-256 (RFC 7935 2).
    pub fn digest_algorithm(&self) -> DigestAlgorithm {
        self.digest_algorithm
    }

    /// Sets the algorithm of digests, of which there is one.
    pub fn set_digest_algorithm(&mut self, algorithm: DigestAlgorithm)
        ensures { self.new ≡ self.old }
    {
        self.digest_algorithm = algorithm;
    }

    /// The serial number of the certificate (RFC 5280 4.1.2.2).
    pub fn serial_number(&self) -> Serial
        ensures { result ≡ self.now.serial }
    {
        self.identity.serial_number
    }

    /// Sets the serial number of the certificate.
    pub fn set_serial_number(&mut self, serial: Serial)
        ensures { self.new ≡ record self.old { serial = serial } }
    {
        self.identity.serial_number = serial;
    }

    /// From when to when the certificate is valid (RFC 5280 4.1.2.5).
    pub fn validity(&self) -> Validity
        ensures { result ≡ record {
          not_before = self.now.not_before;
          not_after = self.now.not_after;
        } }
    {
        self.identity.validity
    }

    /// Sets the validity of the certificate.
    pub fn set_validity(&mut self, validity: Validity)
        ensures { self.new ≡ record self.old {
          not_before = validity.not_before;
          not_after = validity.not_after;
        } }
    {
        self.identity.validity = validity;
    }

    /// The name of the issuer, where it isn't made from its key (RFC 6487 4.4).
    pub fn issuer(&self) -> Option<&Name>
        ensures { option_copied result ≡ self.now.issuer }
    {
        self.identity.issuer.as_ref()
    }

    /// Sets the name of the issuer; without one it is made from its key.
    pub fn set_issuer(&mut self, name: Option<Name>)
        ensures { self.new ≡ record self.old { issuer = name } }
    {
        self.identity.issuer = name;
    }

    /// The name of the subject, where it isn't made from the key (RFC 6487 4.5).
    pub fn subject(&self) -> Option<&Name>
        ensures { option_copied result ≡ self.now.subject }
    {
        self.identity.subject.as_ref()
    }

    /// Sets the name of the subject; without one it is made from the key.
    pub fn set_subject(&mut self, name: Option<Name>)
        ensures { self.new ≡ record self.old { subject = name } }
    {
        self.identity.subject = name;
    }

    /// Where the revocation list is found (RFC 6487 4.8.6).
    pub fn crl_uri(&self) -> &Rsync
        ensures { result.now ≡ self.now.crl_uri }
    {
        &self.places.crl_uri
    }

    /// Sets where the revocation list is found.
    pub fn set_crl_uri(&mut self, uri: Rsync)
        ensures { self.new ≡ record self.old { crl_uri = uri } }
    {
        self.places.crl_uri = uri;
    }

    /// Where the issuer's certificate is found (RFC 6487 4.8.7).
    pub fn ca_issuer(&self) -> &Rsync
        ensures { result.now ≡ self.now.ca_issuer }
    {
        &self.places.ca_issuer
    }

    /// Sets where the issuer's certificate is found.
    pub fn set_ca_issuer(&mut self, uri: Rsync)
        ensures { self.new ≡ record self.old { ca_issuer = uri } }
    {
        self.places.ca_issuer = uri;
    }

    /// Where the object is found (RFC 6487 4.8.8.2).
    pub fn signed_object(&self) -> &Rsync
        ensures { result.now ≡ self.now.signed_object }
    {
        &self.places.signed_object
    }

    /// Sets where the object is found.
    pub fn set_signed_object(&mut self, uri: Rsync)
        ensures { self.new ≡ record self.old { signed_object = uri } }
    {
        self.places.signed_object = uri;
    }

    /// When the object is signed (RFC 5652 11.3).
    pub fn signing_time(&self) -> Time
        ensures { result ≡ self.now.signing_time }
    {
        self.signing_time
    }

    /// Sets when the object is signed.
    pub fn set_signing_time(&mut self, time: Time)
        ensures { self.new ≡ record self.old { signing_time = time } }
    {
        self.signing_time = time;
    }
}
