//! Tests of certificates and of the contents of signed objects.

use certs_x509::InspectionError;
use certs_x509::forms::VerificationTest;

/// A test of a certificate.
#[derive(Clone, Copy, Debug, PartialEq, Eq)]
pub enum CertTest {
    /// Of its form (RFC 6487 4).
    Inspection(InspectionError),
    /// Of what its issuer and the moment say (RFC 6487 7.2).
    Verification(VerificationTest),
}

/// A test of a signed object's content (RFC 5652 5.4, 5.6; RFC 6488 3).
#[derive(Clone, Copy, Debug, PartialEq, Eq)]
pub enum ContentTest {
    /// The digest that is signed is the content's.
    Digest,
    /// It was signed before the end of the certificate's validity.
    SigningTime,
    /// The signature is good by the certificate's key.
    Signature,
}
