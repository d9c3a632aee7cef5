//! Why a locator is refused (RFC 8630 2, 3).

use crate::reason::certs::CertTest;
use objects_payload::locator::ReadError;

/// A test of an anchor's certificate.
#[derive(Clone, Copy, Debug, PartialEq, Eq)]
pub enum AnchorTest {
    /// It has the locator's key.
    SameKey,
    /// It is good as its own issuer.
    AnchorCert(CertTest),
}

/// Why a locator is refused.
#[derive(Clone, Copy, Debug, PartialEq, Eq)]
pub enum LocatorReason {
    /// Its text has this fault.
    BadText(ReadError),
    /// There is no object at any of its URIs.
    NoneHeld,
    /// What is there reads as no certificate.
    NoCert,
    /// The certificate there fails this test.
    BadAnchor(AnchorTest),
}
