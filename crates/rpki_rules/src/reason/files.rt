//! Why a file of a publication point that stands is refused.

use crate::reason::certs::{CertTest, ContentTest};
use crate::{AddressFamily, Asn};
use certs_x509::Overclaimed;
use objects_payload::roa::RoaIpAddress;

/// A test of whether a certificate is revoked (RFC 6487 7.2).
#[derive(Clone, Copy, Debug, PartialEq, Eq)]
pub enum RevocationTest {
    /// It names a revocation list.
    NamesList,
    /// That is the list which the point's manifest names.
    SameList,
    /// It isn't on the list.
    NotRevoked,
}

/// A test of an authority's certificate in a file (RFC 6487 7.2).
#[derive(Drop)]
pub enum CerTest {
    /// Of its revocation.
    CerRevocation(RevocationTest),
    /// Of its form, and of what its issuer and the moment say.
    CerCert(CertTest),
    /// It claims nothing else than is held: these numbers it claims, and they aren't held.
    CerClaim(Overclaimed),
}

/// A test of a signed object in a file (RFC 6488 3, RFC 9582 5, draft-ietf-sidrops-aspa-profile 4).
#[derive(Drop)]
pub enum ObjectTest {
    /// Of its certificate's revocation.
    ObjectRevocation(RevocationTest),
    /// Of its certificate's form, and of what the issuer and the moment say.
    ObjectCert(CertTest),
    /// Of its content.
    ObjectContent(ContentTest),
    /// Its certificate claims nothing else than is held: these numbers it claims, and they aren't held.
    ObjectClaim(Overclaimed),
    /// This prefix is held.
    PrefixHeld(AddressFamily, RoaIpAddress),
    /// This customer is held.
    CustomerHeld(Asn),
}

/// Why a file of a publication point that stands is refused.
#[derive(Drop)]
pub enum FileReason {
    /// The certificate doesn't read.
    BadCer,
    /// The authority's certificate fails this test.
    CerFails(CerTest),
    /// The authority's key is on the chain already.
    Loop,
    /// The chain has as many certificates as it may have.
    Depth,
    /// The object doesn't read.
    BadObject,
    /// The object fails this test.
    ObjectFails(ObjectTest),
}
