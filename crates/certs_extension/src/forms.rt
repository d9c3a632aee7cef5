//! Definitions of certificates and revocation lists, and the enums that they speak of.

pub mod laws;

pub use certs_basics::time::{
    Captured, Clock, ConstOid, Mode, OctetString, Oid, Time, TimeText, Validity, ValidityError,
    decode, validity,
};
pub use resources_as::policy::OverclaimIds;
pub use resources_as::{
    AsBlock, AsBlocks, AsBlocksBuilder, AsResources, AsResourcesBuilder, Asn, InheritedAsResources,
    Origin, OverclaimedAsResources,
};
pub use resources_chain::{Block, ClaimError, Overclaim, Row, halve};
pub use resources_ip::{
    Addr, AddressFamily, InheritedIpResources, IpBlock, IpBlocks, IpBlocksBuilder, IpFamilies,
    IpResources, IpResourcesBuilder, OverclaimedIpv4Resources, OverclaimedIpv6Resources, Prefix,
};
use thiserror::Error;

/// What a certificate's key is for (RFC 6487 4.8.4).
#[derive(Clone, Copy, Debug, PartialEq, Eq)]
pub enum KeyUsage {
    /// To sign certificates and revocation lists.
    Ca,
    /// To sign one object.
    Ee,
}

/// What a certificate is inspected as.
#[derive(Clone, Copy, Debug, PartialEq, Eq)]
pub enum Role {
    /// A trust anchor.
    Ta,
    /// Another authority.
    Ca,
    /// The certificate in a published object.
    Ee,
    /// The certificate of an object that stands apart.
    DetachedEe,
    /// A router's certificate.
    Router,
}

/// Which test an inspection failed.
#[derive(Clone, Copy, Debug, PartialEq, Eq, Error)]
pub enum InspectionError {
    /// The two signature algorithms differ.
    #[error("signature algorithm mismatch in certificate")]
    AlgorithmMismatch,
    /// The issuer's name isn't one of the profile.
    #[error("invalid issuer")]
    BadIssuer,
    /// The subject's name isn't one of the profile.
    #[error("invalid subject")]
    BadSubject,
    /// The key's algorithm isn't allowed.
    #[error("public key algorithm not allowed for RPKI certificates")]
    KeyAlgorithm,
    /// The subject key identifier isn't the key's.
    #[error("Subject Key Identifier extension doesn't match public key")]
    KeyIdMismatch,
    /// The authority key identifier of an anchor isn't its own.
    #[error("Authority Key Identifier doesn't match Subject Key Identifier")]
    AuthorityKeyMismatch,
    /// There are extended key usages.
    #[error("Extended Key Usage extension not allowed in RPKI certificates")]
    ExtendedKeyUsagePresent,
    /// There are none.
    #[error("missing Extended Key Usage extension in router certificate")]
    ExtendedKeyUsageMissing,
    /// Routers aren't among them.
    #[error("Extended Key Usage extension is missing id-kp-bgpsec-router usage in router certificate")]
    NotRouterUsage,
    /// There is no CRL URI.
    #[error("missing CRL Distribution Points extension in certificate")]
    CrlMissing,
    /// There is one.
    #[error("CRL Distribution Points extension not allowed in trust anchor certificate")]
    CrlPresent,
    /// There is the URI of an issuer.
    #[error("Authority Information Access extension not allowed in trust anchor certificate")]
    AiaPresent,
    /// There are basic constraints.
    #[error("Basic Constraints extension not allowed in end entity certificate")]
    BasicConstraintsPresent,
    /// There are none.
    #[error("missing Basic Constraints extension in CA certificate")]
    BasicConstraintsMissing,
    /// They say that the subject is no authority.
    #[error("cA flag in Basic Constraints extension set to false")]
    NotCa,
    /// The key is for something else.
    #[error("invalid Key Usage extension in certificate")]
    WrongKeyUsage,
    /// There is no URI of a repository.
    #[error("missing id-ad-caRepository SIA instance in CA certificate")]
    RepositoryMissing,
    /// There is one.
    #[error("id-ad-caRepository SIA instance not allowed in end entity certificate")]
    RepositoryPresent,
    /// There is no URI of a manifest.
    #[error("missing id-ad-rpkiManifest SIA instance in CA certificate")]
    ManifestMissing,
    /// There is one.
    #[error("id-ad-rpkiManifest SIA instance not allowed in end entity certificate")]
    ManifestPresent,
    /// The manifest doesn't lie in the repository.
    #[error("id-ad-rpkiManifest is not a child of id-ad-caRepository")]
    ManifestNotChild,
    /// There is no URI of a signed object.
    #[error("missing id-ad-signedObject SIA instance in signed object end entity certificate")]
    SignedObjectMissing,
    /// There is one.
    #[error("id-ad-signedObject SIA instance not allowed in CA certificate")]
    SignedObjectPresent,
    /// There is a URI of one of the four access methods.
    #[error("Subject Information Access extension not allowed in router certificate")]
    SiaPresent,
    /// There are IP resources.
    #[error("IP Resources extension not allowed in router certificate")]
    IpResourcesPresent,
    /// There are no AS resources.
    #[error("missing AS Resources extension in router certificate")]
    AsResourcesMissing,
    /// They are inherited.
    #[error("inherited AS Resources in router certificate")]
    AsResourcesInherited,
}

/// Which test a verification of a certificate failed.
#[derive(Clone, Copy, Debug, PartialEq, Eq)]
pub enum VerificationTest {
    /// The moment is before the validity.
    NotYetValid,
    /// The moment is after it.
    Expired,
    /// There is no authority key identifier.
    AuthorityKeyMissing,
    /// It isn't the issuer's subject key identifier.
    AuthorityKeyMismatch,
    /// There is no URI of the issuer.
    AiaMissing,
    /// The signature isn't the key's.
    BadSignature,
    /// IPv4 resources are inherited, where nothing can be.
    InheritedV4,
    /// IPv6 resources are.
    InheritedV6,
    /// AS resources are.
    InheritedAs,
    /// IPv4 resources are claimed that the issuer doesn't hold.
    OverclaimV4,
    /// IPv6 resources are.
    OverclaimV6,
    /// AS resources are.
    OverclaimAs,
}
