//! The object identifiers of certificates, revocation lists and signed objects, each by the content octets of its DER
//! encoding (X.690 8.19).

use bcder::{ConstOid, Oid};

/// rsaEncryption, 1.2.840.113549.1.1.1 (RFC 8017 A.1).
pub const RSA_ENCRYPTION: ConstOid = Oid(&[42, 134, 72, 134, 247, 13, 1, 1, 1]);

/// sha256WithRSAEncryption, 1.2.840.113549.1.1.11 (RFC 8017 A.2.4).
pub const SHA256_WITH_RSA_ENCRYPTION: ConstOid = Oid(&[42, 134, 72, 134, 247, 13, 1, 1, 11]);

/// id-ecPublicKey, 1.2.840.10045.2.1 (RFC 5480 2.1.1).
pub const EC_PUBLIC_KEY: ConstOid = Oid(&[42, 134, 72, 206, 61, 2, 1]);

/// secp256r1, 1.2.840.10045.3.1.7 (RFC 5480 2.1.1.1).
pub const SECP256R1: ConstOid = Oid(&[42, 134, 72, 206, 61, 3, 1, 7]);

/// id-sha256, 2.16.840.1.101.3.4.2.1 (RFC 5754 2.2).
pub const SHA256: ConstOid = Oid(&[96, 134, 72, 1, 101, 3, 4, 2, 1]);

/// subjectKeyIdentifier, 2.5.29.14 (RFC 5280 4.2.1.2).
pub const CE_SUBJECT_KEY_IDENTIFIER: ConstOid = Oid(&[85, 29, 14]);

/// keyUsage, 2.5.29.15 (RFC 5280 4.2.1.3).
pub const CE_KEY_USAGE: ConstOid = Oid(&[85, 29, 15]);

/// basicConstraints, 2.5.29.19 (RFC 5280 4.2.1.9).
pub const CE_BASIC_CONSTRAINTS: ConstOid = Oid(&[85, 29, 19]);

/// cRLNumber, 2.5.29.20 (RFC 5280 5.2.3).
pub const CE_CRL_NUMBER: ConstOid = Oid(&[85, 29, 20]);

/// cRLDistributionPoints, 2.5.29.31 (RFC 5280 4.2.1.13).
pub const CE_CRL_DISTRIBUTION_POINTS: ConstOid = Oid(&[85, 29, 31]);

/// certificatePolicies, 2.5.29.32 (RFC 5280 4.2.1.4).
pub const CE_CERTIFICATE_POLICIES: ConstOid = Oid(&[85, 29, 32]);

/// authorityKeyIdentifier, 2.5.29.35 (RFC 5280 4.2.1.1).
pub const CE_AUTHORITY_KEY_IDENTIFIER: ConstOid = Oid(&[85, 29, 35]);

/// extKeyUsage, 2.5.29.37 (RFC 5280 4.2.1.12).
pub const CE_EXTENDED_KEY_USAGE: ConstOid = Oid(&[85, 29, 37]);

/// authorityInfoAccess, 1.3.6.1.5.5.7.1.1 (RFC 5280 4.2.2.1).
pub const PE_AUTHORITY_INFO_ACCESS: ConstOid = Oid(&[43, 6, 1, 5, 5, 7, 1, 1]);

/// subjectInfoAccess, 1.3.6.1.5.5.7.1.11 (RFC 5280 4.2.2.2).
pub const PE_SUBJECT_INFO_ACCESS: ConstOid = Oid(&[43, 6, 1, 5, 5, 7, 1, 11]);

/// id-kp-bgpsec-router, 1.3.6.1.5.5.7.3.30 (RFC 8209 3.1.3.2).
pub const KP_BGPSEC_ROUTER: ConstOid = Oid(&[43, 6, 1, 5, 5, 7, 3, 30]);

/// id-ad-caIssuers, 1.3.6.1.5.5.7.48.2 (RFC 5280 4.2.2.1).
pub const AD_CA_ISSUERS: ConstOid = Oid(&[43, 6, 1, 5, 5, 7, 48, 2]);

/// id-ad-caRepository, 1.3.6.1.5.5.7.48.5 (RFC 5280 4.2.2.2).
pub const AD_CA_REPOSITORY: ConstOid = Oid(&[43, 6, 1, 5, 5, 7, 48, 5]);

/// id-ad-rpkiManifest, 1.3.6.1.5.5.7.48.10 (RFC 6487 4.8.8.1).
pub const AD_RPKI_MANIFEST: ConstOid = Oid(&[43, 6, 1, 5, 5, 7, 48, 10]);

/// id-ad-signedObject, 1.3.6.1.5.5.7.48.11 (RFC 6487 4.8.8.2).
pub const AD_SIGNED_OBJECT: ConstOid = Oid(&[43, 6, 1, 5, 5, 7, 48, 11]);

/// id-ad-rpkiNotify, 1.3.6.1.5.5.7.48.13 (RFC 8182 3.2).
pub const AD_RPKI_NOTIFY: ConstOid = Oid(&[43, 6, 1, 5, 5, 7, 48, 13]);

/// id-signedData, 1.2.840.113549.1.7.2 (RFC 5652 5.1).
pub const SIGNED_DATA: ConstOid = Oid(&[42, 134, 72, 134, 247, 13, 1, 7, 2]);

/// id-contentType, 1.2.840.113549.1.9.3 (RFC 5652 11.1).
pub const CONTENT_TYPE: ConstOid = Oid(&[42, 134, 72, 134, 247, 13, 1, 9, 3]);

/// id-messageDigest, 1.2.840.113549.1.9.4 (RFC 5652 11.2).
pub const MESSAGE_DIGEST: ConstOid = Oid(&[42, 134, 72, 134, 247, 13, 1, 9, 4]);

/// id-signingTime, 1.2.840.113549.1.9.5 (RFC 5652 11.3).
pub const SIGNING_TIME: ConstOid = Oid(&[42, 134, 72, 134, 247, 13, 1, 9, 5]);

/// id-aa-binarySigningTime, 1.2.840.113549.1.9.16.2.46 (RFC 6019 3).
pub const AA_BINARY_SIGNING_TIME: ConstOid = Oid(&[42, 134, 72, 134, 247, 13, 1, 9, 16, 2, 46]);

/// id-ct-routeOriginAuthz, 1.2.840.113549.1.9.16.1.24 (RFC 9582 3).
pub const CT_ROUTE_ORIGIN_AUTHZ: ConstOid = Oid(&[42, 134, 72, 134, 247, 13, 1, 9, 16, 1, 24]);

/// id-ct-rpkiManifest, 1.2.840.113549.1.9.16.1.26 (RFC 9286 4.1).
pub const CT_RPKI_MANIFEST: ConstOid = Oid(&[42, 134, 72, 134, 247, 13, 1, 9, 16, 1, 26]);

/// id-ct-resourceTaggedAttest, 1.2.840.113549.1.9.16.1.36 (draft-ietf-sidrops-rpki-rta 3).
pub const CT_RESOURCE_TAGGED_ATTESTATION: ConstOid = Oid(&[
    42, 134, 72, 134, 247, 13, 1, 9, 16, 1, 36,
]);

/// id-ct-signedChecklist, 1.2.840.113549.1.9.16.1.48 (RFC 9323 3).
pub const CT_SIGNED_CHECKLIST: ConstOid = Oid(&[42, 134, 72, 134, 247, 13, 1, 9, 16, 1, 48]);

/// id-ct-ASPA, 1.2.840.113549.1.9.16.1.49 (draft-ietf-sidrops-aspa-profile 2).
pub const CT_ASPA: ConstOid = Oid(&[42, 134, 72, 134, 247, 13, 1, 9, 16, 1, 49]);
