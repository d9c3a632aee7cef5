//! Which extension it is, by its identifier.

ghost use Rattle.std.specs.Prelude.{MatchOption};
ghost use Rattle.certs_extension.specs.certs_basics.Lists.{Mem};
ghost use Rattle.certs_extension.specs.ExtensionKinds.{IsNamed, key_kinds, octets_of, place_kinds, resource_kinds};

use crate::Oid;
use crate::forms::{Overclaim, OverclaimIds};
use certs_basics::oid::{
    CE_AUTHORITY_KEY_IDENTIFIER, CE_BASIC_CONSTRAINTS, CE_CERTIFICATE_POLICIES,
    CE_CRL_DISTRIBUTION_POINTS, CE_EXTENDED_KEY_USAGE, CE_KEY_USAGE, CE_SUBJECT_KEY_IDENTIFIER,
    PE_AUTHORITY_INFO_ACCESS, PE_SUBJECT_INFO_ACCESS,
};

/// A kind of extensions.
#[derive(Clone, Copy, Debug, PartialEq, Eq)]
pub enum Kind {
    /// Whether the subject is an authority.
    BasicConstraints,
    /// The identifier of the subject's key.
    SubjectKeyIdentifier,
    /// The identifier of the issuer's key.
    AuthorityKeyIdentifier,
    /// What the subject's key is for.
    KeyUsage,
    /// What else it is for.
    ExtendedKeyUsage,
    /// Where the revocation list is found.
    CrlDistributionPoints,
    /// Where the issuer's certificate is found.
    AuthorityInfoAccess,
    /// Where the subject publishes.
    SubjectInfoAccess,
    /// By which policy the certificate was issued.
    CertificatePolicies,
    /// IP resources under the policy `Refuse`.
    IpResources,
    /// AS resources under the policy `Refuse`.
    AsResources,
    /// IP resources under the policy `Trim`.
    IpResourcesV2,
    /// AS resources under the policy `Trim`.
    AsResourcesV2,
    /// Any other.
    Unknown,
}

// The kind, if it is one of keys.
fn kind_of_key(oid: &Oid) -> Option<Kind>
    ensures { MatchOption result
        (¬ (Mem key_kinds oid.now.0)) (λ k. IsNamed (octets_of k) oid.now.0) }
{
    if oid.equals(&CE_BASIC_CONSTRAINTS) {
        return Some(Kind::BasicConstraints);
    }
    if oid.equals(&CE_SUBJECT_KEY_IDENTIFIER) {
        return Some(Kind::SubjectKeyIdentifier);
    }
    if oid.equals(&CE_AUTHORITY_KEY_IDENTIFIER) {
        return Some(Kind::AuthorityKeyIdentifier);
    }
    if oid.equals(&CE_KEY_USAGE) {
        return Some(Kind::KeyUsage);
    }
    if oid.equals(&CE_EXTENDED_KEY_USAGE) {
        return Some(Kind::ExtendedKeyUsage);
    }
    None
}

// The kind, if it says where something is found, or is that of policies.
fn kind_of_place(oid: &Oid) -> Option<Kind>
    ensures { MatchOption result
        (¬ (Mem place_kinds oid.now.0)) (λ k. IsNamed (octets_of k) oid.now.0) }
{
    if oid.equals(&CE_CRL_DISTRIBUTION_POINTS) {
        return Some(Kind::CrlDistributionPoints);
    }
    if oid.equals(&PE_AUTHORITY_INFO_ACCESS) {
        return Some(Kind::AuthorityInfoAccess);
    }
    if oid.equals(&PE_SUBJECT_INFO_ACCESS) {
        return Some(Kind::SubjectInfoAccess);
    }
    if oid.equals(&CE_CERTIFICATE_POLICIES) {
        return Some(Kind::CertificatePolicies);
    }
    None
}

// The kind, if it is one of resources.
fn kind_of_resources(oid: &Oid) -> Option<Kind>
    ensures { MatchOption result
        (¬ (Mem resource_kinds oid.now.0)) (λ k. IsNamed (octets_of k) oid.now.0) }
{
    if oid.equals(&Overclaim::Refuse.ip_res_id()) {
        return Some(Kind::IpResources);
    }
    if oid.equals(&Overclaim::Refuse.as_res_id()) {
        return Some(Kind::AsResources);
    }
    if oid.equals(&Overclaim::Trim.ip_res_id()) {
        return Some(Kind::IpResourcesV2);
    }
    if oid.equals(&Overclaim::Trim.as_res_id()) {
        return Some(Kind::AsResourcesV2);
    }
    None
}

/// The kind of an extension with that identifier.
pub fn kind_of(oid: &Oid) -> Kind
    ensures { IsNamed (octets_of result) oid.now.0 }
{
    if let Some(kind) = kind_of_key(oid) {
        return kind;
    }
    if let Some(kind) = kind_of_place(oid) {
        return kind;
    }
    if let Some(kind) = kind_of_resources(oid) {
        return kind;
    }
    Kind::Unknown
}
