//! Signed objects by what they are: manifests, route origin attestations and provider attestations (RFC 9286 4,
//! RFC 9582 3, draft-ietf-sidrops-aspa-profile 3).
//!
//! Each is a [`Signed`] object with what its content says, and differs from the others by its [`SignedContent`] alone. It is
//! read of a source in DER, or where not strict in BER; its content is DER in both. Reading it verifies nothing;
//! `verify_content` of each answers whether its signer signed it.
//!
//! What differs from the Rust crate: what takes memory is given an allocator, and lack of memory is an error of its
//! own; the content is lent by name; the three are one generic type, by their aliases.

mod contents;
mod signed;
mod typed;

pub use objects_cms::manifest::ManifestContent;
pub use objects_cms::signed::{SignedObject, SignerInfo};
pub use objects_payload::aspa::AsProviderAttestation;
pub use objects_payload::covered::{covers_aspa, covers_roa};
pub use objects_payload::roa::RouteOriginAttestation;
pub use signed::{Signed, SignedContent};

/// A manifest (RFC 9286 4).
pub type Manifest = Signed<ManifestContent>;

/// A route origin attestation (RFC 9582 3).
pub type Roa = Signed<RouteOriginAttestation>;

/// A provider attestation (draft-ietf-sidrops-aspa-profile 3).
pub type Aspa = Signed<AsProviderAttestation>;
