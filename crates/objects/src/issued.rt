//! Manifests and route origin attestations that are signed (RFC 9286 4, 5.1; RFC 9582 3, 5).
//!
//! [`IntoManifest`] is implemented by `ManifestContent`, [`FinalizeRoa`] by `RoaBuilder`: `into_manifest` and `finalize` write
//! the content, and sign it with what a `SignedObjectBuilder` has. [`ToIpResources`] makes resources of addresses, and
//! [`are_of_family`] tells whether an attestation can be put together of them.
//!
//! What differs from the Rust crate: these are calls of traits; they are given an allocator and a digester, and answer the
//! octets of the object, which `Manifest::decode` and `Roa::decode` read.

pub mod addresses;
pub mod laws;
pub mod manifests;
pub mod roas;

pub use addresses::{ToIpResources, are_of_family};
pub use manifests::IntoManifest;
pub use roas::FinalizeRoa;
