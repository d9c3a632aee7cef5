//! What is written of the contents of signed objects: route origin attestations (RFC 9582 4) and manifests
//! (RFC 9286 4.2); and, in [`frame`], of the object around a content. Signed objects that are built and signed (RFC 6488 2,
//! RFC 6487 4).
//!
//! [`EncodeRoa`], [`EncodeManifest`], [`EncodeAddresses`] and [`EncodeFile`] give contents, addresses and listed files
//! what the codec writes; the `to_octets` of the first two is the DER that a signed object holds, and is read again as
//! the same content. [`SignedObjectBuilder`] has what a certificate for an object needs besides the keys; `finalize` signs a
//! content and the certificate, and gives the object's octets. [`der`] takes octets that were kept as the values that they are
//! in DER.
//!
//! What differs from the Rust crate: what is written is had by calls of traits; what is refused is answered with an error,
//! where the Rust crate panics. `SignedObjectBuilder::new` is given the moment of signing; `finalize` is given an allocator and
//! a digester, and answers the octets of the object.
#![tactic(auto)]

pub mod address;
pub mod build;
pub mod builder;
pub mod causes;
pub mod der;
pub mod family;
pub mod file;
pub mod frame;
pub mod laws;
pub mod manifest;
pub mod resources;
pub mod roa;

pub use address::{AddressValue, Addresses, EncodeAddresses};
pub use builder::SignedObjectBuilder;
pub use family::FamilyValue;
pub use file::{EncodeFile, FileValue};
pub use manifest::{EncodeManifest, ManifestValue, has_file_names};
pub use roa::{EncodeRoa, RoaValue, has_address};
