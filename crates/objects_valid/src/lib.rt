//! Validation of signed objects below an issuer (RFC 6488 3): of manifests (RFC 9286 6), route origin attestations
//! (RFC 9582 5), provider attestations (draft-ietf-sidrops-aspa-profile 4), and of any other.
//!
//! An object is accepted exactly where its certificate has the form of one that signs an object, its signer signed its
//! content, and the issuer issued its certificate, which is valid at the moment and claims what it may; else the first test
//! that fails is answered. `process` asks a caller's test of the certificate beside that, which looks it up on a
//! revocation list, and whether what is attested is within what the certificate holds.
//!
//! [`kinds`] has objects with what their contents say, all of one type, [`Signed`], of which a kind has what differs by
//! [`SignedContent`] and [`Attested`]; [`stated`] has the resources that a content states (RFC 9323 4.1). `decode_if_type`
//! reads an object whose content is of a type that is asked for, and refuses any other.
//!
//! What differs from the Rust crate: the calls of an object of any kind are those of traits; the verifier, the digester and
//! the clock are handed in, and each call has a form that is given the moment; what takes memory is given an allocator, and
//! lack of memory is an error of its own; whatever a caller's test refuses with is reported as one error, but for lack of
//! memory; the content of an object of any kind is handed over as it stands.
#![tactic(auto)]

pub mod aspa;
pub mod attested;
pub mod caller;
pub mod if_type;
mod inspected;
pub mod kinds;
pub mod manifest;
pub mod object;
pub mod process;
pub mod roa;
pub mod stated;
mod terms;
mod together;

pub use attested::Attested;
pub use certs_verify::{
    Cert, Digester, InspectionError, ResourceCert, ValidationError, VerificationError, Verifier,
};
pub use if_type::DecodeIfType;
pub use kinds::{Aspa, Manifest, ManifestContent, Roa, Signed, SignedContent, SignedObject};
pub use object::ProcessObject;
pub use resources_as::AsResources;
pub use resources_ip::IpResources;
pub use roa::UncoveredPrefix;
pub use stated::{AsForm, StatedResources};
