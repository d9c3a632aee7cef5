//! Resource tagged attestations, written (draft-ietf-sidrops-rpki-rta; this project's profile).
//!
//! [`EncodeAttestation`] writes what an attestation says, [`EncodeSigner`] what one signer signed, and [`EncodeMulti`] a signed
//! object with several signers, or an attestation as such an object, in DER. What is signed of it is written as it stood: so
//! an object that was read in BER is written only where the attributes, and what was signed of certificates and revocation
//! lists, are values in DER. The members of a SET are written in the order in which they are kept.
//!
//! What differs from the Rust crate: the calls are those of traits, and are given an allocator; what is written of an object
//! owns the octets of the attributes; an object that can't be written is refused as `CerUnsupported`.
#![tactic(auto)]

pub mod attestation;
pub mod builder;
mod der;
pub mod draft;
pub mod laws;
pub mod object;
pub mod signer;
mod tags;

pub use attestation::{AttestationValue, EncodeAttestation};
pub use builder::{AttestationBuilder, AttestationError};
pub use draft::RtaBuilder;
pub use object::{EncodeMulti, MultiValues};
pub use objects_rta::{Crl, MultiSignedObject, ResourceTaggedAttestation, Rta, SignerInfo};
pub use signer::{EncodeSigner, SignerValues};
