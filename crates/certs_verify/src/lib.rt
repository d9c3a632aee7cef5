//! Verification of certificates: whether one is valid at a moment, below an issuer or by itself, and what it then holds
//! (RFC 6487 7.2, RFC 8360 4.2, RFC 8630 2.3).
//!
//! Each kind of certificate has a list of tests in their order. A verification answers `Ok` exactly where the certificate
//! passes all of them, and else the first that it doesn't pass. A certificate that is accepted becomes a
//! [`ResourceCert`], which holds just what the claim rule says: of a kind that is missing nothing, of one that is inherited
//! all that the issuer holds, and of one that is listed what it lists, or, where it is trimmed, what it lists and the
//! issuer holds. A validation inspects first ([`inspect`]), as the role asks. No revocation list is looked at.
//!
//! What differs from the Rust crate: the calls are those of the traits [`Verify`] and [`Validate`]; the verifier, the
//! digester and the clock are handed in; what takes memory is given an allocator, and lack of memory is an error of its
//! own; a call that takes the certificate hands it back where it refuses, in a [`Refused`]; a claim that isn't held is
//! refused with the numbers outside.
#![tactic(auto)]

mod anchor;
mod below;
mod claims;
pub mod holder;
pub mod inspect;
mod inspected;
pub mod refused;
mod tests;
pub mod validate;
pub mod verify;

pub use certs_x509::{Digester, PublicKey, TalInfo, ValidationError, VerificationError, Verifier};
pub use holder::ResourceCert;
pub use inspect::{Cert, Inspect, InspectionError};
pub use refused::Refused;
pub use validate::Validate;
pub use verify::Verify;
