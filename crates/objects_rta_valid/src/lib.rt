//! Validation of resource tagged attestations (draft-ietf-sidrops-rpki-rta; this project's profile): whether the holders of
//! all keys that an attestation names signed it, by certificates and revocation lists that it carries.
//!
//! From each signer's certificate a path goes up, by key identifiers, through authorities' certificates that are carried. An
//! attestation is valid where each signer has one path and no other, all that is carried is used, and certificates, lists and
//! signatures along the paths are good.
//!
//! ```text
//! let rta = Rta::decode(alloc, octets, strict)?;
//! let validation = Validation::new_at(alloc, rta, strict, moment, &digester, &mut verifier)?;
//! ```
//!
//! What differs from the Rust crate: the verifier, the digester and the clock are handed in; what takes memory is given an
//! allocator, and lack of memory is an error of its own; an attestation that isn't valid is refused with the first test that
//! it doesn't pass.
#![tactic(auto)]

mod certs;
mod content;
pub mod errors;
mod forms;
mod judge;
mod keyed;
mod keys;
mod lists;
pub mod paths;
mod places;
mod terms;
pub mod validation;
mod walk;

pub use certs_verify::{Cert, Digester, ResourceCert, Verifier};
pub use errors::{RtaError, RtaTest};
pub use objects_rta::{Clock, Rta, Time};
pub use paths::{PathPlaces, Paths};
pub use validation::Validation;
