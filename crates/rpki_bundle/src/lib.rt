//! Bundles: all that one run of the validator is given, in one DER value.
#![tactic(auto)]

pub mod bundle;
pub mod digest;
mod entries;
pub mod error;
mod forms;
pub mod laws;
pub mod limits;
pub mod parts;
mod reader;
pub mod time;
pub mod uri;
pub mod version;
mod whole;
mod words;
mod writer;

pub use bundle::Bundle;
pub use certs_key::{PublicKey, RpkiSignatureAlgorithm, Verifier};
pub use digest::Digester;
pub use error::BundleError;
pub use parts::{Locator, Object, Verdict};
pub use time::Time;
pub use version::Version;
