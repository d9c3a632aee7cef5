//! Names of issuers and subjects.

pub use certs_key::{InvalidName, Name};
