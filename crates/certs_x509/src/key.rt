//! Public keys and their identifiers.

pub use certs_key::{KeyIdentifier, PublicKey, PublicKeyFormat};
