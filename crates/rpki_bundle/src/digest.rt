//! The digests that are handed in: those of `certs_key`.

pub use certs_key::Digester;
