//! Certificates that are built (RFC 5280 4.1, RFC 6487 4): what is written of a certificate's
//! fields, and the certificate that a signer makes of them.
//!
//! [`BuildCert`] is implemented by `TbsCert`: `encode_ref` writes the fields, `into_cert` signs them.
//!
//! What differs from the Rust crate: both are calls of a trait; `into_cert` is given an allocator, and
//! refuses names that are kept in another mode than DER, where the Rust crate panics.

pub mod build;
pub mod extensions;
pub mod values;

pub use build::BuildCert;
pub use values::TbsCertValues;
