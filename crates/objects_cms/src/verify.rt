//! The tests that make a signed object sound (RFC 5652 5.4, 5.6; RFC 6488 3): that its signer signed its content.
//!
//! The digest that is signed is the content's, the signing time isn't after the certificate's validity, and the signature
//! is good by the certificate's key over the attributes as they stood, as a SET. [`verify_content`] answers `Ok` exactly
//! where all three tests pass, and else the first that fails; lack of memory is an error of its own. Whether the
//! certificate itself is valid is tested elsewhere.
//!
//! What differs from the Rust crate: the digester and the verifier are handed in, and the message that is signed is made
//! in memory that the caller gives.

mod content;
pub mod laws;
mod message;

pub use certs_cert::errors::VerificationError;
pub use content::verify_content;
pub use message::signed_message;
