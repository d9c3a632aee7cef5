//! The attributes that a signer signs (RFC 5652 5.3, 11; RFC 6488 2.1.6.4, RFC 6019): what each says, each once at most, and
//! the very octets of all of them, over which the signature is.

pub mod attrs;
pub mod invalid;
pub mod kinds;
pub mod laws;
pub mod said;
pub mod slots;

pub use attrs::SignedAttrs;
pub use invalid::InvalidSignedAttr;
