//! Signed objects, written (RFC 5652, RFC 6488): the attributes that a signer signs, as DER has them, the message that is
//! signed, and the object around them.
//!
//! [`signed_attributes`] and [`signed_message`] make what a signer signs of a content; [`ObjectValue`] is what is written of
//! an object, with the octets of its certificate and one [`SignerValue`].
//!
//! What differs from the Rust crate: the parts of an object are written by types of their own, of octets that are lent; the
//! attributes are made in memory that is handed in.

pub mod attributes;
pub mod frame;
pub mod laws;
mod order;

pub use attributes::{signed_attributes, signed_message};
pub use frame::{ObjectValue, SignerValue};
