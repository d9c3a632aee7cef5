//! Names of issuers and subjects, and serial numbers (RFC 5280 4.1.2.2, 4.1.2.4; RFC 6487 4.2, 4.4, 4.5).
//!
//! A [`Name`] is kept as the octets that stood there, with the mode in which they spell it; what attributes it has is
//! asked by inspection alone. A [`Serial`] is a number from 0 up, below 2^160.
//!
//! What differs from the Rust crate: inspection refuses with [`InvalidName`], which the caller reports of the issuer or
//! the subject; what takes memory is given an allocator and answers a `Result`, `clone` too.
#![tactic(auto)]

mod attributes;
pub mod error;
pub mod inspect;
pub mod laws;
pub mod name;
pub mod name_der;
mod seen;
pub mod serial;
pub mod serial_der;
mod serial_order;
mod serial_text;
mod skim;
mod whole;

pub use certs_basics::{
    BitString, Captured, ConstOid, Ia5String, Mode, OctetString, Oid, PrintableString,
    PublicKeyFormat, Tag, decode, encode, oid, string,
};
pub use error::InvalidName;
pub use name::Name;
pub use serial::Serial;
