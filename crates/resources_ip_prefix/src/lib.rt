//! IP addresses of both families, and prefixes, as numbers of 128 bits (RFC 3779 section 2); and strict prefixes, as
//! texts and route origin attestations have them ([`ip_addr`]).
#![tactic(auto)]

pub mod addr;
pub mod codec;
mod convert;
mod der;
mod encode;
pub mod error;
pub mod ip_addr;
pub mod laws;
pub mod prefix;
mod text;

pub use addr::{Addr, AddressFamily};
pub use bcder::{Captured, ConstOid, Oid};
pub use error::FromStrError;
pub use prefix::Prefix;
