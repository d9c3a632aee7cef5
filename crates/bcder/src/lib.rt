//! BER, CER and DER (X.690): values read and written, with integers, object identifiers and strings.
//!
//! This is the face of the codec: a port of the Rust crate `bcder` 0.7.7 in which each call is proved to meet its
//! contract. Object identifiers and restricted strings stand here. The `specs/` of each crate have the definitions that
//! its contracts cite.
//!
//! | Module | Has |
//! |---|---|
//! | [`decode`] | sources, contents that closures read, and errors |
//! | [`encode`] | values that can be written, and how they are put together |
//! | [`int`] | INTEGERs of any size |
//! | [`oid`] | object identifiers |
//! | [`string`] | bit strings, octet strings, and restricted character strings with their sets |
//! | [`captured`] | values that are kept as they are spelled |
//! | [`laws`] | what follows for values and their spellings, as functions that do nothing |
//!
//! So a `SEQUENCE { major INTEGER, minor INTEGER }` is read that octets begin with, in DER; any other
//! value is refused, and a number above 255:
//!
//! ```text
//! Mode::Der.decode(octets, |cons| {
//!     cons.take_sequence(|cons| {
//!         let major = cons.take_u8()?;
//!         let minor = cons.take_u8()?;
//!         Ok((major, minor))
//!     })
//! })
//! ```
//!
//! The crate `bcder_example` has this in its module `first`, with what is proved of it, and more.
//!
//! What differs from the Rust crate: what takes memory is given an allocator, first of all, and answers a `Result`
//! (lack of memory is an error of its own, and never another answer); nothing panics; a content owns its source;
//! a refused read leaves its content failed. Each part's page has the rest.
#![tactic(auto)]

pub mod captured;
pub mod decode;
pub mod encode;
pub mod int;
pub mod laws;
pub mod oid;
pub mod string;

pub use bcder_number::{Integer, Unsigned};
pub use bcder_octets::CapturedBuilder;
pub use bcder_octets::bcder_content::Captured;
pub use bcder_octets::bcder_tree::{Mode, Tag};
pub use bcder_octets::bits::BitString;
pub use oid::{ConstOid, Oid};
pub use string::{Ia5String, NumericString, OctetString, PrintableString, Utf8String};
