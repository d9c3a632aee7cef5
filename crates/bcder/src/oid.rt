//! Object identifiers (X.690 8.19): read, compared, taken apart, printed, read from texts and written.
//!
//! An [`Oid`] keeps the content octets of an OBJECT IDENTIFIER, in whatever lends them: shared octets, or a
//! slice of a constant. Reading accepts content of one or more octets of which the last has bit 8 clear; that is
//! one or more subidentifiers, one after the other. A subidentifier with needless octets `80` in front isn't
//! refused: it is the same number, but another identifier, since identifiers are compared by their octets.
//!
//! What differs from the Rust crate:
//!
//! - `take_from`, `take_opt_from` and `from_primitive` take an allocator, and `from_str` is a call of its own that
//!   takes one, too: lack of memory is an answer (`ParseOidError::Memory`).
//! - Comparison across types is `equals`; `AsRef<[u8]>` is `AsSlice<u8>` and `as_slice`.
//! - Iterating never panics: it ends where no whole subidentifier is left, and so does printing.
//! - `Component::to_u32` answers None just where the component is above `u32::MAX`, also where its subidentifier is
//!   above it and the component isn't (`2.4294967295`), and whatever octets `80` stand in front.
//! - Components are equal where they are the same number, wherever they stand.
//! - `from_str` reads `2.4294967295`, whose first subidentifier has 33 bits. Its errors are an enum.

mod component;
mod content;
mod iter;
pub mod laws;
pub mod oid;
mod text;
mod write;

pub use oid::{Component, ConstOid, Iter, Oid, ParseOidError};
