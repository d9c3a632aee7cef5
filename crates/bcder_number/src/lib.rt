//! INTEGERs of any size (X.690 8.3), and those from 0 up.
//!
//! A number is kept as its content octets, which copies share: as few octets as can be, in two's complement.
//! Contracts see the whole number, and equality, order and hash are those of whole numbers. What is made of Rust's
//! integers is the very number, and what is made into them too, or it is refused (`OverflowError`): none is cut.
//!
//! What differs from the Rust crate: what takes memory is given an allocator and answers a `Result`, `clone` too.
//! Conversions are calls by name (`Integer::from_u64`, `to_u64`) in place of `From` and `TryFrom`, which take no
//! allocator and have no reference to read; so is the comparison across types (`equals_unsigned`), and
//! `as_slice`, `as_bytes`, `as_integer` stand for `AsRef`. `Unsigned::from_slice` and `from_bytes` take content octets
//! alone: as few as can be, with the sign clear.
#![tactic(auto)]

pub mod convert;
pub mod convert_unsigned;
pub mod encode;
pub mod error;
pub mod integer;
pub mod laws;
mod octets;
pub mod order;
pub mod unsigned;

pub use bcder_values::{bcder_content, bcder_primitive, bcder_source, bcder_tree};
pub use error::{InvalidInteger, OverflowError};
pub use integer::Integer;
pub use unsigned::Unsigned;
