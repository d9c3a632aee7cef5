//! BIT STRING: strings of bits, read and written in three modes (X.690 8.6, 9.2, 11.2).
//!
//! What differs from the Rust crate: `BitString::new`, `encode_slice` and `octet` have conditions on the caller
//! (so many bits can be unused, there is such an octet); `octet_bytes` and `clone` answer a `Result`; `bit_len`
//! stops at `usize::MAX`; `skip_in` refuses what `take_from` refuses; unused bits that are set are refused in
//! CER and DER, and written as zeros there; a `BitSliceEncoder` is a primitive value around a `BitSlice`.

pub mod bit_string;
mod content;
pub mod encode;
pub mod laws;
mod parse;
mod reading;

pub use bit_string::{BitString, BitStringIter};
pub use encode::{BitSlice, BitSliceEncoder};
