//! What is written in front of values and in them: headers, and the contents of primitive values, in three modes.

pub mod error;
pub mod header;
pub mod integers;
pub mod primitive;
pub mod simple;
mod write;

pub use error::EncodeError;
pub use header::{total_encoded_len, write_header};
pub use primitive::{Primitive, PrimitiveContent};
pub use simple::Octets;
pub use write::write_octets;
