//! OCTET STRING (X.690 8.7, 9.2, 10.2), read and written in three modes; and BIT STRING ([`bits`]).
//!
//! In BER a string is primitive, or in segments that are OCTET STRINGs, nested at will; in CER it is primitive to
//! 1000 octets, else in primitive segments of 1000 and a last one of 1 to 1000; in DER it is primitive. Contracts
//! see a string as its octets, whatever its segments were, and so do equality, order and hash.
//!
//! What differs from the Rust crate: a string that is read in segments is joined then, without recursion on the
//! input, and no octet of a string in one piece is copied where the source shares them. So `as_slice` lends the
//! octets of each string, and `iter` gives one piece. Reading, `to_bytes` and `into_bytes` take an allocator and
//! answer a `Result`. A string is compared with octets by `is_slice`. In CER segments are read and written as the
//! standard has them. In BER a string is written as in DER, in one piece. What `encode_wrapped` makes is refused in CER,
//! as `CerUnsupported`.
#![tactic(auto)]

pub mod bits;
pub mod encode;
pub mod iter;
pub mod laws;
mod pieces;
mod reading;
mod segments;
pub mod source;
pub mod string;
pub mod wrapping;

use bcder_values::bcder_primitive;
pub use bcder_values::{
    CapturedBuilder, Choice2, Choice3, Constructed, EncodeError, Encodes, Iter, Itself, Nothing,
    Octets, Primitive, PrimitiveContent, Slice, Values, Walk as ValuesWalk, bcder_content,
    bcder_source, bcder_tree, iter as values_iter, laws as values_laws, sequence, sequence_as, set,
    set_as, slice, total_encoded_len, write_header, write_octets,
};
pub use encode::{OctetSliceEncoder, OctetStringEncoder};
pub use iter::{OctetStringIter, OctetStringOctets};
pub use pieces::next_piece;
pub use source::OctetStringSource;
pub use string::OctetString;
pub use wrapping::WrappingOctetStringEncoder;
