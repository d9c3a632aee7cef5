//! Values that are written, in three modes: the writing half of the codec.
#![tactic(auto)]

pub mod captured;
pub mod choice;
pub mod constructed;
mod frame;
pub mod items;
pub mod laws;
pub mod list;
mod plain;
pub mod tuples;
pub mod values;
pub mod walk;

pub use bcder_content;
pub use bcder_content::bcder_primitive::written::{
    EncodeError, Octets, Primitive, PrimitiveContent, error, header, integers, primitive, simple,
    total_encoded_len, write_header, write_octets,
};
pub use bcder_content::{bcder_primitive, bcder_source, bcder_tree};
pub use captured::CapturedBuilder;
pub use choice::{Choice2, Choice3, Nothing};
pub use constructed::{Constructed, sequence, sequence_as, set, set_as};
pub use items::{Encodes, Itself, Slice};
pub use list::{iter, slice};
pub use values::Values;
pub use walk::{Iter, Walk};
