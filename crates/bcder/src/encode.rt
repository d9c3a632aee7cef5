//! Values that can be written, and how they are put together.

pub use bcder_octets::{
    Choice2, Choice3, Constructed, EncodeError, Encodes, Iter, Itself, Nothing, Octets, Primitive,
    PrimitiveContent, Slice, Values, ValuesWalk as Walk, sequence, sequence_as, set, set_as, slice,
    total_encoded_len, values_iter as iter, write_header, write_octets,
};
