//! Sources of octets, contents that closures read, and errors.

pub use bcder_octets::bcder_content::{Constructed, Content, Decode, Primitive, read_front, whole};
pub use bcder_octets::bcder_source::{
    BytesSource, CaptureSource, ContentError, DecodeError, FixedText, IntoSource, LimitedSource,
    Pos, SliceSource, Source,
};
