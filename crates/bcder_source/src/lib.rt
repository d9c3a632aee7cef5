//! Sources of octets, positions and errors; with modes, tags, lengths and the laws of spellings.
#![tactic(auto)]

pub mod capture;
pub mod error;
pub mod laws;
pub mod limited;
pub mod memory;
pub mod pos;
pub mod source;

pub use bcder_tree;
pub use bcder_tree::{Length, Mode, Tag, identifier, length, mode, tag};
pub use capture::CaptureSource;
pub use error::{ContentError, DecodeError, FixedText};
pub use limited::LimitedSource;
pub use memory::{BytesSource, SliceSource};
pub use pos::Pos;
pub use source::{IntoSource, Source};
