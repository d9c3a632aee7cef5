//! What the codec has for readers and writers of resources, by the codec's own names.
pub use bcder::{Mode, Tag, decode, encode, string};
