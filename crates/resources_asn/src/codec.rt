//! What the codec has for readers and writers of resources, by the codec's own names.
pub use resources_ip_prefix::codec::{Mode, Tag, decode, encode};
