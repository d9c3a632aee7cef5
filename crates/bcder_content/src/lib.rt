//! Contents that are read: where values begin and end ([`mod@header`]), skipping one ([`mod@skip_value`]), and taking
//! them, in three modes, without recursion.
#![tactic(auto)]

pub mod capture;
pub mod captured;
pub mod constructed;
pub mod content;
pub mod decode;
pub mod either;
pub mod ending;
pub mod header;
pub mod laws;
pub mod skip;
pub mod skip_value;
pub mod typed;
pub mod whole;

pub use bcder_primitive;
pub use bcder_primitive::{Primitive, primitive};
pub use bcder_source;
pub use bcder_source::bcder_tree;
pub use captured::{Captured, read_front};
pub use constructed::Constructed;
pub use content::Content;
pub use decode::Decode;
pub use ending::Ending;
