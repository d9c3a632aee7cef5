//! Contents of primitive values that are read, with BOOLEAN, NULL and INTEGER by their octets; and what is written in
//! front of values and in them ([`written`]). [`integers`] says which octets an INTEGER has.
#![tactic(auto)]

pub mod integers;
pub mod primitive;
pub mod written;

pub use bcder_source::bcder_tree;
pub use primitive::Primitive;
