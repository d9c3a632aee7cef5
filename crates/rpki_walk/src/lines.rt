//! The walk for lines alone: what is attested and what is refused, and not by which chains. So chains that end alike, and
//! below which the same lines stand, are walked once.

pub(crate) mod found;
pub mod laws;
mod remembered;
mod walk;
pub mod whole;

pub use whole::walk_lines;
