//! What a walk costs: how many accepted chains go on below each authority.

pub mod count;
pub mod laws;
mod tally;
mod walk;
pub mod whole;

pub use count::{Cost, Count};
pub use whole::cost;
