//! Why things are refused: locators, the publication points of accepted chains, and files of points that stand.
//!
//! The walk asks at each accepted chain why its point is refused, and of a point that stands why each of its files is
//! ([`Diagnosing`]); locators are asked on their own. A chain's point is read for its reason beside the walk's own reading.

pub mod asked;
mod judged;
pub mod whole;

pub use asked::Diagnosing;
pub use whole::diagnose;
