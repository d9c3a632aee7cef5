//! Why something is refused, as a text: what is wrong with what, and what the reason names. Of each a word that stays, for
//! programs, and words for people.
#![tactic(auto)]

pub mod causes;
mod faults;
mod forms;
pub mod json;
pub mod named;
pub mod reasons;

pub use causes::cause_of;
pub use named::push_reason_names;
pub use reasons::push_reason;
