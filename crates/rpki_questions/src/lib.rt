//! Questions about a bundle, for people and for tools: whether an object is good by a chain, what whoever may change the
//! objects at some URIs can reach, why something is attested or refused, what is refused and why, and what a walk costs.
//!
//! Each answer is a text, a fact a line or one JSON object, and a yes or a no.
#![tactic(auto)]

mod answers;
pub mod asking;
mod costs;
mod facts;
mod judging;
mod keys;
pub mod programs;
mod reaching;
mod refusals;
mod refused;
pub mod requests;
mod telling;
mod texts;

pub use asking::{FAULT, NO, YES, ask};
pub use programs::ask_program;
pub use requests::{Question, Request, USAGE, request_of};
pub use rpki_validator::{Counted, RunError};
