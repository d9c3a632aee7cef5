//! What a bundle's lists tell: its table of good signatures, which verifies them, and its objects by their lookup keys. Both
//! are found by halving.

pub mod index;
pub mod keys;
mod search;
mod sought;
pub mod verifier;

pub use index::Index;
pub use rpki_rules::{Locator, Object};
pub use search::MAX_PROBES;
pub use verifier::TableVerifier;
