//! Address prefixes with no host bits, and prefixes with a greatest length.

mod error;
pub mod laws;
mod mask;
mod max_len;
mod prefix;
mod texts;

pub use error::{MaxLenError, ParseMaxLenPrefixError, ParsePrefixError, PrefixError};
pub use max_len::MaxLenPrefix;
pub use prefix::Prefix;
