//! INTEGERs of any size.

pub use bcder_number::{Integer, InvalidInteger, OverflowError, Unsigned};
