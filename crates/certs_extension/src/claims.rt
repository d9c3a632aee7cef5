//! All extensions of a certificate (RFC 5280 4.2, RFC 6487 4.8): a slot for the value of each kind,
//! filled one by one in whatever order they stand, and what they claim as a whole.

pub mod finish;
mod holding;
pub mod kinds;
pub mod laws;
pub mod list;
pub mod slots;
mod values;

pub use finish::Claims;
pub use holding::with_value;
pub use list::take_extensions;
pub use slots::Slots;
