//! Moments, validity and clocks (RFC 5280 4.1.2.5).
//!
//! A [`Time`] is a moment of the years 0000 to 9999, to seconds; contracts see the seconds since the year 0000. It is
//! read as UTCTime or GeneralizedTime, in the one text that RFC 5280 has of each, and written as UTCTime from 1950
//! through 2049 and as GeneralizedTime before and after.
//!
//! What differs from the Rust crate: nothing asks the system's clock; a [`Clock`] is handed in, or a moment.

pub mod clock;
pub mod der;
pub mod error;
pub mod laws;
pub mod text;
pub mod time;
pub mod validity;

pub use bcder::{Captured, ConstOid, Mode, OctetString, Oid, decode};
pub use clock::Clock;
pub use error::ValidityError;
pub use text::TimeText;
pub use time::Time;
pub use validity::Validity;
