//! Moments, validity, and clocks that are handed in.

pub use certs_basics::time::text::{GeneralizedTime, VariedTime};
pub use certs_basics::time::validity::ValidityValue;
pub use certs_basics::time::{Clock, Time, TimeText, Validity, ValidityError};
