//! Moments, by jiff's calendar: those of `certs_basics::time`.

pub use certs_basics::time::Time;
