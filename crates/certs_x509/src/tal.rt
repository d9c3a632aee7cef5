//! What trust anchor locators are called.

pub use certs_basics::tal::TalInfo;
