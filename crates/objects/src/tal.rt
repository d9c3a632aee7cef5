//! Trust anchor locators (RFC 8630): URIs of an anchor's certificate, and its key; what a locator is called. A locator is read
//! of a reader that counts its failures ([`Counted`]).

pub use certs::x509::TalInfo;
pub use objects_payload::counted::Counted;
pub use objects_payload::locator::{ReadError, Tal, TalUri};
