//! What trust anchor locators lead to, up to the anchor's certificate (RFC 8630 3): a locator's text, the first of its
//! URIs at which there is an object, and the certificate that an object's octets are.

pub mod certs;
pub mod held;
pub mod laws;
pub mod lookup;
pub mod texts;

pub use certs::{cert_at, read_cert};
pub use held::first_held;
pub use lookup::{LocatorLookup, follow};
pub use objects_payload::locator::{Tal, TalUri};
pub use texts::read_locator_text;
