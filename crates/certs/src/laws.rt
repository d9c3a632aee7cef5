//! Laws of certificates and revocation lists, by the part that they are of: each is the contract of a function that does
//! nothing.
//!
//! | Module | Has |
//! |---|---|
//! | [`built`] | what is built is read again as the same certificate |
//! | [`crl`] | what is written of revocation lists is read again |
//! | [`extension`] | values of extensions |
//! | [`list`] | the list of extensions |
//! | [`revoked`] | entries of revocation lists |
//! | [`spelled`] | octets are one certificate at most, and one revocation list |
//! | [`x509`] | names, serial numbers, times, keys, signatures and URIs |

pub use crate::again::laws as built;
pub use certs_crl::laws as crl;
pub use certs_extension::claims::laws as list;
pub use certs_extension::forms::laws as spelled;
pub use certs_extension::laws as extension;
pub use certs_x509::laws as x509;
pub use certs_x509::revoked::laws as revoked;
