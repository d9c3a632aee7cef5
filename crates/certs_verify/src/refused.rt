//! Certificates that are refused.

use crate::inspect::Cert;

/// A certificate that is refused, handed back as it was, and why.
#[derive(Drop)]
pub struct Refused<E> {
    /// The certificate.
    pub cert: Cert,
    /// Why it is refused.
    pub error: E,
}
