//! Trust anchors (RFC 8630): what a locator leads to, whether a certificate is one of a trust anchor, or the one to which the
//! locator of some name leads, and which lookup keys a locator names.

pub mod cert;
pub mod keys;
pub mod locator;
pub mod named;
