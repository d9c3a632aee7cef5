//! What signatures say, by the rules of the walk: whether an issuer signed a certificate (RFC 6487 7.2), whether one is a
//! trust anchor's (RFC 8630 3), and whether a signed object is sound (RFC 6488 3); and else which test fails first.
//! Certificates and objects are lent; what they claim of resources isn't looked at, nor whether they are revoked.
//!
//! Each call decides exactly. A verifier is asked once or not at all.

pub mod anchors;
pub mod issued;
pub mod objects;
pub mod tests;

pub use anchors::check_anchor_cert;
pub use certs_verify::{Cert, Digester, PublicKey, Verifier};
pub use issued::{check_authority_cert, check_object_cert};
pub use objects::check_content;
pub use objects_cms::signed::SignedObject;
pub use tests::test_of;
