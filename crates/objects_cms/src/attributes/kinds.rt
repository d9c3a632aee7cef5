//! Which attribute it is, by its identifier (RFC 5652 11, RFC 6019 3).

ghost use Rattle.std.specs.Prelude.{◌≡◌, MatchOption};
ghost use Rattle.objects_cms.specs.Said.{octets_of};
ghost use Rattle.objects_cms.specs.declared.attributes.kinds.Kind.{Kind as KindValue};

use certs_key::oid::{AA_BINARY_SIGNING_TIME, CONTENT_TYPE, MESSAGE_DIGEST, SIGNING_TIME};
use objects_payload::forms::Oid;

/// A kind of attributes.
#[derive(Clone, Copy, Debug, PartialEq, Eq)]
pub enum Kind {
    /// The type of the content that is signed.
    ContentType,
    /// The digest of that content.
    MessageDigest,
    /// When it was signed, as a text.
    SigningTime,
    /// When it was signed, as a number of seconds.
    BinarySigningTime,
}

/// The kind of an attribute with that identifier, if it is one that may be signed in the RPKI (RFC 6488 2.1.6.4).
pub fn kind_of(oid: &Oid) -> Option<Kind>
    ensures { MatchOption result
        ((k : KindValue) → ¬ (oid.now.0 ≡ octets_of k)) (λ k. oid.now.0 ≡ octets_of k) }
{
    if oid.equals(&CONTENT_TYPE) {
        return Some(Kind::ContentType);
    }
    if oid.equals(&MESSAGE_DIGEST) {
        return Some(Kind::MessageDigest);
    }
    if oid.equals(&SIGNING_TIME) {
        return Some(Kind::SigningTime);
    }
    if oid.equals(&AA_BINARY_SIGNING_TIME) {
        return Some(Kind::BinarySigningTime);
    }
    None
}
