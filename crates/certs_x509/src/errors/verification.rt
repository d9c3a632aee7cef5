//! Why what is vouched for is refused.

ghost use Rattle.std.specs.Prelude.{◌≡◌};

use certs_extension::forms::{
    OverclaimedAsResources, OverclaimedIpv4Resources, OverclaimedIpv6Resources, ValidityError,
};
use thiserror::Error;

/// One of the three kinds of number resources.
#[derive(Clone, Copy, Debug, PartialEq, Eq, Hash, Error)]
pub enum ClaimedKind {
    /// IPv4 addresses.
    #[error("IPv4 addresses")]
    V4,
    /// IPv6 addresses.
    #[error("IPv6 addresses")]
    V6,
    /// AS numbers.
    #[error("AS numbers")]
    Asn,
}

/// Numbers that a certificate lists and that its issuer doesn't hold, of the first kind of which there are such.
#[derive(Debug, Drop, Error)]
pub enum Overclaimed {
    /// IPv4 addresses.
    #[error("{0}")]
    V4(OverclaimedIpv4Resources),
    /// IPv6 addresses.
    #[error("{0}")]
    V6(OverclaimedIpv6Resources),
    /// AS numbers.
    #[error("{0}")]
    Asn(OverclaimedAsResources),
}

/// Which verification failed first.
#[derive(Debug, Drop, Error)]
pub enum VerificationError {
    /// The moment is before the certificate's validity.
    #[error("not yet valid")]
    NotYetValid,
    /// The moment is after the certificate's validity.
    #[error("expired")]
    Expired,
    /// There is no authority key identifier.
    #[error("missing authority key identifier")]
    AuthorityKeyMissing,
    /// The authority key identifier isn't the issuer's subject key identifier.
    #[error("authority key identifier of another key")]
    AuthorityKeyMismatch,
    /// There is no URI of the issuer.
    #[error("missing URI of the issuer")]
    AiaMissing,
    /// The signature isn't one of the key over the message.
    #[error("bad signature")]
    BadSignature,
    /// Numbers of this kind are inherited, where there is nothing to inherit from.
    #[error("inherited {0}")]
    Inherited(ClaimedKind),
    /// Numbers are listed that the issuer doesn't hold.
    #[error("{0}")]
    Overclaim(Overclaimed),
    /// The digest that is signed isn't the content's.
    #[error("message digest of another content")]
    MessageDigest,
    /// The signing time is after the certificate's validity.
    #[error("signed after the certificate expired")]
    SigningTime,
    /// The digest that a manifest lists isn't the object's.
    #[error("hash of another object")]
    HashMismatch,
    /// What an object attests isn't within its certificate's resources.
    #[error("uncovered resources")]
    Uncovered,
    /// The caller's test of the revocation list refused.
    #[error("refused by the caller")]
    Refused,
    /// No memory is left.
    #[error("out of memory")]
    Memory,
}

impl From<ValidityError> for VerificationError {
    ghost use Rattle.certs_x509.specs.Causes.{of_validity};

    ghost from_gives = { λ cause e. e ≡ of_validity cause };

    fn from(cause: ValidityError) -> Self {
        match cause {
            ValidityError::NotYetValid => VerificationError::NotYetValid,
            ValidityError::Expired => VerificationError::Expired,
        }
    }
}
