//! Why an attestation isn't valid.

ghost use Rattle.std.specs.Prelude.{◌≡◌};
ghost use Rattle.objects_rta_valid.specs.declared.errors.RtaError.TheVariants.{Memory};

use std::alloc::AllocError;

/// What is tested of an attestation when it is validated, in this order.
#[derive(Clone, Copy, Debug, PartialEq, Eq)]
pub enum RtaTest {
    /// Its signers and its subject keys have the same identifiers, each once.
    Keys,
    /// Each signer has a path of certificates, and one only.
    Paths,
    /// Each certificate that is carried is on a path.
    Certificates,
    /// Each signer signed the content: its digest, its signing time, and the signature by the first certificate of its path.
    Content,
    /// The first certificate of each path has the form of a detached object's, and each other one that of an authority's, or
    /// of a trust anchor's where it names itself.
    Forms,
    /// Each certificate is valid at the moment.
    Validity,
    /// Each certificate is signed by the next one of its path; one that names itself is signed by its own key, and inherits
    /// nothing.
    Signatures,
    /// Each list that is carried is of an issuer that follows another certificate on a path.
    Lists,
    /// Of each certificate that another follows on a path, some list is carried that the follower signed, that isn't stale,
    /// and that the certificate isn't on.
    Revocation,
}

/// The first test that an attestation doesn't pass, or lack of memory.
#[derive(Clone, Copy, Debug, PartialEq, Eq)]
pub enum RtaError {
    /// The first test that isn't passed.
    Test(RtaTest),
    /// Memory was wanted, and refused.
    Memory,
}

impl From<AllocError> for RtaError {
    ghost from_gives = { λ _ e. e ≡ Memory };

    fn from(_error: AllocError) -> RtaError {
        RtaError::Memory
    }
}
