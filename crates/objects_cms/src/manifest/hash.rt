//! Hashes of listed files (RFC 9286 4.2.1, RFC 7935 2).

ghost use Rattle.std.specs.Prelude.{◌≡◌, ◌↔◌, IsOk};

use certs_cert::DigestAlgorithm;
use certs_cert::errors::VerificationError;
use certs_key::Digester;
use std::marker::Model;
use thiserror::Error as ThisError;

/// The hash of a file that a manifest lists, by SHA-256, which is the only algorithm. Contracts see its octets.
#[derive(Debug, Drop)]
pub struct ManifestHash<'a> {
    hash: &'a [u8],
    algorithm: DigestAlgorithm,
}

impl<'a> Model for ManifestHash<'a> {
    ghost use Rattle.std.specs.Prelude.{List, ℕ};

    ghost Value = { List ℕ };

    ghost view = { λ h. h.hash.now };
}

/// A file hasn't the hash that the manifest lists.
#[derive(Clone, Copy, Debug, PartialEq, Eq, ThisError, Drop)]
pub enum ManifestHashMismatch {
    /// Its digest is another.
    #[error("manifest hash mismatch")]
    Mismatch,
}

impl From<ManifestHashMismatch> for VerificationError {
    ghost use Rattle.objects_cms.specs.certs_x509.declared.errors.verification.VerificationError.TheVariants.{HashMismatch};

    ghost from_gives = { λ cause e. e ≡ HashMismatch };

    fn from(_: ManifestHashMismatch) -> Self {
        VerificationError::HashMismatch
    }
}

impl<'a> ManifestHash<'a> {
    /// The hash with these octets, by that algorithm.
    pub fn new(hash: &'a [u8], algorithm: DigestAlgorithm) -> Self
        ensures { result ≡ hash.now }
    {
        ManifestHash { hash, algorithm }
    }

    /// The algorithm by which octets are digested, which is SHA-256 (RFC 9286 4.2.1, RFC 7935 2).
    pub fn algorithm(&self) -> DigestAlgorithm {
        self.algorithm
    }

    /// The octets of the hash.
    pub fn as_slice(&self) -> &'a [u8]
        ensures { result.now ≡ self.now }
    {
        self.hash
    }

    /// Verifies octets against the hash: their digest has to be it, so a hash of another length than 32 octets fits none.
    pub fn verify<D: Digester>(
        &self,
        digester: &D,
        octets: &[u8],
    ) -> Result<(), ManifestHashMismatch>
        ensures { IsOk result ↔ (D.sha256_digest digester.now octets.now ≡ self.now) }
    {
        let digest = digester.sha256(octets);
        if digest.as_slice() == self.hash {
            return Ok(());
        }
        Err(ManifestHashMismatch::Mismatch)
    }
}
