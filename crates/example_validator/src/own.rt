//! The program's own digests, and its own verdicts on signatures.

ghost use Rattle.std.specs.Prelude.{◌++◌, bytes_eq};
ghost use Rattle.sha1.specs.Sha1.{sha1 as sha1_of};
ghost use Rattle.sha2.specs.Sha256.{sha256 as sha256_of};

use certs_key::{PublicKey, RpkiSignatureAlgorithm, Verifier};
use rpki_validator::Digester;
use sha1::Sha1;
use sha2::{Digest, Sha256};

/// To it the SHA-256 digest of a key's bits followed by the message is the good signature. It counts how often it is asked.
#[derive(Clone, Copy)]
pub struct Own(pub u64);

impl Digester for Own {
    ghost sha256_digest = { λ _ octets. sha256_of octets };

    ghost sha1_digest = { λ _ octets. sha1_of octets };

    fn sha256(&self, octets: &[u8]) -> [u8; 32] {
        Sha256::digest(octets)
    }

    fn sha1(&self, octets: &[u8]) -> [u8; 20] {
        Sha1::digest(octets)
    }
}

impl Verifier for Own {
    ghost says = { λ _ key _ message signature.
        bytes_eq (sha256_of (key.bits.octets ++ message)) signature };

    ghost count = { λ own. own.0 };

    fn verify(
        &mut self,
        key: &PublicKey,
        _algorithm: RpkiSignatureAlgorithm,
        message: &[u8],
        signature: &[u8],
    ) -> bool {
        self.0 = self.0.saturating_add(1);
        let mut hasher = Sha256::new();
        hasher.update(key.bits());
        hasher.update(message);
        let digest = hasher.finalize();
        digest.as_slice() == signature
    }

    fn asked(&self) -> u64 {
        self.0
    }
}
