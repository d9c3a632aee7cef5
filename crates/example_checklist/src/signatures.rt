//! Whose signatures are good: a stand-in for a library that computes them.

ghost use Rattle.std.specs.Prelude.{◌++◌, bytes_eq};
ghost use Rattle.sha2.specs.Sha256.{sha256 as sha256_of};

use certs::x509::{PublicKey, RpkiSignatureAlgorithm, Verifier};
use sha2::{Digest, Sha256};

/// To it the SHA-256 digest of a key's bits followed by the message is the good signature.
#[derive(Clone, Copy)]
pub struct StandIn {
    /// How often it was asked.
    pub asked: u64,
}

impl Verifier for StandIn {
    ghost says = { λ _ key _ message signature.
        bytes_eq (sha256_of (key.bits.octets ++ message)) signature };

    ghost count = { λ stand_in. stand_in.asked };

    fn verify(
        &mut self,
        key: &PublicKey,
        _algorithm: RpkiSignatureAlgorithm,
        message: &[u8],
        signature: &[u8],
    ) -> bool {
        self.asked = self.asked.saturating_add(1);
        let mut hasher = Sha256::new();
        hasher.update(key.bits());
        hasher.update(message);
        let digest = hasher.finalize();
        digest.as_slice() == signature
    }

    fn asked(&self) -> u64 {
        self.asked
    }
}
