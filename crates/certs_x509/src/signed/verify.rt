//! Signatures that are verified.

ghost use Rattle.std.specs.Prelude.{◌≡◌, ◌↔◌, ◌+◌, ◌-◌, ◌^◌, min, true, IfErr, IsOk};
ghost use Rattle.certs_x509.specs.declared.errors.verification.VerificationError.TheVariants.{BadSignature};

use crate::errors::VerificationError;
use crate::signed::signed::SignedData;
use certs_key::{PublicKey, Verifier};

impl SignedData {
    /// Whether the signature is one of that key, over the very octets that stood there; else `BadSignature`. The verifier
    /// is asked just once: with the key, the algorithm, these octets, and those of the signature.
    pub fn verify_signature<V: Verifier>(
        &self,
        key: &PublicKey,
        verifier: &mut V,
    ) -> Result<(), VerificationError>
        ensures answer { IsOk result ↔ (V.says verifier.old key.now self.now.signature.algorithm
            self.now.message.octets self.now.signature.bits.octets ≡ true) }
        ensures refused { IfErr result (λ e. e ≡ BadSignature) }
        ensures same { V.says verifier.new ≡ V.says verifier.old }
        ensures counted { V.count verifier.new ≡ min (V.count verifier.old + 1) (2 ^ 64 - 1) }
    {
        let signature = self.signature();
        let algorithm = *signature.algorithm();
        let message = self.data();
        let is_good = verifier.verify(key, algorithm, message.as_slice(), signature.value());
        if is_good {
            return Ok(());
        }
        Err(VerificationError::BadSignature)
    }
}
