//! The verdicts on signatures that are handed in.

ghost use Rattle.std.specs.Prelude.{◌≡◌, ◌+◌, ◌-◌, ◌^◌, ℕ, min};
ghost use Rattle.certs_key.specs.certs_basics.Verdicts.{Verdicts};

use crate::algorithm::RpkiSignatureAlgorithm;
use crate::key::PublicKey;

/// Which signatures are good: a relation on keys, algorithms, messages and signatures. Nothing else is asked of it.
///
/// A verifier counts how often it is asked.
pub trait Verifier {
    // The relation: by a key, whether NULL stands in the algorithm, the message, and the signature's octets.
    ghost says: { Self → Verdicts };

    // How often it was asked, up to the greatest `u64`.
    ghost count: { Self → ℕ };

    /// Whether these octets are a good signature of the message by that key. The relation stays as it was, and the count
    /// is raised by one.
    fn verify(
        &mut self,
        key: &PublicKey,
        algorithm: RpkiSignatureAlgorithm,
        message: &[u8],
        signature: &[u8],
    ) -> bool
        ensures answer { result ≡ says self.old key.now algorithm message.now signature.now }
        ensures same { says self.new ≡ says self.old }
        ensures counted { count self.new ≡ min (count self.old + 1) (2 ^ 64 - 1) };

    /// How often `verify` was called, or `u64::MAX` where it was more often.
    fn asked(&self) -> u64
        ensures { result ≡ count self.now };
}
