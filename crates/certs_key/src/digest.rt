//! The digests that are handed in.

ghost use Rattle.std.specs.Prelude.{◌≡◌, ℕ, List};

/// The two digests that RPKI objects name. Each is a function of the octets; nothing else is asked of it.
pub trait Digester {
    // What SHA-256 answers.
    ghost sha256_digest: { Self → List ℕ → List ℕ };

    // What SHA-1 answers.
    ghost sha1_digest: { Self → List ℕ → List ℕ };

    /// The SHA-256 digest (FIPS 180-4 6.2), by which manifests list files and keys sign.
    fn sha256(&self, octets: &[u8]) -> [u8; 32]
        ensures { result ≡ sha256_digest self.now octets.now };

    /// The SHA-1 digest (FIPS 180-4 6.1), by which keys are identified.
    fn sha1(&self, octets: &[u8]) -> [u8; 20]
        ensures { result ≡ sha1_digest self.now octets.now };
}
