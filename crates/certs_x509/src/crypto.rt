//! Algorithms and signatures, and what is handed in: digests, verdicts on signatures, and keys that sign.

pub use certs_key::{
    AlgorithmIdentifier, DigestAlgorithm, Digester, RpkiSignature, RpkiSignatureAlgorithm,
    Signature, SignatureAlgorithm, Signer, SigningError, Verifier,
};
