//! Keys that sign, which are handed in.

ghost use Rattle.std.specs.Prelude.{◌≡◌, ◌≢◌, ℕ, List, IfErr, IfOk};
ghost use Rattle.certs_key.specs.certs_basics.Keys.{KeyValue};
ghost use Rattle.certs_key.specs.bcder_tree.declared.mode.Mode.TheVariants.{Der};
ghost use Rattle.certs_key.specs.bcder_octets.BitContents.{IsPadded};
ghost use Rattle.certs_key.specs.declared.signer.SigningError.{SigningError as Refusal};
ghost use Rattle.certs_key.specs.declared.signer.SigningError.TheVariants.{TooLong};

use crate::algorithm::{Signature, SignatureAlgorithm};
use crate::key::PublicKey;
use std::alloc::Global;
use std::fmt::Display;
use thiserror::Error;

/// Why nothing was signed.
#[derive(Debug, Drop, Error)]
#[error_bound(E: Display)]
pub enum SigningError<E> {
    /// The signer has no such key.
    #[error("key not found")]
    KeyNotFound,
    /// The key can't sign by that algorithm.
    #[error("key not compatible with the algorithm")]
    IncompatibleKey,
    /// The signer failed otherwise.
    #[error("{0}")]
    Signer(E),
    /// What was to be signed would have a content of more than 2^32 - 1 octets.
    #[error("a value that is too long")]
    TooLong,
    /// Memory was wanted, and refused.
    #[error("out of memory")]
    Memory,
}

/// Keys that sign, by names of the signer's own.
///
/// `has_key` and `signs` are relations, so a signer may sign one message in more than one way. `refuses` tells by which
/// errors it may refuse, so that an error which is handed on is known to come from it. No signer answers `TooLong`, which is
/// told of what is to be signed, before the signer is asked. The unused bits of the keys that it tells are zero, as DER has
/// them (X.690 11.2.1).
pub trait Signer {
    /// By what a key is named.
    type KeyId;

    /// Why the signer itself fails.
    type Error;

    // Which public key may be told of a name.
    ghost has_key: { Self → Self.KeyId → KeyValue → Type 0 };

    // Which octets may be a signature of a message by the key of a name.
    ghost signs: { Self → Self.KeyId → List ℕ → List ℕ → Type 0 };

    // Which octets may be a signature of a message by a key that is made for it alone.
    ghost signs_once: { Self → KeyValue → List ℕ → List ℕ → Type 0 };

    // By which errors it may refuse.
    ghost refuses: { Self → Refusal Self.Error → Type 0 };

    /// The public part of that key.
    fn get_key_info(
        &self,
        alloc: Global,
        key: &Self::KeyId,
    ) -> Result<PublicKey, SigningError<Self::Error>>
        ensures key { IfOk result (λ public. has_key self.now key.now public) }
        ensures padded { IfOk result (λ public. IsPadded Der public.bits) }
        ensures told { IfErr result (λ e. e ≢ TooLong) }
        ensures refused { IfErr result (λ e. refuses self.now e) };

    /// A signature of the message by that key and algorithm.
    fn sign<A: SignatureAlgorithm + Drop>(
        &self,
        alloc: Global,
        key: &Self::KeyId,
        algorithm: A,
        message: &[u8],
    ) -> Result<Signature<A>, SigningError<Self::Error>>
        ensures algorithm { IfOk result (λ signature. signature.algorithm ≡ algorithm) }
        ensures signed { IfOk result
            (λ signature. signs self.now key.now message.now signature.bits.octets) }
        ensures told { IfErr result (λ e. e ≢ TooLong) }
        ensures refused { IfErr result (λ e. refuses self.now e) };

    /// A signature of the message by a key that is made for it alone, and that key.
    fn sign_one_off<A: SignatureAlgorithm + Drop>(
        &self,
        alloc: Global,
        algorithm: A,
        message: &[u8],
    ) -> Result<(Signature<A>, PublicKey), SigningError<Self::Error>>
        ensures algorithm { IfOk result (λ made. made.0.algorithm ≡ algorithm) }
        ensures signed { IfOk result
            (λ made. signs_once self.now made.1 message.now made.0.bits.octets) }
        ensures padded { IfOk result (λ made. IsPadded Der made.1.bits) }
        ensures told { IfErr result (λ e. e ≢ TooLong) }
        ensures refused { IfErr result (λ e. refuses self.now e) };
}
