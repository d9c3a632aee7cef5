//! Signatures.

ghost use Rattle.std.specs.Prelude.{◌≡◌, IfOk};

use crate::algorithm::algorithm::RpkiSignatureAlgorithm;
use bytes::Bytes;
use certs_name::BitString;
use std::alloc::AllocError;
use std::marker::Model;

/// A signature, and the algorithm that made it. Contracts see both.
///
/// A signature in a certificate or a list is a BIT STRING, and how many bits of its last octet are unused is kept with
/// it. What is verified are its octets.
#[derive(Debug, PartialEq, Eq, Drop)]
pub struct Signature<A> {
    algorithm: A,
    bits: BitString,
}

/// A signature as RPKI has it.
pub type RpkiSignature = Signature<RpkiSignatureAlgorithm>;

impl<A> Model for Signature<A> {
    ghost use Rattle.certs_key.specs.Algorithms.{SignatureValue};

    ghost Value = { SignatureValue A };

    ghost view = { λ s. record { algorithm = s.algorithm; bits = s.bits } };

    ghost inverse = { λ s. record { algorithm = s.algorithm; bits = s.bits } };
}

impl<A> Signature<A> {
    /// A signature of those octets, all bits of which are used.
    pub fn new(algorithm: A, value: Bytes) -> Self
        ensures algorithm { result.algorithm ≡ algorithm }
        ensures unused { result.bits.unused ≡ 0 }
        ensures value { result.bits.octets ≡ value }
    {
        Signature {
            algorithm,
            bits: BitString::new(0, value),
        }
    }

    /// A signature of those bits.
    pub fn from_bits(algorithm: A, bits: BitString) -> Self
        ensures { result ≡ record { algorithm = algorithm; bits = bits } }
    {
        Signature { algorithm, bits }
    }

    /// The algorithm.
    pub fn algorithm(&self) -> &A
        ensures { result.now ≡ self.now.algorithm }
    {
        &self.algorithm
    }

    /// The signature's bits.
    pub fn bits(&self) -> &BitString
        ensures { result.now ≡ self.now.bits }
    {
        &self.bits
    }

    /// The signature's octets, the unused bits included.
    pub fn value(&self) -> &[u8]
        ensures { result.now ≡ self.now.bits.octets }
    {
        match self.bits.octet_slice() {
            Some(octets) => octets,
            None => unreachable!(),
        }
    }

    /// The signature's octets, to keep; none is copied.
    pub fn into_value(self) -> Result<Bytes, AllocError>
    where
        A: Drop,
        ensures { IfOk result (λ octets. octets ≡ self.bits.octets) }
    {
        self.bits.octet_bytes()
    }
}
