//! The programs' digests: SHA-256 and SHA-1 of FIPS 180-4, by sha2 and sha1.
#![tactic(auto)]

ghost use Rattle.sha1.specs.Sha1.{sha1 as sha1_of};
ghost use Rattle.sha2.specs.Sha256.{sha256 as sha256_of};

use certs_key::Digester;
use sha1::Sha1;
use sha2::{Digest, Sha256};

/// The digests of FIPS 180-4.
#[derive(Clone, Copy, Debug)]
pub struct Fips;

impl Digester for Fips {
    ghost sha256_digest = { λ _ octets. sha256_of octets };

    ghost sha1_digest = { λ _ octets. sha1_of octets };

    fn sha256(&self, octets: &[u8]) -> [u8; 32] {
        Sha256::digest(octets)
    }

    fn sha1(&self, octets: &[u8]) -> [u8; 20] {
        Sha1::digest(octets)
    }
}
