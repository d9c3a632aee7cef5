//! Digests in words, as they are read.
//!
//! The codec's steps hand on what they read in `Result`s. There LLVM moves a `[u8; 32]` in pieces of a few octets, and
//! words one by one.

ghost use Rattle.std.specs.Prelude.{◌≡◌, ◌+◌, ◌≤◌, length, take, drop};
ghost use Rattle.std.specs.Int.{to_le_bytes, w64};
ghost use Rattle.rpki_bundle.specs.Words.{octets_of, verdict_of};

use crate::Verdict;

/// A digest, in words.
#[derive(Clone, Copy, Debug, PartialEq, Eq)]
pub struct DigestWords {
    /// Octets 0 to 7.
    pub first: u64,
    /// Octets 8 to 15.
    pub second: u64,
    /// Octets 16 to 23.
    pub third: u64,
    /// Octets 24 to 31.
    pub fourth: u64,
}

/// A verdict, in words.
#[derive(Clone, Copy, Debug, PartialEq, Eq)]
pub struct VerdictWords {
    /// The digest of the encoded key.
    pub key: DigestWords,
    /// The digest of the message.
    pub message: DigestWords,
    /// The digest of the signature's octets.
    pub signature: DigestWords,
}

// The word of eight octets of a digest.
#[inline(always)]
fn word(digest: &[u8], start: usize) -> u64
    requires { start + 8 ≤ length digest.now }
    ensures { to_le_bytes w64 result ≡ take 8 (drop start digest.now) }
{
    match digest[start..].first_chunk() {
        Some(octets) => u64::from_le_bytes(*octets),
        None => unreachable!(),
    }
}

impl DigestWords {
    /// The words of a digest, of 32 octets.
    #[inline(always)]
    pub fn of(digest: &[u8]) -> DigestWords
        requires { length digest.now ≡ 32 }
        ensures { octets_of result ≡ digest.now }
    {
        DigestWords {
            first: word(digest, 0),
            second: word(digest, 8),
            third: word(digest, 16),
            fourth: word(digest, 24),
        }
    }

    /// The digest.
    #[inline(always)]
    pub fn octets(self) -> [u8; 32]
        ensures { result ≡ octets_of self }
    {
        let words = [
            self.first.to_le_bytes(),
            self.second.to_le_bytes(),
            self.third.to_le_bytes(),
            self.fourth.to_le_bytes(),
        ];
        match <[u8; 32]>::try_from(words.as_flattened()) {
            Ok(octets) => octets,
            Err(_) => unreachable!(),
        }
    }
}

impl VerdictWords {
    /// The verdict.
    #[inline(always)]
    pub fn verdict(self) -> Verdict
        ensures { result ≡ verdict_of self }
    {
        Verdict {
            key: self.key.octets(),
            message: self.message.octets(),
            signature: self.signature.octets(),
        }
    }
}
