//! Strings of bits.
ghost use Rattle.std.specs.Prelude.{◌≡◌, ◌-◌, ◌*◌, ◌^◌, ◌<◌, false, length, min, slice_get, unwrap_or, IfOk, IsSomeAnd};
ghost use Rattle.std.specs.Iterator.{YieldsFirstBy, item_count};
ghost use Rattle.bcder_octets.specs.Bits.{BitsValue, IsBits, bits};

use bytes::Bytes;
use std::alloc::AllocError;
use std::marker::Model;

/// A string of bits (X.690 8.6), given by octets of eight bits each, the first bit the highest, and by how
/// many bits of the last octet are unused. Contracts see both.
///
/// Two are equal where their octets are, the unused bits included, and as many bits are unused.
#[derive(Debug, PartialEq, Eq, Drop)]
pub struct BitString {
    unused: u8,
    octets: Bytes,
}

impl Model for BitString {
    ghost use Rattle.bcder_octets.specs.Bits.{BitsValue, IsBits};

    ghost Value = { BitsValue };

    ghost view = { λ a. record { unused = a.unused; octets = a.octets } };

    ghost invariant = { λ a. IsBits (record { unused = a.unused; octets = a.octets }) };

    ghost inverse = { λ v. record { unused = v.unused; octets = v.octets } };
}

impl BitString {
    /// The bits of the octets, but for the last few, which are unused: from 0 to 7, and none where there is
    /// no octet.
    pub fn new(unused: u8, octets: Bytes) -> Self
        requires { IsBits (record { unused = unused; octets = octets }) }
        ensures { result ≡ record { unused = unused; octets = octets } }
    {
        BitString { unused, octets }
    }

    // How many bits there are, however many.
    fn count(&self) -> u128
        ensures bits { result ≡ length (bits self.now) }
        ensures octets { result ≡ 8 * length self.now.octets - self.now.unused }
    {
        self.octets.len() as u128 * 8 - u128::from(self.unused)
    }

    /// Whether the bit is set, counted from 0; false where there are no more bits.
    pub fn bit(&self, index: usize) -> bool
        ensures { result ≡ unwrap_or (slice_get (bits self.now) index) false }
    {
        if index as u128 >= self.count() {
            return false;
        }
        let octet = self.octets.as_slice()[index / 8];
        (octet >> (7 - index % 8)) % 2 == 1
    }

    /// How many bits there are; `usize::MAX` where they are more.
    pub fn bit_len(&self) -> usize
        ensures { result ≡ min (length (bits self.now)) (2 ^ 64 - 1) }
    {
        let count = self.count();
        if count > usize::MAX as u128 {
            return usize::MAX;
        }
        count as usize
    }

    /// How many bits of the last octet are unused.
    pub fn unused(&self) -> u8
        ensures value { result ≡ self.now.unused }
        ensures lawful { IsBits self.now }
    {
        self.unused
    }

    /// The octet at that place.
    pub fn octet(&self, index: usize) -> u8
        requires { index < length self.now.octets }
        ensures { slice_get self.now.octets index ≡ Some result }
    {
        self.octets.as_slice()[index]
    }

    /// How many octets there are.
    pub fn octet_len(&self) -> usize
        ensures { result ≡ length self.now.octets }
    {
        self.octets.len()
    }

    /// The octets, one by one.
    pub fn octets(&self) -> BitStringIter<'_>
        ensures { result ≡ self.now.octets }
    {
        BitStringIter {
            octets: self.octets.as_slice(),
        }
    }

    // The octets.
    pub(crate) fn as_slice(&self) -> &[u8]
        ensures { result.now ≡ self.now.octets }
    {
        self.octets.as_slice()
    }

    /// The octets, which lie in one piece.
    pub fn octet_slice(&self) -> Option<&[u8]>
        ensures { IsSomeAnd result (λ octets. octets.now ≡ self.now.octets) }
    {
        Some(self.octets.as_slice())
    }

    /// The octets, to keep; none is copied.
    pub fn octet_bytes(&self) -> Result<Bytes, AllocError>
        ensures { IfOk result (λ octets. octets ≡ self.now.octets) }
    {
        self.octets.clone()
    }
}

impl Clone for BitString {
    ghost is_clone = { λ bits copy. copy ≡ bits };

    /// A clone has equal bits; no octet is copied.
    fn clone(&self) -> Result<Self, AllocError> {
        Ok(BitString {
            unused: self.unused,
            octets: self.octets.clone()?,
        })
    }
}

/// The octets of a bit string, one by one. Contracts see those that are left.
#[derive(Debug, Drop)]
pub struct BitStringIter<'a> {
    octets: &'a [u8],
}

impl<'a> Model for BitStringIter<'a> {
    ghost use Rattle.std.specs.Prelude.{List, ℕ};

    ghost Value = { List ℕ };

    ghost view = { λ a. a.octets.now };
}

impl<'a> Iterator for BitStringIter<'a> {
    type Item = u8;

    ghost next_gives = { YieldsFirstBy (λ octet. octet) (λ octets. octets) };

    ghost remaining = { item_count (λ octets. octets) };

    fn next(&mut self) -> Option<u8> {
        let (first, behind) = self.octets.split_first()?;
        self.octets = behind;
        Some(*first)
    }
}
