//! The octets of a string, one by one and in pieces.

ghost use Rattle.std.specs.Prelude.{◌≡◌, ℕ, List};
ghost use Rattle.std.specs.Iterator.{YieldsFirst, YieldsFirstRef, item_count};
ghost use Rattle.std.specs.List.{concat};

use crate::string::OctetString;
use std::marker::Model;

/// The octets of a string, in their order. Contracts see the list of those that are left.
#[derive(Debug, Drop)]
pub struct OctetStringOctets<'a> {
    octets: &'a [u8],
}

impl<'a> Model for OctetStringOctets<'a> {
    ghost use Rattle.std.specs.Prelude.{List, ℕ};

    ghost Value = { List ℕ };

    ghost view = { λ a. a.octets.now };
}

impl<'a> Iterator for OctetStringOctets<'a> {
    type Item = u8;

    ghost next_gives = { YieldsFirst (λ s. s) };

    ghost remaining = { item_count (λ s. s) };

    fn next(&mut self) -> Option<u8> {
        let (first, rest) = self.octets.split_first()?;
        self.octets = rest;
        Some(*first)
    }
}

/// The pieces of a string, in their order. Contracts see the list of those that are left.
#[derive(Debug, Drop)]
pub struct OctetStringIter<'a> {
    piece: Option<&'a [u8]>,
}

impl<'a> Model for OctetStringIter<'a> {
    ghost use Rattle.std.specs.Prelude.{List, ℕ};
    ghost use Rattle.bcder_octets.specs.Left.{pieces_left};

    ghost Value = { List (List ℕ) };

    ghost view = { λ a. pieces_left a.piece };
}

impl<'a> Iterator for OctetStringIter<'a> {
    type Item = &'a [u8];

    ghost next_gives = { YieldsFirstRef (λ s. s) };

    ghost remaining = { item_count (λ s. s) };

    fn next(&mut self) -> Option<&'a [u8]> {
        let piece = self.piece?;
        self.piece = None;
        Some(piece)
    }
}

impl OctetString {
    /// The octets, one by one.
    pub fn octets(&self) -> OctetStringOctets<'_>
        ensures { result ≡ self.now }
    {
        OctetStringOctets {
            octets: self.as_octets(),
        }
    }

    /// The octets, in pieces: joined they are the string.
    pub fn iter(&self) -> OctetStringIter<'_>
        ensures { concat result ≡ self.now }
    {
        OctetStringIter {
            piece: Some(self.as_octets()),
        }
    }
}
