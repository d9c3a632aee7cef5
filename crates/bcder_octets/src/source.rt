//! Strings as sources.

ghost use Rattle.std.specs.Prelude.{◌≡◌, length};

use crate::bcder_source::{BytesSource, IntoSource, Pos, Source};
use crate::string::OctetString;
use bytes::Bytes;
use std::alloc::{AllocError, Global};
use std::convert::Infallible;
use std::marker::Model;

/// The octets of a string as a source: what is cut off it isn't copied.
///
/// A clause sees the octets that are left, and the position.
#[derive(Drop)]
pub struct OctetStringSource {
    octets: BytesSource,
}

impl Model for OctetStringSource {
    ghost use Rattle.bcder_octets.specs.bcder_source.Views.{Reading};

    ghost Value = { Reading };

    ghost view = { λ a. a.octets };
}

impl OctetStringSource {
    /// The octets of the string, from the first on.
    pub fn new(string: OctetString) -> OctetStringSource
        ensures { result ≡ record { rest = string; position = 0 } }
    {
        OctetStringSource {
            octets: BytesSource::new(string.into_bytes()),
        }
    }
}

impl Source for OctetStringSource {
    type Error = Infallible;

    ghost rest = { λ s. s.rest };

    ghost available = { λ s. length s.rest };

    ghost position = { λ s. s.position };

    // All octets are in memory.
    ghost asked = { λ s. 0 };

    fn pos(&self) -> Pos {
        self.octets.pos()
    }

    fn request(&mut self, len: usize) -> Result<usize, Infallible> {
        self.octets.request(len)
    }

    fn slice(&self) -> &[u8] {
        self.octets.slice()
    }

    fn bytes(&self, alloc: Global, start: usize, end: usize) -> Result<Bytes, AllocError> {
        self.octets.bytes(alloc, start, end)
    }

    fn advance(&mut self, len: usize) {
        self.octets.advance(len);
    }
}

impl IntoSource for OctetString {
    type Source = OctetStringSource;

    ghost octets = { λ string. string };

    fn into_source(self) -> OctetStringSource {
        OctetStringSource::new(self)
    }
}
