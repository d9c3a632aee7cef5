//! Sources over octets in memory.
ghost use Rattle.std.specs.Prelude.{◌≡◌, ◌==◌, ◌+◌, ◌-◌, ◌^◌, ◌<◌, ◌≤◌, length, take, drop, min, IfOk, OnOk, OnErr};
ghost use Rattle.bcder_source.specs.Views.{Reading};

use crate::{IntoSource, Pos, Source};
use bytes::Bytes;
use std::alloc::{AllocError, Global};
use std::convert::Infallible;
use std::marker::Model;

/// Shared octets as a source: what is cut off it isn't copied.
///
/// A clause sees the octets that are left, and the position.
#[derive(Drop)]
pub struct BytesSource {
    octets: Bytes,
    pos: Pos,
}

impl Model for BytesSource {
    ghost use Rattle.bcder_source.specs.Views.{Reading};

    ghost Value = { Reading };

    ghost view = { λ a. record { rest = a.octets; position = a.pos } };
}

impl BytesSource {
    /// The source of these octets.
    pub fn new(octets: Bytes) -> BytesSource
        ensures { result ≡ record { rest = octets; position = 0 } }
    {
        BytesSource {
            octets,
            pos: Pos::from(0),
        }
    }

    /// The source of these octets, whose positions begin at `offset`.
    pub fn with_offset(octets: Bytes, offset: Pos) -> BytesSource
        ensures { result ≡ record { rest = octets; position = offset } }
    {
        BytesSource {
            octets,
            pos: offset,
        }
    }

    /// How many octets are left.
    pub fn len(&self) -> usize
        ensures { result ≡ length self.now.rest }
    {
        self.octets.len()
    }

    /// Whether no octet is left.
    pub fn is_empty(&self) -> bool
        ensures { result ≡ (length self.now.rest == 0) }
    {
        self.octets.is_empty()
    }

    /// Cuts off the first `len` octets as a source of their own; nothing is copied.
    ///
    /// A refusal changes nothing.
    pub fn split_to(&mut self, len: usize) -> Result<BytesSource, AllocError>
        requires { len ≤ length self.old.rest }
        ensures front { IfOk result (λ front. front
            ≡ record { rest = take len self.old.rest; position = self.old.position }) }
        ensures rest { OnOk result (self.new.rest ≡ drop len self.old.rest) }
        ensures position { OnOk result
            (self.new.position ≡ min (self.old.position + len) (2 ^ 64 - 1)) }
        ensures refused { OnErr result (self.new ≡ self.old) }
    {
        let octets = self.octets.split_to(len)?;
        let pos = self.pos;
        self.pos = pos + Pos::from(len);
        Ok(BytesSource { octets, pos })
    }

    /// The octets that are left.
    pub fn into_bytes(self) -> Bytes
        ensures { result ≡ self.rest }
    {
        self.octets
    }
}

impl Source for BytesSource {
    type Error = Infallible;

    ghost rest = { λ s. s.rest };

    ghost available = { λ s. length s.rest };

    ghost position = { λ s. s.position };

    // All octets are in memory.
    ghost asked = { λ s. 0 };

    fn pos(&self) -> Pos {
        self.pos
    }

    fn request(&mut self, len: usize) -> Result<usize, Infallible> {
        Ok(self.octets.len())
    }

    fn slice(&self) -> &[u8] {
        self.octets.as_slice()
    }

    fn bytes(&self, alloc: Global, start: usize, end: usize) -> Result<Bytes, AllocError> {
        self.octets.slice(start..end)
    }

    fn advance(&mut self, len: usize) {
        self.pos = self.pos + Pos::from(len);
        self.octets.advance(len);
    }
}

/// A slice as a source.
///
/// A clause sees the octets that are left, and the position.
#[derive(Drop)]
pub struct SliceSource<'a> {
    octets: &'a [u8],
    pos: Pos,
}

impl<'a> Model for SliceSource<'a> {
    ghost use Rattle.bcder_source.specs.Views.{Reading};

    ghost Value = { Reading };

    ghost view = { λ a. record { rest = a.octets.now; position = a.pos } };
}

impl<'a> SliceSource<'a> {
    /// The source of these octets.
    pub fn new(octets: &'a [u8]) -> SliceSource<'a>
        ensures { result ≡ record { rest = octets.now; position = 0 } }
    {
        SliceSource {
            octets,
            pos: Pos::from(0),
        }
    }

    /// How many octets are left.
    pub fn len(&self) -> usize
        ensures { result ≡ length self.now.rest }
    {
        self.octets.len()
    }

    /// Whether no octet is left.
    pub fn is_empty(&self) -> bool
        ensures { result ≡ (length self.now.rest == 0) }
    {
        self.octets.is_empty()
    }

    /// Cuts off the first `len` octets as a source of their own.
    pub fn split_to(&mut self, len: usize) -> SliceSource<'a>
        requires { len ≤ length self.old.rest }
        ensures front { result
            ≡ record { rest = take len self.old.rest; position = self.old.position } }
        ensures rest { self.new.rest ≡ drop len self.old.rest }
        ensures position { self.new.position ≡ min (self.old.position + len) (2 ^ 64 - 1) }
    {
        let (octets, rest) = self.octets.split_at(len);
        let pos = self.pos;
        self.octets = rest;
        self.pos = pos + Pos::from(len);
        SliceSource { octets, pos }
    }
}

impl<'a> Source for SliceSource<'a> {
    type Error = Infallible;

    ghost rest = { λ s. s.rest };

    ghost available = { λ s. length s.rest };

    ghost position = { λ s. s.position };

    // All octets are in memory.
    ghost asked = { λ s. 0 };

    fn pos(&self) -> Pos {
        self.pos
    }

    fn request(&mut self, len: usize) -> Result<usize, Infallible> {
        Ok(self.octets.len())
    }

    fn slice(&self) -> &[u8] {
        self.octets
    }

    fn bytes(&self, alloc: Global, start: usize, end: usize) -> Result<Bytes, AllocError> {
        Bytes::copy_from_slice(alloc, &self.octets[start..end])
    }

    fn advance(&mut self, len: usize) {
        self.pos = self.pos + Pos::from(len);
        self.octets = &self.octets[len..];
    }
}

impl<T: Source> IntoSource for T {
    type Source = T;

    ghost octets = { λ s. T.rest s };

    fn into_source(self) -> T {
        self
    }
}

impl IntoSource for Bytes {
    type Source = BytesSource;

    ghost octets = { λ octets. octets };

    fn into_source(self) -> BytesSource {
        BytesSource::new(self)
    }
}

impl<'a> IntoSource for &'a [u8] {
    type Source = SliceSource<'a>;

    ghost octets = { λ octets. octets.now };

    fn into_source(self) -> SliceSource<'a> {
        SliceSource::new(self)
    }
}
