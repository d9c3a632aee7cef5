//! A source that keeps what is taken from it.
ghost use Rattle.std.specs.Prelude.{◌≡◌, ◌+◌, ◌-◌, ◌^◌, ◌<◌, ◌≤◌, [], ◌∷◌, length, take, drop, max, min, IfOk, IfErr, OnOk, OnErr};
ghost use Rattle.bcder_source.specs.Errors.{OnlyAtEnd};
ghost use Rattle.bcder_source.specs.Views.{NextOctet, octets_of};

use crate::{ContentError, DecodeError, Pos, Source};
use bytes::Bytes;
use std::alloc::{AllocError, Global};

/// A source over another that keeps what is taken from it, until `into_bytes` hands it out.
///
/// The octets that were taken stay in front of the other source's rest until then.
#[derive(Drop)]
pub struct CaptureSource<'a, S: Source> {
    /// The other source, from the first captured octet on.
    pub source: &'a mut S,
    /// How many octets were captured.
    pub len: usize,
    ghost held: { len ≤ S.available source.now },
}

impl<'a, S: Source> CaptureSource<'a, S> {
    /// Nothing is captured yet.
    pub fn new(source: &'a mut S) -> CaptureSource<'a, S>
        ensures same_reference { result.source.ghost_name ≡ source.entry.ghost_name }
        ensures source { result.source.now ≡ source.old }
        ensures len { result.len ≡ 0 }
    {
        CaptureSource { source, len: 0 }
    }

    /// Hands out the captured octets, and takes them from the other source; from then on nothing is
    /// captured. This may want memory; a refusal changes nothing.
    pub fn into_bytes(&mut self, alloc: Global) -> Result<Bytes, AllocError>
        ensures same_reference { self.new.source.ghost_name ≡ self.old.source.ghost_name }
        ensures octets { IfOk result (λ b. b ≡ take self.old.len (S.rest self.old.source.now)) }
        ensures rest { OnOk result
            (S.rest self.new.source.now ≡ drop self.old.len (S.rest self.old.source.now)) }
        ensures len { OnOk result (self.new.len ≡ 0) }
        ensures source_kept { OnErr result (self.new.source.now ≡ self.old.source.now) }
        ensures len_kept { OnErr result (self.new.len ≡ self.old.len) }
    {
        let len = self.len;
        let octets = (*self.source).bytes(alloc, 0, len)?;
        self.len = 0;
        self.source.advance(len);
        Ok(octets)
    }

    /// Takes the captured octets from the other source, and drops them; from then on nothing is
    /// captured.
    pub fn skip(&mut self)
        ensures same_reference { self.new.source.ghost_name ≡ self.old.source.ghost_name }
        ensures rest { S.rest self.new.source.now ≡ drop self.old.len (S.rest self.old.source.now) }
        ensures len { self.new.len ≡ 0 }
    {
        let len = self.len;
        self.len = 0;
        self.source.advance(len);
    }
}

impl<'a, S: Source> Source for CaptureSource<'a, S> {
    type Error = S::Error;

    ghost rest = { λ s. drop s.len (S.rest s.source.now) };

    ghost available = { λ s. S.available s.source.now - s.len };

    ghost position = { λ s. min (S.position s.source.now + s.len) (2 ^ 64 - 1) };

    ghost asked = { λ s. S.asked s.source.now - s.len };

    fn pos(&self) -> Pos {
        (*self.source).pos() + Pos::from(self.len)
    }

    fn request(&mut self, len: usize) -> Result<usize, S::Error>
        ensures same_reference { self.new.source.ghost_name ≡ self.old.source.ghost_name }
        ensures source { S.rest self.new.source.now ≡ S.rest self.old.source.now }
        ensures len { self.new.len ≡ self.old.len }
        ensures position { S.position self.new.source.now ≡ S.position self.old.source.now }
        ensures rest { drop self.new.len (S.rest self.new.source.now)
            ≡ drop self.old.len (S.rest self.old.source.now) }
        ensures position_kept { min (S.position self.new.source.now + self.new.len) (2 ^ 64 - 1)
            ≡ min (S.position self.old.source.now + self.old.len) (2 ^ 64 - 1) }
        ensures kept { S.available self.old.source.now - self.old.len
            ≤ S.available self.new.source.now - self.new.len }
        ensures available { IfOk result (λ n. n ≡ S.available self.new.source.now - self.new.len) }
        ensures there { IfOk result
            (λ n. n ≤ length (drop self.new.len (S.rest self.new.source.now))) }
        ensures bound { IfOk result (λ n. n < 2 ^ 63) }
        ensures enough { IfOk result
            (λ n. n < len → n ≡ length (drop self.new.len (S.rest self.new.source.now))) }
        ensures asked { S.asked self.new.source.now - self.new.len
            ≤ max (S.asked self.old.source.now - self.old.len) len }
    {
        let count = self.source.request(self.len.saturating_add(len))?;
        Ok(count - self.len)
    }

    fn slice(&self) -> &[u8] {
        &(*self.source).slice()[self.len..]
    }

    fn bytes(&self, alloc: Global, start: usize, end: usize) -> Result<Bytes, AllocError> {
        // Their count fits, so the sums do.
        let _ = (*self.source).slice().len();
        (*self.source).bytes(alloc, self.len + start, self.len + end)
    }

    /// The octets are captured.
    fn advance(&mut self, len: usize)
        requires { len ≤ S.available self.old.source.now - self.old.len }
        ensures same_reference { self.new.source.ghost_name ≡ self.old.source.ghost_name }
        ensures source { self.new.source.now ≡ self.old.source.now }
        ensures len { self.new.len ≡ self.old.len + len }
        ensures there { len ≤ length (drop self.old.len (S.rest self.old.source.now)) }
        ensures rest { drop self.new.len (S.rest self.new.source.now)
            ≡ drop len (drop self.old.len (S.rest self.old.source.now)) }
        ensures position { min (S.position self.new.source.now + self.new.len) (2 ^ 64 - 1)
            ≡ min (min (S.position self.old.source.now + self.old.len) (2 ^ 64 - 1) + len)
            (2 ^ 64 - 1) }
        ensures available { S.available self.new.source.now - self.new.len
            ≡ S.available self.old.source.now - self.old.len - len }
    {
        // Their count fits, so the sum does.
        let _ = (*self.source).slice().len();
        self.len += len;
    }

    /// The default's steps; what they take is captured.
    fn skip(&mut self, len: usize) -> Result<usize, S::Error>
        ensures same_reference { self.new.source.ghost_name ≡ self.old.source.ghost_name }
        ensures source { S.rest self.new.source.now ≡ S.rest self.old.source.now }
        ensures len { IfOk result (λ n. self.new.len ≡ self.old.len + n) }
        ensures len_kept { OnErr result (self.new.len ≡ self.old.len) }
        ensures bound { IfOk result (λ n. n ≤ len) }
        ensures there { IfOk result
            (λ n. n ≤ length (drop self.old.len (S.rest self.old.source.now))) }
        ensures rest { IfOk result (λ n. drop self.new.len (S.rest self.new.source.now)
            ≡ drop n (drop self.old.len (S.rest self.old.source.now))) }
        ensures short { IfOk result
            (λ n. n < len → drop self.new.len (S.rest self.new.source.now) ≡ []) }
        ensures failed { OnErr result
            (drop self.new.len (S.rest self.new.source.now)
            ≡ drop self.old.len (S.rest self.old.source.now)) }
    {
        let count = self.request(len)?;
        let count = count.min(len);
        self.advance(count);
        Ok(count)
    }

    /// The default's steps; what they take is captured.
    fn take_opt_u8(&mut self) -> Result<Option<u8>, S::Error>
        ensures same_reference { self.new.source.ghost_name ≡ self.old.source.ghost_name }
        ensures source { S.rest self.new.source.now ≡ S.rest self.old.source.now }
        ensures len { IfOk result
            (λ octet. self.new.len ≡ self.old.len + length (octets_of octet)) }
        ensures len_kept { OnErr result (self.new.len ≡ self.old.len) }
        ensures taken { IfOk result (λ octet. NextOctet octet
            (drop self.old.len (S.rest self.old.source.now))
            (drop self.new.len (S.rest self.new.source.now))) }
        ensures failed { OnErr result
            (drop self.new.len (S.rest self.new.source.now)
            ≡ drop self.old.len (S.rest self.old.source.now)) }
    {
        self.request(1)?;
        let Some(octet) = (*self).slice().first() else {
            return Ok(None);
        };
        let octet = *octet;
        self.advance(1);
        Ok(Some(octet))
    }

    /// The default's steps; what they take is captured.
    fn take_u8(&mut self) -> Result<u8, DecodeError<S::Error>>
        ensures same_reference { self.new.source.ghost_name ≡ self.old.source.ghost_name }
        ensures source { S.rest self.new.source.now ≡ S.rest self.old.source.now }
        ensures len { OnOk result (self.new.len ≡ self.old.len + 1) }
        ensures len_kept { OnErr result (self.new.len ≡ self.old.len) }
        ensures taken { IfOk result (λ octet. drop self.old.len (S.rest self.old.source.now)
            ≡ octet ∷ drop self.new.len (S.rest self.new.source.now)) }
        ensures refused { IfErr result
            (λ e. OnlyAtEnd e (drop self.old.len (S.rest self.old.source.now))) }
        ensures failed { OnErr result
            (drop self.new.len (S.rest self.new.source.now)
            ≡ drop self.old.len (S.rest self.old.source.now)) }
    {
        match self.take_opt_u8() {
            Ok(Some(octet)) => Ok(octet),
            Ok(None) => Err(
                (*self).content_err(ContentError::from_static("unexpected end of data")),
            ),
            Err(error) => Err(DecodeError::Source(error)),
        }
    }
}
