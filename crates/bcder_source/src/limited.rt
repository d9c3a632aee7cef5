//! Sources of which some octets at most are read.
ghost use Rattle.std.specs.Prelude.{◌≡◌, ◌+◌, ◌-◌, ◌^◌, ◌<◌, ◌≤◌, [], ◌∷◌, length, take, drop, max, min, slice_range, IfOk, IfErr, OnOk, OnErr, Option, Some, None, IsSome};
ghost use Rattle.bcder_source.specs.Errors.{OnContent, OnlyContent, OnlyAtEnd, OnMemory};
ghost use Rattle.bcder_source.specs.Limits.{view, within, Narrows, at_hand, IsSpent, IsShort, HasAll};
ghost use Rattle.bcder_source.specs.Views.{Moved, NextOctet, octets_of, limited, left};

use crate::{ContentError, DecodeError, Pos, Source};
use bytes::Bytes;
use std::alloc::{AllocError, Global};

/// A source of which some octets at most are read.
///
/// What is read under the limit stood in front of the rest, and the limit falls by its length
/// (`Moved`).
#[derive(Drop)]
pub struct LimitedSource<S> {
    /// The source, past the limit too.
    pub source: S,
    /// How many octets may still be read, where there is a limit.
    pub limit: Option<usize>,
}

// The octets up to a limit.
fn up_to(octets: &[u8], limit: Option<usize>) -> &[u8]
    ensures { result.now ≡ limited limit octets.now }
{
    match limit {
        Some(limit) if limit < octets.len() => &octets[..limit],
        _ => octets,
    }
}

// How many octets the source is asked for, where so many are wanted: none past the limit.
fn asked(len: usize, limit: usize) -> usize
    ensures { result ≡ min len limit }
{
    len.min(limit)
}

impl<S> LimitedSource<S> {
    /// The source with no limit yet.
    pub fn new(source: S) -> LimitedSource<S>
        ensures { result ≡ record { source = source; limit = None } }
    {
        LimitedSource {
            source,
            limit: None,
        }
    }

    /// The source itself.
    pub fn unwrap(self) -> S
        ensures { result ≡ self.source }
    {
        self.source
    }

    /// The limit.
    pub fn limit(&self) -> Option<usize>
        ensures { result ≡ self.now.limit }
    {
        self.limit
    }

    /// Sets a limit that is no further than the current one, and answers that. No limit changes
    /// nothing.
    pub fn limit_further(&mut self, limit: Option<usize>) -> Option<usize>
        requires { Narrows limit self.old.limit }
        ensures old { result ≡ self.old.limit }
        ensures source { self.new.source ≡ self.old.source }
        ensures limit { self.new.limit ≡ within limit self.old.limit }
    {
        let old = self.limit;
        if limit.is_some() {
            self.limit = limit;
        }
        old
    }

    /// Sets the limit.
    pub fn set_limit(&mut self, limit: Option<usize>)
        ensures { self.new ≡ record { source = self.old.source; limit = limit } }
    {
        self.limit = limit;
    }
}

impl<S: Source> Source for LimitedSource<S> {
    type Error = S::Error;

    ghost rest = { λ s. limited s.limit (S.rest s.source) };

    ghost available = { λ s. at_hand s.limit (S.available s.source) };

    ghost position = { λ s. S.position s.source };

    ghost asked = { λ s. S.asked s.source };

    fn pos(&self) -> Pos {
        self.source.pos()
    }

    /// Asks the source for no octet past the limit.
    fn request(&mut self, len: usize) -> Result<usize, S::Error>
        ensures same { view S.rest self.new ≡ view S.rest self.old }
        ensures rest { left (view S.rest self.new) ≡ left (view S.rest self.old) }
        ensures position { S.position self.new.source ≡ S.position self.old.source }
        ensures kept { at_hand self.old.limit (S.available self.old.source)
            ≤ at_hand self.new.limit (S.available self.new.source) }
        ensures available { IfOk result
            (λ n. n ≡ at_hand self.new.limit (S.available self.new.source)) }
        ensures there { IfOk result (λ n. n ≤ length (left (view S.rest self.new))) }
        ensures bound { IfOk result (λ n. n < 2 ^ 63) }
        ensures enough { IfOk result (λ n. n < len → n ≡ length (left (view S.rest self.new))) }
        ensures asked { S.asked self.new.source ≤ max (S.asked self.old.source) len }
        ensures within { S.asked self.new.source
            ≤ max (S.asked self.old.source) (at_hand self.old.limit len) }
    {
        let Some(limit) = self.limit else {
            return self.source.request(len);
        };
        let count = self.source.request(asked(len, limit))?;
        Ok(count.min(limit))
    }

    fn slice(&self) -> &[u8] {
        up_to(self.source.slice(), self.limit)
    }

    fn bytes(&self, alloc: Global, start: usize, end: usize) -> Result<Bytes, AllocError> {
        self.source.bytes(alloc, start, end)
    }

    /// The limit falls with the rest.
    fn advance(&mut self, len: usize)
        requires { len ≤ at_hand self.old.limit (S.available self.old.source) }
        ensures there { len ≤ length (left (view S.rest self.old)) }
        ensures moved { Moved (view S.rest self.old) (take len (S.rest self.old.source))
            (view S.rest self.new) }
        ensures rest { left (view S.rest self.new) ≡ drop len (left (view S.rest self.old)) }
        ensures position { S.position self.new.source
            ≡ min (S.position self.old.source + len) (2 ^ 64 - 1) }
        ensures available { at_hand self.new.limit (S.available self.new.source)
            ≡ at_hand self.old.limit (S.available self.old.source) - len }
    {
        let Some(limit) = self.limit else {
            self.source.advance(len);
            return;
        };
        self.limit = Some(limit - len);
        self.source.advance(len);
    }

    /// The default's steps; what they consume obeys the law of reading.
    fn skip(&mut self, len: usize) -> Result<usize, S::Error>
        ensures bound { IfOk result (λ n. n ≤ len) }
        ensures there { IfOk result (λ n. n ≤ length (left (view S.rest self.old))) }
        ensures moved { IfOk result (λ n. Moved (view S.rest self.old)
            (take n (S.rest self.old.source)) (view S.rest self.new)) }
        ensures rest { IfOk result
            (λ n. left (view S.rest self.new) ≡ drop n (left (view S.rest self.old))) }
        ensures short { IfOk result (λ n. n < len → left (view S.rest self.new) ≡ []) }
        ensures same { OnErr result (view S.rest self.new ≡ view S.rest self.old) }
        ensures failed { OnErr result (left (view S.rest self.new) ≡ left (view S.rest self.old)) }
    {
        let count = self.request(len)?;
        let count = count.min(len);
        self.advance(count);
        Ok(count)
    }

    /// The default's steps; what they consume obeys the law of reading.
    fn take_opt_u8(&mut self) -> Result<Option<u8>, S::Error>
        ensures moved { IfOk result
            (λ octet. Moved (view S.rest self.old) (octets_of octet) (view S.rest self.new)) }
        ensures taken { IfOk result
            (λ octet. NextOctet octet (left (view S.rest self.old)) (left (view S.rest self.new))) }
        ensures same { OnErr result (view S.rest self.new ≡ view S.rest self.old) }
        ensures failed { OnErr result (left (view S.rest self.new) ≡ left (view S.rest self.old)) }
    {
        self.request(1)?;
        let Some(octet) = (*self).slice().first() else {
            return Ok(None);
        };
        let octet = *octet;
        self.advance(1);
        Ok(Some(octet))
    }

    /// The default's steps; what they consume obeys the law of reading.
    fn take_u8(&mut self) -> Result<u8, DecodeError<S::Error>>
        ensures moved { IfOk result
            (λ octet. Moved (view S.rest self.old) (octet ∷ []) (view S.rest self.new)) }
        ensures taken { IfOk result
            (λ octet. left (view S.rest self.old) ≡ octet ∷ left (view S.rest self.new)) }
        ensures refused { IfErr result (λ e. OnlyAtEnd e (left (view S.rest self.old))) }
        ensures same { OnErr result (view S.rest self.new ≡ view S.rest self.old) }
        ensures failed { OnErr result (left (view S.rest self.new) ≡ left (view S.rest self.old)) }
    {
        match self.take_opt_u8() {
            Ok(Some(octet)) => Ok(octet),
            Ok(None) => Err(
                (*self).content_err(ContentError::from_static("unexpected end of data")),
            ),
            Err(error) => Err(DecodeError::Source(error)),
        }
    }
}

// Has all octets of a source at hand, and answers how many they are.
fn request_all<S: Source>(source: &mut S) -> Result<usize, S::Error>
    ensures rest { S.rest source.new ≡ S.rest source.old }
    ensures all { IfOk result (λ n. n ≡ length (S.rest source.new)) }
    ensures available { IfOk result (λ n. n ≡ S.available source.new) }
{
    let mut have = 0;
    loop {
        let count = source.request(have + 1)?;
        if count <= have {
            return Ok(count);
        }
        have = count;
    }
}

// Takes all octets of a source.
fn advance_all<S: Source>(source: &mut S) -> Result<(), S::Error>
    ensures { OnOk result (S.rest source.new ≡ []) }
{
    loop {
        let count = source.request(1)?;
        if count == 0 {
            return Ok(());
        }
        source.advance(count);
    }
}

impl<S: Source> LimitedSource<S> {
    /// Takes all octets up to the limit; where there is none, to the end of the source.
    ///
    /// The content is refused where the source ends before the limit.
    pub fn skip_all(&mut self) -> Result<(), DecodeError<S::Error>>
        ensures moved { OnOk result
            (Moved (view S.rest self.old) (left (view S.rest self.old)) (view S.rest self.new)) }
        ensures spent { OnOk result (IsSpent self.new.limit (S.rest self.new.source)) }
        ensures refused { IfErr result
            (λ e. OnlyContent e (IsShort self.old.limit (S.rest self.old.source))) }
    {
        let Some(limit) = self.limit else {
            return match advance_all(&mut self.source) {
                Ok(()) => Ok(()),
                Err(error) => Err(DecodeError::Source(error)),
            };
        };
        match self.request(limit) {
            Ok(count) if count < limit => Err(
                (*self).content_err(ContentError::from_static("unexpected end of data")),
            ),
            Ok(_) => {
                self.advance(limit);
                Ok(())
            }
            Err(error) => Err(DecodeError::Source(error)),
        }
    }

    /// Takes all octets up to the limit, or to the end of the source, and answers them.
    ///
    /// The content is refused where the source ends before the limit. Memory is wanted only where it
    /// doesn't, and something is to be taken.
    #[inline(always)]
    pub fn take_all(&mut self, alloc: Global) -> Result<Bytes, DecodeError<S::Error>>
        ensures octets { IfOk result (λ b. b ≡ left (view S.rest self.old)) }
        ensures moved { IfOk result (λ b. Moved (view S.rest self.old) b (view S.rest self.new)) }
        ensures spent { OnOk result (IsSpent self.new.limit (S.rest self.new.source)) }
        ensures refused { IfErr result
            (λ e. OnContent e (IsShort self.old.limit (S.rest self.old.source))) }
        ensures memory { IfErr result
            (λ e. OnMemory e (HasAll self.old.limit (S.rest self.old.source))) }
    {
        let count = self.all()?;
        let octets = self.front(alloc, count)?;
        self.advance(count);
        Ok(octets)
    }

    // The first octets, which are at hand. Where there are none no memory is wanted.
    #[inline(always)]
    fn front(&self, alloc: Global, count: usize) -> Result<Bytes, AllocError>
        requires { count ≤ at_hand self.now.limit (S.available self.now.source) }
        ensures octets { IfOk result (λ b. b ≡ slice_range (S.rest self.now.source) 0 count) }
        ensures some { OnErr result (1 ≤ count) }
    {
        if count == 0 {
            return Ok(Bytes::new());
        }
        self.source.bytes(alloc, 0, count)
    }

    // Has all octets up to the limit at hand, and answers how many they are.
    #[inline(always)]
    fn all(&mut self) -> Result<usize, DecodeError<S::Error>>
        ensures same { view S.rest self.new ≡ view S.rest self.old }
        ensures all { IfOk result (λ n. n ≡ length (left (view S.rest self.new))) }
        ensures limit { IfOk result (λ n. IsSome self.old.limit → self.old.limit ≡ Some n) }
        ensures available { IfOk result
            (λ n. n ≡ at_hand self.new.limit (S.available self.new.source)) }
        ensures refused { IfErr result
            (λ e. OnlyContent e (IsShort self.old.limit (S.rest self.old.source))) }
    {
        let Some(limit) = self.limit else {
            return match request_all(&mut self.source) {
                Ok(count) => Ok(count),
                Err(error) => Err(DecodeError::Source(error)),
            };
        };
        match self.request(limit) {
            Ok(count) if count < limit => Err(
                (*self).content_err(ContentError::from_static("unexpected end of data")),
            ),
            Ok(count) => Ok(count),
            Err(error) => Err(DecodeError::Source(error)),
        }
    }

    /// Whether nothing may be read any more; the content is refused where something may.
    pub fn exhausted(&mut self) -> Result<(), DecodeError<S::Error>>
        ensures same { view S.rest self.new ≡ view S.rest self.old }
        ensures ended { OnOk result (IsSpent self.old.limit (S.rest self.old.source)) }
        ensures refused { IfErr result
            (λ e. OnlyContent e (IsSpent self.old.limit (S.rest self.old.source) → ⊥)) }
    {
        if let Some(limit) = self.limit {
            if limit == 0 {
                return Ok(());
            }
            return Err((*self).content_err(ContentError::from_static("trailing data")));
        }
        match self.source.request(1) {
            Ok(0) => Ok(()),
            Ok(_) => Err((*self).content_err(ContentError::from_static("trailing data"))),
            Err(error) => Err(DecodeError::Source(error)),
        }
    }
}
