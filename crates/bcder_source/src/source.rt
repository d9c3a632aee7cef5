//! Sources of octets.
ghost use Rattle.std.specs.Prelude.{◌≡◌, ◌+◌, ◌-◌, ◌^◌, ◌<◌, ◌≤◌, ℕ, List, [], ◌∷◌, length, take, drop, max, min, slice_range, IfOk, IfErr, OnErr};
ghost use Rattle.bcder_source.specs.Errors.{OnlyAtEnd};
ghost use Rattle.bcder_source.specs.Views.{NextOctet};
ghost use Rattle.bcder_source.specs.declared.error.DecodeError.TheVariants.{Content as content_error};

use crate::{ContentError, DecodeError, Pos};
use bytes::Bytes;
use std::alloc::{AllocError, Global};
use std::error::Error;

/// Octets that are asked for piece by piece.
///
/// `rest` are the octets that were not taken yet, `available` how many of them lie at hand, and
/// `position` how many were taken before: a position is for diagnostics alone. `asked` is a count of
/// octets from the next one on, which a request for `len` raises to `len` at most: a source that waits for others can
/// count by it what it was asked for, and one whose octets are all in memory says 0.
pub trait Source: Drop {
    /// How the source itself fails.
    type Error: Error;

    ghost rest: { Self → List ℕ };

    ghost available: { Self → ℕ };

    ghost position: { Self → ℕ };

    ghost asked: { Self → ℕ };

    /// How many octets were taken.
    fn pos(&self) -> Pos
        ensures { result ≡ position self.now };

    /// Has at least `len` octets at hand, and answers how many are: fewer only where no more are left.
    ///
    /// It changes neither the rest nor the position, whether it fails or not, and what is at hand stays so.
    fn request(&mut self, len: usize) -> Result<usize, Self::Error>
        ensures rest { rest self.new ≡ rest self.old }
        ensures position { position self.new ≡ position self.old }
        ensures kept { available self.old ≤ available self.new }
        ensures available { IfOk result (λ n. n ≡ available self.new) }
        ensures there { IfOk result (λ n. n ≤ length (rest self.new)) }
        ensures bound { IfOk result (λ n. n < 2 ^ 63) }
        ensures enough { IfOk result (λ n. n < len → n ≡ length (rest self.new)) }
        ensures asked { asked self.new ≤ max (asked self.old) len };

    /// The octets at hand.
    fn slice(&self) -> &[u8]
        ensures slice { result.now ≡ take (available self.now) (rest self.now) }
        ensures there { available self.now ≤ length (rest self.now) };

    /// Some of the octets at hand, from `start` to `end`; this may want memory.
    fn bytes(&self, alloc: Global, start: usize, end: usize) -> Result<Bytes, AllocError>
        requires start { start ≤ end }
        requires end { end ≤ available self.now }
        ensures { IfOk result (λ b. b ≡ slice_range (rest self.now) start end) };

    /// Takes octets that are at hand; the position rises by their count, up to `usize::MAX`.
    fn advance(&mut self, len: usize)
        requires { len ≤ available self.old }
        ensures there { len ≤ length (rest self.old) }
        ensures rest { rest self.new ≡ drop len (rest self.old) }
        ensures position { position self.new ≡ min (position self.old + len) (2 ^ 64 - 1) }
        ensures available { available self.new ≡ available self.old - len };

    /// Takes `len` octets, or all that are left where these are fewer, and answers how many.
    fn skip(&mut self, len: usize) -> Result<usize, Self::Error>
        ensures bound { IfOk result (λ n. n ≤ len) }
        ensures there { IfOk result (λ n. n ≤ length (rest self.old)) }
        ensures rest { IfOk result (λ n. rest self.new ≡ drop n (rest self.old)) }
        ensures short { IfOk result (λ n. n < len → rest self.new ≡ []) }
        ensures failed { OnErr result (rest self.new ≡ rest self.old) }
    {
        let count = self.request(len)?;
        let count = count.min(len);
        self.advance(count);
        Ok(count)
    }

    /// Takes the next octet.
    fn take_u8(&mut self) -> Result<u8, DecodeError<Self::Error>>
        ensures taken { IfOk result (λ octet. rest self.old ≡ octet ∷ rest self.new) }
        ensures refused { IfErr result (λ e. OnlyAtEnd e (rest self.old)) }
        ensures failed { OnErr result (rest self.new ≡ rest self.old) }
    {
        match self.take_opt_u8() {
            Ok(Some(octet)) => Ok(octet),
            Ok(None) => Err(
                (*self).content_err(ContentError::from_static("unexpected end of data")),
            ),
            Err(error) => Err(DecodeError::Source(error)),
        }
    }

    /// Takes the next octet, if any is left.
    fn take_opt_u8(&mut self) -> Result<Option<u8>, Self::Error>
        ensures taken { IfOk result (λ octet. NextOctet octet (rest self.old) (rest self.new)) }
        ensures failed { OnErr result (rest self.new ≡ rest self.old) }
    {
        self.request(1)?;
        let Some(octet) = (*self).slice().first() else {
            return Ok(None);
        };
        let octet = *octet;
        self.advance(1);
        Ok(Some(octet))
    }

    /// The refusal of a content at the current position.
    fn content_err(&self, error: ContentError) -> DecodeError<Self::Error>
        ensures { result ≡ content_error error (position self.now) }
    {
        DecodeError::content(error, self.pos())
    }
}

/// What can be read as a source.
///
/// `octets` are the octets that the source will have.
pub trait IntoSource {
    /// The source.
    type Source: Source;

    ghost octets: { Self → List ℕ };

    /// The source, from its first octet on.
    fn into_source(self) -> Self::Source
        ensures { Self.Source.rest result ≡ octets self };
}

/// A source that is lent.
impl<'a, T: Source> Source for &'a mut T {
    type Error = T::Error;

    ghost rest = { λ s. T.rest s.now };

    ghost available = { λ s. T.available s.now };

    ghost position = { λ s. T.position s.now };

    ghost asked = { λ s. T.asked s.now };

    fn pos(&self) -> Pos {
        T::pos(*self)
    }

    fn request(&mut self, len: usize) -> Result<usize, T::Error> {
        T::request(*self, len)
    }

    fn slice(&self) -> &[u8] {
        T::slice(*self)
    }

    fn bytes(&self, alloc: Global, start: usize, end: usize) -> Result<Bytes, AllocError> {
        T::bytes(*self, alloc, start, end)
    }

    fn advance(&mut self, len: usize) {
        T::advance(*self, len)
    }
}
