//! Why octets can't be read.
ghost use Rattle.std.specs.Prelude.{◌≡◌, ◌≤◌, length};
ghost use Rattle.bcder_source.specs.Errors.{SameCause};
ghost use Rattle.bcder_source.specs.declared.error.ContentError.TheVariants.{Owned as owned_text};
ghost use Rattle.bcder_source.specs.declared.error.DecodeError.TheVariants.{Memory as memory_error};

use crate::{Pos, Tag};
use std::alloc::{AllocError, AllocFailed};
use std::convert::Infallible;
use std::error::Error;
use std::fmt;
use std::fmt::InlineText;
use std::marker::Model;

/// A short text that is kept without memory: the first 64 octets of it.
///
/// A clause sees the octets of the text.
#[derive(Drop)]
pub struct FixedText {
    text: InlineText<64>,
}

impl Model for FixedText {
    ghost use Rattle.std.specs.Prelude.{ℕ, List};
    ghost use Rattle.std.specs.Fmt.InlineText.{inline_text};

    ghost Value = { List ℕ };

    ghost view = { λ a. inline_text a.text };
}

impl FixedText {
    /// Keeps a text; of one over 64 octets only a front, which ends in dots.
    pub fn new(text: &str) -> FixedText
        ensures { length text.now ≤ 64 → result ≡ text.now }
    {
        FixedText {
            text: InlineText::new().and_str(text, 64),
        }
    }

    /// The text.
    pub fn as_str(&self) -> &str
        ensures { result.now ≡ self.now }
    {
        self.text.as_str()
    }
}

/// Prints the text.
impl fmt::Display for FixedText {
    fn fmt<W: fmt::Write>(&self, f: &mut fmt::Formatter<W>) -> fmt::Result {
        f.write_str(self.as_str())
    }
}

/// Prints the text.
impl fmt::Debug for FixedText {
    fn fmt<W: fmt::Write>(&self, f: &mut fmt::Formatter<W>) -> fmt::Result {
        f.write_str(self.as_str())
    }
}

/// What is wrong with a content.
#[derive(Debug, Drop)]
pub enum ContentError {
    /// A fixed text.
    Static(FixedText),
    /// A text made for the case.
    Owned(String),
    /// A value with this tag was expected.
    ExpectedTag(Tag),
    /// This number was expected.
    ExpectedInteger(u64),
}

impl ContentError {
    /// The error with a fixed text, of which 64 octets are kept.
    pub fn from_static(text: &str) -> ContentError
        ensures { length text.now ≤ 64 → result ≡ ContentError.Static text.now }
    {
        ContentError::Static(FixedText::new(text))
    }
}

impl From<String> for ContentError {
    ghost from_gives = { λ text e. e ≡ owned_text text };

    fn from(text: String) -> ContentError {
        ContentError::Owned(text)
    }
}

/// Prints the text, or what was expected.
impl fmt::Display for ContentError {
    fn fmt<W: fmt::Write>(&self, f: &mut fmt::Formatter<W>) -> fmt::Result {
        match self {
            ContentError::Static(text) => f.write_str(text.as_str()),
            ContentError::Owned(text) => f.write_str(text.as_str()),
            ContentError::ExpectedTag(tag) => write!(f, "expected {tag}"),
            ContentError::ExpectedInteger(number) => write!(f, "expected {number}"),
        }
    }
}

impl Error for ContentError {}

/// Why a read was refused.
#[derive(Debug, Drop)]
pub enum DecodeError<E> {
    /// The octets themselves are refused, at this position.
    Content(ContentError, Pos),
    /// The source failed.
    Source(E),
    /// A growth of memory was refused.
    Memory,
}

impl<E> DecodeError<E> {
    /// The refusal of a content.
    pub fn content(error: ContentError, pos: Pos) -> DecodeError<E>
        ensures { result ≡ DecodeError.Content error pos }
    {
        DecodeError::Content(error, pos)
    }
}

impl DecodeError<Infallible> {
    /// The refusal for a source that may fail. The cause is kept.
    pub fn convert<E>(self) -> DecodeError<E>
        ensures { SameCause self result }
    {
        match self {
            DecodeError::Content(error, pos) => DecodeError::Content(error, pos),
            DecodeError::Source(never) => match never {},
            DecodeError::Memory => DecodeError::Memory,
        }
    }
}

impl<E> From<AllocError> for DecodeError<E> {
    ghost from_gives = { λ _ e. e ≡ memory_error };

    fn from(_error: AllocError) -> DecodeError<E> {
        DecodeError::Memory
    }
}

impl<T: Drop, E> From<AllocFailed<T>> for DecodeError<E> {
    ghost from_gives = { λ _ e. e ≡ memory_error };

    fn from(_failed: AllocFailed<T>) -> DecodeError<E> {
        DecodeError::Memory
    }
}

/// Prints the cause, and the position of a content's.
impl<E: fmt::Display> fmt::Display for DecodeError<E> {
    fn fmt<W: fmt::Write>(&self, f: &mut fmt::Formatter<W>) -> fmt::Result {
        match self {
            DecodeError::Content(error, pos) => write!(f, "{error} (at position {pos})"),
            DecodeError::Source(error) => error.fmt(f),
            DecodeError::Memory => f.write_str("out of memory"),
        }
    }
}

impl<E: Error> Error for DecodeError<E> {}
