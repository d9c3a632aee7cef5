//! Readers and writers that count their failures.
ghost use Rattle.objects_payload.specs.Counts.{CountsErrors, CountsStops, one_more};
ghost use Rattle.std.specs.Io.KnownBytes.{Keeps, ReadConsumes, WriteAppends};
ghost use Rattle.std.specs.Io.{ReadsAtMost, WritesAtMost};
ghost use Rattle.std.specs.Prelude.{◌≡◌};

use std::io::{self, Read, Write};

/// A reader or a writer beside the count of its failures.
#[derive(Drop)]
pub struct Counted<T> {
    /// The reader or writer itself.
    pub inner: T,
    /// How many of its calls failed.
    pub failures: u64,
}

impl<T> Counted<T> {
    /// Nothing has failed yet.
    pub fn new(inner: T) -> Counted<T>
        ensures inner { result.inner ≡ inner }
        ensures none { result.failures ≡ 0 }
    {
        Counted { inner, failures: 0 }
    }

    /// How many calls failed so far; the count stops at `u64::MAX`.
    pub fn failures(&self) -> u64
        ensures { result ≡ self.now.failures }
    {
        self.failures
    }

    /// Counts one more failure.
    fn count_failure(&mut self)
        ensures inner { self.new.inner ≡ self.old.inner }
        ensures failures { self.new.failures ≡ one_more self.old.failures }
    {
        self.failures = self.failures.saturating_add(1);
    }
}

/// Reads as the inner reader does, and counts each error.
impl<T: Read> Read for Counted<T> {
    ghost remaining = { λ counted. T.remaining counted.inner };

    /// Every call is one call of the inner reader: nothing is retried.
    fn read(&mut self, buf: &mut [u8]) -> io::Result<usize>
        ensures bound { ReadsAtMost result buf.new }
        ensures bytes { ReadConsumes (T.remaining self.old.inner) (T.remaining self.new.inner)
            result buf.new }
        ensures count { CountsErrors result self.old.failures self.new.failures }
    {
        let answer = self.inner.read(buf);
        if answer.is_err() {
            self.count_failure();
        }
        answer
    }
}

/// Writes as the inner writer does, and counts each error and each write that takes nothing.
impl<T: Write> Write for Counted<T> {
    ghost contents = { λ counted. T.contents counted.inner };

    /// Every call is one call of the inner writer: nothing is retried. A write that takes nothing
    /// counts as a failure, since a writer that answers so takes no more.
    fn write(&mut self, buf: &[u8]) -> io::Result<usize>
        ensures bound { WritesAtMost result buf.now }
        ensures bytes { WriteAppends (T.contents self.old.inner) (T.contents self.new.inner) result
            buf.now }
        ensures count { CountsStops result self.old.failures self.new.failures }
    {
        let answer = self.inner.write(buf);
        if let Ok(0) | Err(_) = answer {
            self.count_failure();
        }
        answer
    }

    /// An error counts as a failure.
    fn flush(&mut self) -> io::Result<()>
        ensures bytes { Keeps (T.contents self.old.inner) (T.contents self.new.inner) }
        ensures count { CountsErrors result self.old.failures self.new.failures }
    {
        let answer = self.inner.flush();
        if answer.is_err() {
            self.count_failure();
        }
        answer
    }
}
