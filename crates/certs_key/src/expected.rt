//! A writer that compares what it is given with octets that are expected.

ghost use Rattle.std.specs.Prelude.{◌≡◌, ◌≤◌, Some, length, take};

use std::io::{self, Write};

/// Takes what is written only where it is what comes next of the expected octets.
#[derive(Drop)]
pub(crate) struct Expected<'a> {
    octets: &'a [u8],
    count: usize,
    ghost held: { count ≤ length octets.now },
}

impl<'a> Expected<'a> {
    /// Expects those octets, and has taken none of them.
    pub(crate) fn new(octets: &'a [u8]) -> Expected<'a>
        ensures octets { result.octets.now ≡ octets.now }
        ensures none { result.count ≡ 0 }
    {
        Expected { octets, count: 0 }
    }

    /// Those that were taken.
    pub(crate) fn taken(&self) -> &[u8]
        ensures { result.now ≡ take self.now.count self.now.octets.now }
    {
        &self.octets[..self.count]
    }
}

impl<'a> Write for Expected<'a> {
    ghost contents = { λ e. Some (take e.count e.octets.now) };

    /// Takes all octets or none.
    fn write(&mut self, buf: &[u8]) -> io::Result<usize> {
        if !self.octets[self.count..].starts_with(buf) {
            return Ok(0);
        }
        self.count += buf.len();
        Ok(buf.len())
    }

    fn flush(&mut self) -> io::Result<()> {
        Ok(())
    }
}
