//! Positions in a source.
ghost use Rattle.std.specs.Prelude.{◌≡◌, ◌+◌, ◌-◌, ◌^◌, min};

use std::fmt;
use std::marker::Model;
use std::ops::Add;

/// How many octets of a source were taken: for diagnostics alone.
#[derive(Clone, Copy, Debug, PartialEq, Eq, Hash)]
pub struct Pos {
    octets: usize,
}

impl Model for Pos {
    ghost use Rattle.std.specs.Prelude.{ℕ};

    ghost Value = { ℕ };

    ghost view = { λ a. a.octets };

    ghost inverse = { λ n. record { octets = n } };
}

impl From<usize> for Pos {
    ghost from_gives = { λ octets pos. pos ≡ octets };

    fn from(octets: usize) -> Pos {
        Pos { octets }
    }
}

/// The sum, which stops at `usize::MAX`.
impl Add for Pos {
    type Output = Pos;

    ghost add_gives = { λ a b sum. sum ≡ min (a + b) (2 ^ 64 - 1) };

    fn add(self, rhs: Pos) -> Pos {
        Pos {
            octets: self.octets.saturating_add(rhs.octets),
        }
    }
}

/// Prints the count of octets.
impl fmt::Display for Pos {
    fn fmt<W: fmt::Write>(&self, f: &mut fmt::Formatter<W>) -> fmt::Result {
        let octets = self.octets;
        write!(f, "{octets}")
    }
}
