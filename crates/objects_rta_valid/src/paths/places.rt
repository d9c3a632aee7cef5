//! Paths as lists of places.

ghost use Rattle.std.specs.Prelude.{◌≡◌, ◌≢◌, ◌↔◌, ◌<◌, [], Some, All, IsTrue, MatchOption, length, slice_get};
ghost use Rattle.std.specs.Iterator.{YieldsFirst, item_count};
ghost use Rattle.objects_rta_valid.specs.Paths.{AreAllOn, IsFirstOff};

use crate::paths::lengths::{Length, Start};
use crate::paths::table::Found;
use std::marker::Model;

/// Of each signer, in their order, its path: the places of the certificates on it, the signer's own first. Contracts see of how
/// many certificates they are, and the paths as lists of places.
///
/// However long the paths are, this has four words for each certificate, and two for each signer: what follows each place, how
/// many places the path from each has, and of each signer its first place and that number.
#[derive(Drop)]
pub struct Paths {
    pub(crate) steps: Vec<Found>,
    pub(crate) lengths: Vec<Length>,
    pub(crate) starts: Vec<Start>,
}

impl Model for Paths {
    ghost use Rattle.std.specs.Prelude.{length};
    ghost use Rattle.objects_rta_valid.specs.Kept.{Kept, paths_of};
    ghost use Rattle.objects_rta_valid.specs.Paths.{PathsValue};

    ghost Value = { PathsValue };

    ghost view = { λ p. record {
      count = length p.steps.items;
      paths = paths_of p.steps.items p.starts.items;
    } };

    ghost invariant = { λ p.
        Kept p.steps.items p.lengths.items (paths_of p.steps.items p.starts.items) };
}

/// The places of a path, one by one, from the signer's own certificate up. Contracts see those that are left.
#[derive(Drop)]
pub struct PathPlaces<'a> {
    steps: &'a [Found],
    place: usize,
    left: usize,
}

impl<'a> Model for PathPlaces<'a> {
    ghost use Rattle.std.specs.Prelude.{◌<◌, ℕ, List, All, length};
    ghost use Rattle.objects_rta_valid.specs.Runs.{walk};

    ghost Value = { List ℕ };

    ghost view = { λ p. walk p.steps.now p.left p.place };

    ghost invariant = { λ p.
        All (λ place. place < length p.steps.now) (walk p.steps.now p.left p.place) };
}

impl<'a> Iterator for PathPlaces<'a> {
    type Item = usize;

    ghost next_gives = { YieldsFirst (λ s. s) };

    ghost remaining = { item_count (λ s. s) };

    fn next(&mut self) -> Option<usize> {
        if self.left == 0 {
            return None;
        }
        let place = self.place;
        self.place = self.steps[place].onward(place);
        self.left -= 1;
        Some(place)
    }
}

impl Paths {
    /// Of how many certificates the paths are.
    pub fn count(&self) -> usize
        ensures { result ≡ self.now.count }
    {
        self.steps.len()
    }

    /// How many signers there are, each of which has its path.
    pub fn len(&self) -> usize
        ensures { result ≡ length self.now.paths }
    {
        self.starts.len()
    }

    /// Whether there is no signer.
    pub fn is_empty(&self) -> bool
        ensures { IsTrue result ↔ (self.now.paths ≡ []) }
    {
        self.starts.is_empty()
    }

    /// The path of the signer at that place among the signers. It has one place at least, and each is that of a certificate.
    pub fn path(&self, signer: usize) -> PathPlaces<'_>
        requires { signer < length self.now.paths }
        ensures path { slice_get self.now.paths signer ≡ Some result }
        ensures some { result ≢ [] }
        ensures inside { All (λ place. place < self.now.count) result }
    {
        let start = &self.starts[signer];
        PathPlaces {
            steps: self.steps.as_slice(),
            place: start.first,
            left: start.count,
        }
    }

    /// The first place of a certificate that is on no path, if there is one.
    pub fn first_off(&self) -> Option<usize>
        ensures { MatchOption result (AreAllOn self.now.paths self.now.count)
            (IsFirstOff self.now.paths self.now.count) }
    {
        for (place, length) in self.lengths.iter().enumerate() {
            if !length.is_known() {
                return Some(place);
            }
        }
        None
    }
}
