//! How many chains go on below an authority.

ghost use Rattle.std.specs.Prelude.{◌≡◌};
ghost use Rattle.rpki_walk.specs.Cost.{count_of};

use bytes::Bytes;
use std::cmp::Reverse;

/// An authority, by the lookup key of its certificate, and how many chains go on below it.
///
/// Counts are ordered by the number of chains, the most first, and then by the lookup key.
#[derive(Drop, PartialEq, Eq, PartialOrd, Ord)]
pub struct Count {
    pub(crate) chains: Reverse<u64>,
    pub(crate) authority: Bytes,
}

impl Count {
    /// So many chains go on below the authority.
    pub fn new(authority: Bytes, chains: u64) -> Self
        ensures { count_of result ≡ record { authority = authority; chains = chains } }
    {
        Count {
            chains: Reverse(chains),
            authority,
        }
    }

    /// The lookup key of its certificate.
    pub fn authority(&self) -> &Bytes
        ensures { result.now ≡ (count_of self.now).authority }
    {
        &self.authority
    }

    /// How many chains go on below it.
    pub fn chains(&self) -> u64
        ensures { result ≡ (count_of self.now).chains }
    {
        self.chains.0
    }
}

/// What is answered: the authorities below which chains go on, with their numbers, the most first.
#[derive(Drop)]
pub enum Cost {
    /// All accepted chains were counted.
    Exactly(Vec<Count>),
    /// As many were counted as the budget has, and there are more.
    AtLeast(Vec<Count>),
}
