//! A bundle as it is read: with what its octets' digests are made by, and with what says which signatures are good.

ghost use Rattle.std.specs.Prelude.{◌≡◌};

use crate::signed::{Digester, Verifier};
use crate::table::Index;

/// A bundle with a digester and a verifier. What is read of its objects is read through it; of all that, only how often the
/// verifier was asked changes.
#[derive(Drop)]
pub struct BundleReader<'a, D: Digester, V: Verifier> {
    /// The bundle.
    pub index: Index<'a>,
    /// What digests are made by.
    pub digester: &'a D,
    /// What says which signatures are good.
    pub verifier: &'a mut V,
}

impl<'a, D: Digester, V: Verifier> BundleReader<'a, D, V> {
    /// The bundle, with this digester and this verifier, which is asked through it as long as it is lent.
    pub fn new(index: Index<'a>, digester: &'a D, verifier: &'a mut V) -> Self
        ensures index { result.index ≡ index.entry }
        ensures digester { result.digester.now ≡ digester.now }
        ensures verifier { result.verifier.now ≡ verifier.old }
        ensures lender { result.verifier.ghost_name ≡ verifier.entry.ghost_name }
    {
        BundleReader {
            index,
            digester,
            verifier,
        }
    }
}
