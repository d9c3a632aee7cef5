//! What is sought in the lists of bundles.

ghost use Rattle.std.specs.Prelude.{◌≡◌};
ghost use Rattle.std.specs.Ordering.{nat_cmp, ordering_then};
ghost use Rattle.std.specs.Cmp.Lexicographic.{slice_cmp};
ghost use Rattle.rpki_rules.specs.certs_basics.Uris.{lookup_key as key_of};

use crate::table::search::Sought;
use rpki_rules::{Object, Verdict, cmp_lookup_key};
use std::cmp::Ordering;

// How two rows stand to each other of which the fronts stand so, and then come these digests. They are looked at only
// where the fronts are equal.
fn behind(fronts: Ordering, digest: &[u8; 32], other: &[u8; 32]) -> Ordering
    ensures { result ≡ ordering_then fronts (slice_cmp nat_cmp digest.now other.now) }
{
    match fronts {
        Ordering::Equal => digest.cmp(other),
        unequal => unequal,
    }
}

/// A verdict among verdicts, which go by their 96 octets.
impl Sought for Verdict {
    ghost use Rattle.rpki_standing.specs.rpki_bundle.Bundle.{verdict_row};

    type Entry = Verdict;

    ghost sort_key = { verdict_row };

    ghost key = { verdict_row };

    fn stands(&self, entry: &Verdict) -> Ordering {
        let keys = entry.key.cmp(&self.key);
        let fronts = behind(keys, &entry.message, &self.message);
        behind(fronts, &entry.signature, &self.signature)
    }
}

/// The lookup key of a URI, among objects.
#[derive(Drop)]
pub struct ByUri<'a>(pub &'a [u8]);

impl<'a> Sought for ByUri<'a> {
    type Entry = Object;

    ghost sort_key = { λ o. o.uri };

    ghost key = { λ sought. key_of sought.0.now };

    fn stands(&self, entry: &Object) -> Ordering {
        cmp_lookup_key(entry.uri.as_slice(), self.0)
    }
}

/// A lookup key, among objects.
#[derive(Drop)]
pub struct ByKey<'a>(pub &'a [u8]);

impl<'a> Sought for ByKey<'a> {
    type Entry = Object;

    ghost sort_key = { λ o. o.uri };

    ghost key = { λ sought. sought.0.now };

    fn stands(&self, entry: &Object) -> Ordering {
        entry.uri.as_slice().cmp(&self.0)
    }
}
