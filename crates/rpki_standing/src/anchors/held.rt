//! The first of a locator's URIs at which there is an object.

ghost use Rattle.std.specs.Prelude.{◌≡◌, MatchOption, None, map};
ghost use Rattle.objects_payload.specs.Uris.{text_of};
ghost use Rattle.rpki_rules.specs.Certs.{Digests, Verdicts};
ghost use Rattle.rpki_rules.specs.Points.{IsFirstHeld};
ghost use Rattle.rpki_rules.specs.Words.{Each};
ghost use Rattle.rpki_rules.specs.World.{at, world_of};

use crate::table::{Index, Object};
use objects_payload::locator::TalUri;

/// The object at the first of the URIs at which there is one; none where there is none at any. Its own URI is the
/// lookup key under which it was found.
pub fn first_held<'a>(uris: &[TalUri], index: &Index<'a>) -> Option<&'a Object>
    ensures { (d : Digests) (v : Verdicts) → MatchOption result
        (Each (λ u. at (world_of d v index.now) u ≡ None) (map text_of uris.now))
        (λ o. IsFirstHeld (world_of d v index.now) (map text_of uris.now)
        o.now.uri o.now.octets) }
{
    for uri in uris {
        if let Some(object) = index.object_at(uri.as_str().as_bytes()) {
            return Some(object);
        }
    }
    None
}
