//! The components of an object identifier, one by one.

ghost use Rattle.std.specs.Prelude.{◌≡◌, ◌∷◌, [], IfSome, IfNone};
ghost use Rattle.std.specs.Iterator.{YieldsFirstBy, item_count};
ghost use Rattle.bcder.specs.Components.{components_of, number_of, numbers_behind};
ghost use Rattle.bcder.specs.Subidentifiers.{base128};

use crate::oid::component::{Component, Place};
use std::marker::Model;

/// The components of an object identifier, from the first on. Contracts see the list of those that are left.
///
/// It ends where no whole subidentifier is left.
#[derive(Clone, Debug, Drop)]
pub struct Iter<'a> {
    octets: &'a [u8],
    place: Place,
}

impl<'a> Model for Iter<'a> {
    ghost use Rattle.std.specs.Prelude.{List, ℕ};
    ghost use Rattle.bcder.specs.Components.{components_left};

    ghost Value = { List ℕ };

    ghost view = { λ i. components_left i.place i.octets.now };
}

impl<'a> Iter<'a> {
    // All components that octets have.
    pub(crate) fn new(octets: &'a [u8]) -> Self
        ensures { result ≡ components_of octets.now }
    {
        Iter {
            octets,
            place: Place::First,
        }
    }
}

impl<'a> Iterator for Iter<'a> {
    type Item = Component<'a>;

    ghost next_gives = { YieldsFirstBy number_of (λ s. s) };

    ghost remaining = { item_count (λ s. s) };

    fn next(&mut self) -> Option<Component<'a>> {
        let place = self.place;
        let (octets, behind) = cut(self.octets)?;
        match place {
            Place::First => self.place = Place::Second,
            Place::Second | Place::Later => {
                self.place = Place::Later;
                self.octets = behind;
            }
        }
        Some(Component { place, octets })
    }
}

// The first subidentifier, and the octets after it; None where none ends.
fn cut(octets: &[u8]) -> Option<(&[u8], &[u8])>
    ensures none { IfNone result (numbers_behind 0 octets.now ≡ []) }
    ensures some { IfSome result
        (λ r. numbers_behind 0 octets.now ≡ base128 r.0.now ∷ numbers_behind 0 r.1.now) }
{
    for (index, octet) in octets.iter().enumerate() {
        if *octet < 128 {
            return Some(octets.split_at(index + 1));
        }
    }
    None
}
