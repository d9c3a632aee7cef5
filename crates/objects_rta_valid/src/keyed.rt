//! Places of key identifiers in a list, found by halving.

ghost use Rattle.std.specs.Prelude.{◌≡◌, IfOk, None, OnOk, get_or};
ghost use Rattle.objects_rta_valid.specs.Nodes.{each_octets};
ghost use Rattle.objects_rta_valid.specs.Keyed.{Adds, IsKeyed, last_place};

use std::alloc::{AllocError, Global};
use std::collections::BTreeMap;

/// The places of keys: of each key its last one, by halving, and of each place the one before it with the same key.
#[derive(Drop)]
pub(crate) struct KeyPlaces<'a> {
    last: BTreeMap<&'a [u8], usize>,
    before: Vec<Option<usize>>,
}

impl<'a> KeyPlaces<'a> {
    /// The last place of a key.
    pub(crate) fn last(&self, key: &[u8]) -> Option<usize>
        ensures { result ≡ last_place self.now key.now }
    {
        self.last.get(key).copied()
    }

    /// The place before that one with the same key.
    pub(crate) fn earlier(&self, place: usize) -> Option<usize>
        ensures { result ≡ get_or self.now.before.items place None }
    {
        match self.before.get(place) {
            Some(before) => *before,
            None => None,
        }
    }

    // One more place, behind all others, with its key.
    fn add(&mut self, key: &'a [u8], place: usize) -> Result<(), AllocError>
        ensures { OnOk result (Adds self.old self.new key.now place) }
    {
        let before = self.last(key);
        self.before.push(before)?;
        self.last.insert(key, place)?;
        Ok(())
    }
}

/// The places of keys in a list of them.
pub(crate) fn places_of<'a>(alloc: Global, keys: &[&'a [u8]]) -> Result<KeyPlaces<'a>, AllocError>
    ensures { IfOk result (IsKeyed (each_octets keys.now)) }
{
    let mut places = KeyPlaces {
        last: BTreeMap::new(alloc),
        before: Vec::new(alloc),
    };
    for (place, key) in keys.iter().enumerate() {
        places.add(*key, place)?;
    }
    Ok(places)
}
