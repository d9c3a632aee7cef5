//! Tables of certificates by key identifiers.

ghost use Rattle.std.specs.Prelude.{◌≡◌, IfOk, OnOk};
ghost use Rattle.objects_rta_valid.specs.Runs.{onward};
ghost use Rattle.objects_rta_valid.specs.Tables.{Adds, IsTableOf, one_more, told};

use crate::paths::node::NodeKeys;
use std::alloc::{AllocError, Global};
use std::collections::BTreeMap;

/// The places of certificates with a key: there is none, one, or more than one.
#[derive(Clone, Copy, Debug)]
pub(crate) enum Found {
    Nothing,
    One(usize),
    Several,
}

impl Found {
    /// The place after that one, or itself.
    pub(crate) fn onward(self, place: usize) -> usize
        ensures { result ≡ onward self place }
    {
        match self {
            Found::Nothing => place,
            Found::One(next) => next,
            Found::Several => place,
        }
    }

    // With one more place.
    fn with(self, place: usize) -> Found
        ensures { result ≡ one_more self place }
    {
        match self {
            Found::Nothing => Found::One(place),
            Found::One(_) => Found::Several,
            Found::Several => Found::Several,
        }
    }
}

/// Places of certificates by their subject key identifiers.
#[derive(Drop)]
pub(crate) struct Table<'a> {
    found: BTreeMap<&'a [u8], Found>,
}

impl<'a> Table<'a> {
    /// The places of certificates with that key.
    pub(crate) fn find(&self, key: &[u8]) -> Found
        ensures { result ≡ told self.now key.now }
    {
        self.found.get(key).copied().unwrap_or(Found::Nothing)
    }

    // One more place of a certificate with that key.
    fn add(&mut self, key: &'a [u8], place: usize) -> Result<(), AllocError>
        ensures { OnOk result (Adds self.old self.new key.now place) }
    {
        let found = self.find(key).with(place);
        self.found.insert(key, found)?;
        Ok(())
    }
}

/// The table of all certificates, or of authorities' alone.
pub(crate) fn table_of<'a>(
    alloc: Global,
    nodes: &[NodeKeys<'a>],
    issuers: bool,
) -> Result<Table<'a>, AllocError>
    ensures { IfOk result (IsTableOf nodes.now issuers) }
{
    let mut table = Table {
        found: BTreeMap::new(alloc),
    };
    for (place, node) in nodes.iter().enumerate() {
        if node.issues() || !issuers {
            table.add(node.subject(), place)?;
        }
    }
    Ok(table)
}
