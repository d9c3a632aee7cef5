//! Which authorities were walked, with all that is below them.

ghost use Rattle.std.specs.Prelude.{◌≡◌, ◌↔◌, ℕ, List, [], IsTrue, IfSome, OnOk};
ghost use Rattle.rpki_rules.specs.Words.{Mem};
ghost use Rattle.rpki_walk.specs.resources.Resources.{HaveSame};
ghost use Rattle.rpki_walk.specs.Remembered.{IsLike, IsRemembered, Remembers};

use bytes::Bytes;
use resources::set::ResourceSet;
use rpki_rules::listed::is_listed;
use std::alloc::{AllocError, Global};
use std::collections::HashMap;

/// With how many chains that led to a place before one that leads there again is compared at most, the last of them
/// first. It bounds what a look-up takes; a chain that isn't found is walked.
const MOST_COMPARED: usize = 32;

/// An authority below which all was walked.
#[derive(Drop)]
pub(crate) struct Walked {
    // The lookup key of its certificate.
    pub(crate) uri: Bytes,
    // What its chain holds.
    pub(crate) held: ResourceSet,
    // The keys of its chain, the last first.
    pub(crate) keys: Vec<Bytes>,
    // Where in the list of the keys that were met those stand that are met at its point and below, maybe with others.
    pub(crate) from: usize,
    pub(crate) to: usize,
    // Which one was walked before at this lookup key.
    earlier: Option<usize>,
}

/// Authorities that were walked, in the order of the walk.
#[derive(Drop)]
pub(crate) struct Remembered {
    pub(crate) walked: Vec<Walked>,
    // Where the last one of a lookup key stands.
    latest: HashMap<Bytes, usize>,
}

// Whether two texts are one.
fn is_same(one: &[u8], other: &[u8]) -> bool
    ensures { IsTrue result ↔ (one.now ≡ other.now) }
{
    one == other
}

// Whether the key is among these, unless it wasn't met.
fn is_on_if_met(keys: &[Bytes], met: &[Bytes], key: &[u8]) -> bool
    ensures { IsTrue result → Mem met.now key.now → Mem keys.now key.now }
{
    if is_listed(keys, key) {
        return true;
    }
    !is_listed(met, key)
}

// Whether each of the keys that was met is on the other list, too.
fn are_on_if_met(keys: &[Bytes], other: &[Bytes], met: &[Bytes]) -> bool
    ensures { IsTrue result
        → (key : List ℕ) → Mem keys.now key → Mem met.now key → Mem other.now key }
{
    for key in keys {
        if !is_on_if_met(other, met, key.as_slice()) {
            return false;
        }
    }
    true
}

// Whether each key that was met is on both lists or on neither.
fn agree(keys: &[Bytes], other: &[Bytes], met: &[Bytes]) -> bool
    ensures { IsTrue result
        → (key : List ℕ) → Mem met.now key → Mem keys.now key ↔ Mem other.now key }
{
    if !are_on_if_met(keys, other, met) {
        return false;
    }
    are_on_if_met(other, keys, met)
}

// Whether two sets have the same numbers of each kind.
fn hold_alike(one: &ResourceSet, other: &ResourceSet) -> bool
    ensures { IsTrue result → HaveSame one.now other.now }
{
    *one == *other
}

impl Walked {
    // Whether the chain with these keys, that holds so much, to the authority at that lookup key ends like this one.
    fn is_like(&self, met: &[Bytes], uri: &Bytes, keys: &[Bytes], held: &ResourceSet) -> bool
        ensures { IsTrue result → IsLike met.now self.now uri.now keys.now held.now }
    {
        if self.to < self.from {
            return false;
        }
        if met.len() < self.to {
            return false;
        }
        if !is_same(self.uri.as_slice(), uri.as_slice()) {
            return false;
        }
        let own = self.keys.as_slice();
        if own.len() != keys.len() {
            return false;
        }
        if !hold_alike(&self.held, held) {
            return false;
        }
        agree(own, keys, &met[self.from..self.to])
    }
}

impl Remembered {
    pub(crate) fn new(alloc: Global) -> Self
        ensures { result.walked.items ≡ [] }
    {
        Remembered {
            walked: Vec::new(alloc),
            latest: HashMap::new(alloc),
        }
    }

    /// Since when the keys were met that are met below a chain which was walked and ends like this one.
    pub(crate) fn find(
        &self,
        met: &[Bytes],
        uri: &Bytes,
        keys: &[Bytes],
        held: &ResourceSet,
    ) -> Option<usize>
        ensures { IfSome result
            (IsRemembered self.now.walked.items met.now uri.now keys.now held.now) }
    {
        let mut next = self.latest.get(uri).copied();
        for _turn in 0..MOST_COMPARED {
            let Some(at) = next else {
                return None;
            };
            if at >= self.walked.len() {
                return None;
            }
            let one = &self.walked[at];
            if one.is_like(met, uri, keys, held) {
                return Some(one.from);
            }
            next = one.earlier;
        }
        None
    }

    /// Remembers that all below this chain was walked.
    pub(crate) fn push(
        &mut self,
        uri: &Bytes,
        held: ResourceSet,
        keys: Vec<Bytes>,
        from: usize,
        to: usize,
    ) -> Result<(), AllocError>
        ensures { OnOk result (Remembers self.old.walked.items self.new.walked.items
            uri.now held keys.items from to) }
    {
        let at = self.walked.len();
        let earlier = self.latest.get(uri).copied();
        let one = Walked {
            uri: uri.clone()?,
            held,
            keys,
            from,
            to,
            earlier,
        };
        self.walked.push(one)?;
        self.latest.insert(uri.clone()?, at)?;
        Ok(())
    }
}
