//! Witnesses: by which chain of certificates an object attests something.

ghost use Rattle.std.specs.Prelude.{◌≡◌, ◌++◌, ◌∷◌, [], IfOk};
ghost use Rattle.rpki_rules.specs.Views.{path_of, witness_of};

use bytes::Bytes;
use std::alloc::{AllocError, Global};
use std::rc::Rc;

/// A locator's name, and the lookup keys of a chain of certificates from its trust anchor down.
#[derive(Debug, Drop, PartialEq, Eq, PartialOrd, Ord)]
pub struct Path {
    locator: Bytes,
    chain: Vec<Bytes>,
}

impl Path {
    /// The locator alone, without a chain.
    pub fn of_locator(alloc: Global, locator: Bytes) -> Self
        ensures { path_of result ≡ record { locator = locator; chain = [] } }
    {
        Path {
            locator,
            chain: Vec::new(alloc),
        }
    }

    /// The chain of the anchor alone.
    pub fn new(alloc: Global, locator: Bytes, anchor: Bytes) -> Result<Self, AllocError>
        ensures { IfOk result (λ p. path_of p ≡ record { locator = locator; chain = anchor ∷ [] }) }
    {
        let mut chain = Vec::new(alloc);
        chain.push(anchor)?;
        Ok(Path { locator, chain })
    }

    /// The chain with one more certificate.
    pub fn longer(&self, alloc: Global, last: &Bytes) -> Result<Self, AllocError>
        ensures { IfOk result (λ p. path_of p ≡ record {
          locator = (path_of self.now).locator;
          chain = (path_of self.now).chain ++ last.now ∷ [];
        }) }
    {
        let mut chain = Vec::with_capacity(alloc, self.chain.len())?;
        for uri in &self.chain {
            chain.push(uri.clone()?)?;
        }
        chain.push(last.clone()?)?;
        Ok(Path {
            locator: self.locator.clone()?,
            chain,
        })
    }

    /// The locator's name.
    pub fn locator(&self) -> &Bytes
        ensures { result.now ≡ (path_of self.now).locator }
    {
        &self.locator
    }

    /// The lookup keys, the anchor's first.
    pub fn chain(&self) -> &[Bytes]
        ensures { result.now ≡ (path_of self.now).chain }
    {
        &self.chain
    }
}

/// An object that is good by a chain of certificates: a ROA or an ASPA.
///
/// The objects of one chain share its lookup keys. Witnesses are ordered by object, and then by locator and chain.
#[derive(Debug, Drop, PartialEq, Eq, PartialOrd, Ord)]
pub struct Witness {
    object: Bytes,
    path: Rc<Path>,
}

impl Witness {
    /// The object with this lookup key is good by this chain.
    pub fn new(path: Rc<Path>, object: Bytes) -> Self
        ensures { witness_of result ≡ record {
          locator = (path_of path.value).locator;
          chain = (path_of path.value).chain;
          object = object;
        } }
    {
        Witness { object, path }
    }

    /// The locator's name.
    pub fn locator(&self) -> &Bytes
        ensures { result.now ≡ (witness_of self.now).locator }
    {
        self.path.as_ref().locator()
    }

    /// The lookup keys of the chain's certificates, the anchor's first.
    pub fn chain(&self) -> &[Bytes]
        ensures { result.now ≡ (witness_of self.now).chain }
    {
        self.path.as_ref().chain()
    }

    /// The lookup key of the object.
    pub fn object(&self) -> &Bytes
        ensures { result.now ≡ (witness_of self.now).object }
    {
        &self.object
    }
}
