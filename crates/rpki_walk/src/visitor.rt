//! Who is told what a walk finds.

ghost use Rattle.std.specs.Prelude.{◌≡◌, ℕ, List, OnOk};
ghost use Rattle.rpki_rules.specs.Kinds.{InSet};
ghost use Rattle.rpki_rules.specs.Views.{path_of};
ghost use Rattle.rpki_walk.specs.Facts.{Finding, Refuses, ShownBy, ReachedBy, Gains};

use crate::repository::Repository;
use bytes::Bytes;
use rpki_rules::{Cause, Path};
use std::alloc::{AllocError, Global};
use std::rc::Rc;

/// An accepted chain at whose end a walk stands.
#[derive(Drop)]
pub struct Chain<'a> {
    /// Its locator's name and the lookup keys of its certificates, the anchor's first.
    pub path: &'a Rc<Path>,
    /// The subject key identifiers of its certificates, the last first.
    pub keys: &'a [Bytes],
    /// The lookup key of its last certificate.
    pub uri: &'a Bytes,
}

/// What is done with what a walk finds: each call tells one thing.
pub trait Visitor<S: Repository> {
    // What it was told; it keeps no more than what it wants.
    ghost has: { Self → Finding → Type 0 };

    ghost wants: { Finding → Type 0 };

    // The URIs that it looks for in what authorities name.
    ghost uris: { Self → List (List ℕ) };

    /// The chain is accepted, and this is its last certificate.
    fn visit(
        &mut self,
        alloc: Global,
        repository: &mut S,
        chain: &Chain<'_>,
        ca: &S::Authority,
    ) -> Result<(), AllocError>
        ensures gained { OnOk result (Gains wants (has self.old)
            (ReachedBy (uris self.old) (S.world repository.old) (InSet (S.sets ca.now))
            chain.now.keys.now (path_of chain.now.path.now.value) chain.now.uri.now
            (S.cert ca.now)) (has self.new)) }
        ensures kept { uris self.new ≡ uris self.old }
        ensures same { S.world repository.new ≡ S.world repository.old }
        ensures lender { S.lender repository.new ≡ S.lender repository.old };

    /// What has this name is refused.
    fn refuse(&mut self, name: &Bytes, why: Cause) -> Result<(), AllocError>
        ensures gained { OnOk result (Gains wants (has self.old) (λ x. Refuses name.now why ≡ x)
            (has self.new)) }
        ensures kept { uris self.new ≡ uris self.old };

    /// The object with this lookup key is good by this chain.
    fn show(
        &mut self,
        repository: &S,
        path: &Rc<Path>,
        object: &Bytes,
        payload: S::Payload,
    ) -> Result<(), AllocError>
        ensures gained { OnOk result (Gains wants (has self.old) (ShownBy (record {
          locator = (path_of path.now.value).locator;
          chain = (path_of path.now.value).chain;
          object = object.now;
        }) (S.payload payload)) (has self.new)) }
        ensures kept { uris self.new ≡ uris self.old };
}
