//! The walk from all locators.

ghost use Rattle.std.specs.Prelude.{◌≡◌, ◌<◌, ◌≤◌, ◌∷◌, [], length, OnOk};
ghost use Rattle.rpki_walk.specs.Repository.{locator_at};
ghost use Rattle.rpki_walk.specs.Facts.{FromLocator, IsFinding, Gains, Walks};

use crate::chains::walk_from;
use crate::repository::{AnchorLookup, Repository};
use crate::visitor::{Chain, Visitor};
use bytes::Bytes;
use rpki_rules::{Cause, Path};
use std::alloc::{AllocError, Global};
use std::rc::Rc;

// Tells what a trust anchor of the locator of that name tells, and all chains from it on.
fn walk_anchor<S: Repository, V: Visitor<S>>(
    alloc: Global,
    repository: &mut S,
    visitor: &mut V,
    name: Bytes,
    uri: &Bytes,
    anchor: &S::Authority,
) -> Result<(), AllocError>
    requires { 1 ≤ (S.world repository.old).depth }
    ensures facts { OnOk result (Walks V.wants (V.uris visitor.old) (S.world repository.old)
        (record { locator = name; chain = uri.now ∷ [] })
        ((S.cert anchor.now).tbs.subject_key_identifier ∷ []) uri.now (S.cert anchor.now)
        (S.sets anchor.now) (V.has visitor.old) (V.has visitor.new)) }
    ensures kept { V.uris visitor.new ≡ V.uris visitor.old }
    ensures same { S.world repository.new ≡ S.world repository.old }
    ensures lender { S.lender repository.new ≡ S.lender repository.old }
{
    let keys = [repository.key_identifier(alloc, anchor)?];
    let path = Rc::new(alloc, Path::new(alloc, name, uri.clone()?)?)?;
    let chain = Chain {
        path: &path,
        keys: &keys,
        uri,
    };
    walk_from(alloc, repository, visitor, &chain, anchor)
}

// Tells what the locator at that place tells.
fn walk_locator<S: Repository, V: Visitor<S>>(
    alloc: Global,
    repository: &mut S,
    visitor: &mut V,
    at: usize,
) -> Result<(), AllocError>
    requires within { at < length (S.world repository.old).locators }
    requires deep { 1 ≤ (S.world repository.old).depth }
    ensures gained { OnOk result (Gains V.wants (V.has visitor.old)
        (FromLocator (V.uris visitor.old) (S.world repository.old)
        (locator_at (S.world repository.old) at))
        (V.has visitor.new)) }
    ensures kept { V.uris visitor.new ≡ V.uris visitor.old }
    ensures same { S.world repository.new ≡ S.world repository.old }
    ensures lender { S.lender repository.new ≡ S.lender repository.old }
{
    let name = repository.locator_name(at)?;
    match repository.read_locator(alloc, at)? {
        AnchorLookup::Unreadable => visitor.refuse(&name, Cause::Tal),
        AnchorLookup::Nowhere => visitor.refuse(&name, Cause::Anchor),
        AnchorLookup::Anchor(uri, anchor) => walk_anchor(
            alloc, repository, visitor, name, &uri, &anchor,
        ),
    }
}

/// Tells all that locators and accepted chains tell.
pub fn walk_all<S: Repository, V: Visitor<S>>(
    alloc: Global,
    repository: &mut S,
    visitor: &mut V,
) -> Result<(), AllocError>
    ensures gained { OnOk result (Gains V.wants (V.has visitor.old)
        (IsFinding (V.uris visitor.old) (S.world repository.old)) (V.has visitor.new)) }
    ensures kept { V.uris visitor.new ≡ V.uris visitor.old }
    ensures same { S.world repository.new ≡ S.world repository.old }
    ensures lender { S.lender repository.new ≡ S.lender repository.old }
{
    for at in 0..repository.locator_count() {
        walk_locator(alloc, repository, visitor, at)?;
    }
    Ok(())
}
