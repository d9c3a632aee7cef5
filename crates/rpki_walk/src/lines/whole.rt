//! All lines of a bundle.

ghost use Rattle.std.specs.Prelude.{◌≡◌, ◌<◌, ◌≤◌, ◌∷◌, [], length, IfOk, OnOk};
ghost use Rattle.rpki_walk.specs.Repository.{locator_at};
ghost use Rattle.rpki_walk.specs.Printed.{AreLines};
ghost use Rattle.rpki_walk.specs.Walked.{AreWalked, TellsLocator, WalksLines};

use crate::lines::walk::{LinesWalk, lines_from};
use crate::reach::naming::Naming;
use crate::repository::AnchorLookup;
use bytes::Bytes;
use rpki_rules::{Cause, Report};
use std::alloc::{AllocError, Global};

// Finds the lines of a trust anchor, and of all chains from it on.
fn lines_at_anchor<S: Naming>(
    alloc: Global,
    repository: &mut S,
    walk: &mut LinesWalk,
    uri: &Bytes,
    anchor: &S::Authority,
) -> Result<usize, AllocError>
    requires { 1 ≤ (S.world repository.old).depth }
    ensures facts { IfOk result (WalksLines (S.world repository.old)
        ((S.cert anchor.now).tbs.subject_key_identifier ∷ []) uri.now (S.cert anchor.now)
        (S.sets anchor.now) walk.old walk.new) }
    ensures same { S.world repository.new ≡ S.world repository.old }
    ensures lender { S.lender repository.new ≡ S.lender repository.old }
{
    let keys = [repository.key_identifier(alloc, anchor)?];
    lines_from(alloc, repository, walk, &keys, uri, anchor)
}

// Finds the lines of the locator at that place.
fn lines_at<S: Naming>(
    alloc: Global,
    repository: &mut S,
    walk: &mut LinesWalk,
    at: usize,
) -> Result<(), AllocError>
    requires within { at < length (S.world repository.old).locators }
    requires deep { 1 ≤ (S.world repository.old).depth }
    ensures facts { OnOk result (AreWalked (S.world repository.old) walk.old
        → TellsLocator (S.world repository.old) (locator_at (S.world repository.old) at)
        walk.old walk.new) }
    ensures same { S.world repository.new ≡ S.world repository.old }
    ensures lender { S.lender repository.new ≡ S.lender repository.old }
{
    let name = repository.locator_name(at)?;
    match repository.read_locator(alloc, at)? {
        AnchorLookup::Unreadable => walk.lines.refuse(&name, Cause::Tal),
        AnchorLookup::Nowhere => walk.lines.refuse(&name, Cause::Anchor),
        AnchorLookup::Anchor(uri, anchor) => {
            lines_at_anchor(alloc, repository, walk, &uri, &anchor)?;
            Ok(())
        }
    }
}

/// The lines of a bundle: all that accepted chains attest, and all that the rules refuse, without the witnesses, which tell
/// by which chains. Of chains that end alike one is walked, so that where many authorities certify the same ones this
/// asks for less than `walk`.
pub fn walk_lines<S: Naming>(alloc: Global, repository: &mut S) -> Result<Report, AllocError>
    ensures report { IfOk result (AreLines (S.world repository.old)) }
    ensures same { S.world repository.new ≡ S.world repository.old }
    ensures lender { S.lender repository.new ≡ S.lender repository.old }
{
    let mut walk = LinesWalk::new(alloc);
    for at in 0..repository.locator_count() {
        lines_at(alloc, repository, &mut walk, at)?;
    }
    let report = walk.lines.report(alloc, Vec::new(alloc))?;
    Ok(report)
}
