//! The AS numbers that paths cover.

ghost use Rattle.std.specs.Prelude.{◌↔◌, ℕ, IfOk, ◌<◌, length};
ghost use Rattle.objects_rta_valid.specs.certs_basics.Lists.{Each};
ghost use Rattle.objects_rta_valid.specs.certs_extension.Kinds.{As};
ghost use Rattle.objects_rta_valid.specs.certs_extension.Verified.{held_by};
ghost use Rattle.objects_rta_valid.specs.resources_chain.Sets.{InRuns};
ghost use Rattle.objects_rta_valid.specs.Places.{Stands};
ghost use Rattle.objects_rta_anchors.specs.Beginnings.{Begins, ListsAt};
ghost use Rattle.objects_rta_anchors.specs.Coverage.{KeepsAt};
ghost use Rattle.objects_rta_anchors.specs.Lent.{AreKept, SignerCovers};

use crate::accessors::{cert_at, end_at};
use crate::anchor::{Anchor, anchor_at};
use crate::covered::{Anchored, issuer_at};
use crate::held::{add_as, keep_as, listed_as, no_as};
use objects_rta_valid::{Cert, PathPlaces, ResourceCert};
use resources_as::{AsBlocks, AsBlocksBuilder};
use std::alloc::{AllocError, Global};

// Those of the AS numbers that the certificate at the place keeps.
fn keep_as_at(
    alloc: Global,
    certs: &[Cert],
    place: usize,
    held: &AsBlocks,
) -> Result<AsBlocks, AllocError>
    ensures { IfOk result (λ kept. (n : ℕ) → InRuns kept n
        ↔ (KeepsAt certs.now As n place × InRuns held.now n)) }
{
    match cert_at(certs, place) {
        Some(cert) => {
            let kept = keep_as(alloc, held, cert.tbs().as_resources())?;
            Ok(kept)
        }
        None => Ok(no_as()),
    }
}

// Those of the AS numbers that each certificate of a path keeps.
fn along_as(
    alloc: Global,
    certs: &[Cert],
    path: PathPlaces<'_>,
    held: AsBlocks,
) -> Result<AsBlocks, AllocError>
    ensures { IfOk result (λ kept. (n : ℕ) → InRuns kept n
        ↔ (Each (KeepsAt certs.now As n) path.entry × InRuns held n)) }
{
    let mut path = path;
    let mut kept = held;
    while let Some(place) = path.next() {
        kept = keep_as_at(alloc, certs, place, &kept)?;
    }
    Ok(kept)
}

// The AS numbers that the certificate at the place lists.
fn listed_as_at(certs: &[Cert], place: usize) -> Result<AsBlocks, AllocError>
    ensures { IfOk result (λ set. (n : ℕ)
        → InRuns set n ↔ ListsAt certs.now As n place) }
{
    match cert_at(certs, place) {
        Some(cert) => {
            let set = listed_as(cert.tbs().as_resources())?;
            Ok(set)
        }
        None => Ok(no_as()),
    }
}

// The AS numbers that an authority holds, by its number.
fn issued_as(issuers: &[ResourceCert], number: usize) -> Result<AsBlocks, AllocError>
    ensures { IfOk result (λ set. (n : ℕ) → InRuns set n
        ↔ Stands issuers.now number (λ r. held_by r.holder As n)) }
{
    match issuer_at(issuers, number) {
        Some(issuer) => {
            let set = issuer.as_resources().clone()?;
            Ok(set)
        }
        None => Ok(no_as()),
    }
}

// The AS numbers with which a path begins that is anchored so and ends at that place.
fn begin_as(
    certs: &[Cert],
    issuers: &[ResourceCert],
    anchor: Anchor,
    last: usize,
) -> Result<AsBlocks, AllocError>
    ensures { IfOk result (λ set. (n : ℕ) → InRuns set n
        ↔ Begins certs.now issuers.now As n anchor last) }
{
    match anchor {
        Anchor::Open => Ok(no_as()),
        Anchor::Locator => listed_as_at(certs, last),
        Anchor::Issuer(number) => issued_as(issuers, number),
    }
}

// The AS numbers that the path of that signer covers.
fn covered_as(alloc: Global, anchored: &Anchored<'_>, signer: usize) -> Result<AsBlocks, AllocError>
    requires kept { AreKept anchored.now }
    requires inside { signer < length anchored.now.paths.now.paths }
    ensures { IfOk result (λ set. (n : ℕ)
        → InRuns set n ↔ SignerCovers anchored.now As n signer) }
{
    let last = end_at(anchored.ends, signer);
    let anchor = anchor_at(anchored.anchors, signer);
    let path = anchored.paths.path(signer);
    let held = begin_as(anchored.certs, anchored.issuers, anchor, last)?;
    let kept = along_as(alloc, anchored.certs, path, held)?;
    Ok(kept)
}

/// The AS numbers that some path covers.
pub(crate) fn gather_as(alloc: Global, anchored: &Anchored<'_>) -> Result<AsBlocks, AllocError>
    requires { AreKept anchored.now }
    ensures { IfOk result (λ set. (n : ℕ) → InRuns set n
        ↔ ((signer : ℕ) × SignerCovers anchored.now As n signer)) }
{
    let mut all = AsBlocksBuilder::new(alloc);
    for signer in 0..anchored.paths.len() {
        let covered = covered_as(alloc, anchored, signer)?;
        add_as(&mut all, &covered)?;
    }
    let set = all.finalize(alloc)?;
    Ok(set)
}
