//! The addresses that paths cover.

ghost use Rattle.std.specs.Prelude.{◌≡◌, ◌↔◌, ℕ, IfOk, MatchOption, None, Some, ◌<◌, length, slice_get};
ghost use Rattle.objects_rta_valid.specs.certs_basics.Lists.{Each};
ghost use Rattle.objects_rta_valid.specs.certs_extension.Kinds.{claim};
ghost use Rattle.objects_rta_valid.specs.certs_extension.Verified.{held_by};
ghost use Rattle.objects_rta_valid.specs.resources_chain.Sets.{InRuns};
ghost use Rattle.objects_rta_valid.specs.Places.{Stands};
ghost use Rattle.objects_rta_anchors.specs.Beginnings.{Begins, ListsAt, kind_of};
ghost use Rattle.objects_rta_anchors.specs.Coverage.{KeepsAt};
ghost use Rattle.objects_rta_anchors.specs.Lent.{AreKept, SignerCovers};

use crate::accessors::{cert_at, end_at};
use crate::anchor::{Anchor, anchor_at};
use crate::held::{Family, add_ip, keep_ip, listed_ip, no_ip};
use objects_rta_valid::{Cert, PathPlaces, Paths, ResourceCert};
use resources_ip::{IpBlocks, IpBlocksBuilder, IpResources};
use std::alloc::{AllocError, Global};

/// The paths of a valid attestation, where they end and how they are anchored, with the certificates that they go through and
/// the authorities that were supplied.
#[derive(Drop)]
pub(crate) struct Anchored<'a> {
    pub(crate) certs: &'a [Cert],
    pub(crate) issuers: &'a [ResourceCert],
    pub(crate) paths: &'a Paths,
    pub(crate) ends: &'a [usize],
    pub(crate) anchors: &'a [Anchor],
}

// What a certificate says of the family.
fn ip_of(cert: &Cert, family: Family) -> &IpResources
    ensures { result.now ≡ claim cert.now (kind_of family) }
{
    match family {
        Family::V4 => cert.tbs().v4_resources(),
        Family::V6 => cert.tbs().v6_resources(),
    }
}

// The addresses of the family that an authority holds.
fn held_ip(issuer: &ResourceCert, family: Family) -> &IpBlocks
    ensures { (n : ℕ) → InRuns result.now n ↔ held_by issuer.now.holder (kind_of family) n }
{
    match family {
        Family::V4 => issuer.v4_resources(),
        Family::V6 => issuer.v6_resources(),
    }
}

/// The authority of that number, if there is one.
pub(crate) fn issuer_at(issuers: &[ResourceCert], number: usize) -> Option<&ResourceCert>
    ensures { MatchOption result (slice_get issuers.now number ≡ None)
        (λ r. slice_get issuers.now number ≡ Some r.now) }
{
    issuers.get(number)
}

// Those of the addresses that the certificate at the place keeps.
fn keep_ip_at(
    alloc: Global,
    certs: &[Cert],
    place: usize,
    held: &IpBlocks,
    family: Family,
) -> Result<IpBlocks, AllocError>
    ensures { IfOk result (λ kept. (n : ℕ) → InRuns kept n
        ↔ (KeepsAt certs.now (kind_of family) n place × InRuns held.now n)) }
{
    match cert_at(certs, place) {
        Some(cert) => {
            let kept = keep_ip(alloc, held, ip_of(cert, family))?;
            Ok(kept)
        }
        None => Ok(no_ip()),
    }
}

// Those of the addresses that each certificate of a path keeps.
fn along_ip(
    alloc: Global,
    certs: &[Cert],
    path: PathPlaces<'_>,
    held: IpBlocks,
    family: Family,
) -> Result<IpBlocks, AllocError>
    ensures { IfOk result (λ kept. (n : ℕ) → InRuns kept n
        ↔ (Each (KeepsAt certs.now (kind_of family) n) path.entry × InRuns held n)) }
{
    let mut path = path;
    let mut kept = held;
    while let Some(place) = path.next() {
        kept = keep_ip_at(alloc, certs, place, &kept, family)?;
    }
    Ok(kept)
}

// The addresses that the certificate at the place lists.
fn listed_ip_at(certs: &[Cert], place: usize, family: Family) -> Result<IpBlocks, AllocError>
    ensures { IfOk result (λ set. (n : ℕ)
        → InRuns set n ↔ ListsAt certs.now (kind_of family) n place) }
{
    match cert_at(certs, place) {
        Some(cert) => {
            let set = listed_ip(ip_of(cert, family))?;
            Ok(set)
        }
        None => Ok(no_ip()),
    }
}

// The addresses that an authority holds, by its number.
fn issued_ip(
    issuers: &[ResourceCert],
    number: usize,
    family: Family,
) -> Result<IpBlocks, AllocError>
    ensures { IfOk result (λ set. (n : ℕ) → InRuns set n
        ↔ Stands issuers.now number (λ r. held_by r.holder (kind_of family) n)) }
{
    match issuer_at(issuers, number) {
        Some(issuer) => {
            let set = held_ip(issuer, family).clone()?;
            Ok(set)
        }
        None => Ok(no_ip()),
    }
}

// The addresses with which a path begins that is anchored so and ends at that place.
fn begin_ip(
    certs: &[Cert],
    issuers: &[ResourceCert],
    anchor: Anchor,
    last: usize,
    family: Family,
) -> Result<IpBlocks, AllocError>
    ensures { IfOk result (λ set. (n : ℕ) → InRuns set n
        ↔ Begins certs.now issuers.now (kind_of family) n anchor last) }
{
    match anchor {
        Anchor::Open => Ok(no_ip()),
        Anchor::Locator => listed_ip_at(certs, last, family),
        Anchor::Issuer(number) => issued_ip(issuers, number, family),
    }
}

// The addresses that the path of that signer covers.
fn covered_ip(
    alloc: Global,
    anchored: &Anchored<'_>,
    signer: usize,
    family: Family,
) -> Result<IpBlocks, AllocError>
    requires kept { AreKept anchored.now }
    requires inside { signer < length anchored.now.paths.now.paths }
    ensures { IfOk result (λ set. (n : ℕ)
        → InRuns set n ↔ SignerCovers anchored.now (kind_of family) n signer) }
{
    let last = end_at(anchored.ends, signer);
    let anchor = anchor_at(anchored.anchors, signer);
    let path = anchored.paths.path(signer);
    let held = begin_ip(anchored.certs, anchored.issuers, anchor, last, family)?;
    let kept = along_ip(alloc, anchored.certs, path, held, family)?;
    Ok(kept)
}

/// The addresses that some path covers.
pub(crate) fn gather_ip(
    alloc: Global,
    anchored: &Anchored<'_>,
    family: Family,
) -> Result<IpBlocks, AllocError>
    requires { AreKept anchored.now }
    ensures { IfOk result (λ set. (n : ℕ) → InRuns set n
        ↔ ((signer : ℕ) × SignerCovers anchored.now (kind_of family) n signer)) }
{
    let mut all = IpBlocksBuilder::new(alloc);
    for signer in 0..anchored.paths.len() {
        let covered = covered_ip(alloc, anchored, signer, family)?;
        add_ip(&mut all, &covered)?;
    }
    let set = all.finalize(alloc)?;
    Ok(set)
}
