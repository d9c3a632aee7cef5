//! The paths of an attestation's signers, and what is tested of them.

ghost use Rattle.std.specs.Prelude.{◌↔◌, IfOk, IsTrue, MatchOption, List, ℕ};
ghost use Rattle.objects_rta_valid.specs.Keys.{AreSame};
ghost use Rattle.objects_rta_valid.specs.Paths.{AreAllOn};
ghost use Rattle.objects_rta_valid.specs.Validity.{AreItsPaths, sids};
ghost use Rattle.objects_rta_valid.specs.Answered.{IsWalk, WalksTo};

use crate::errors::{RtaError, RtaTest};
use crate::judge::{certs_of, signers_of};
use crate::keys::{keys_of, lend_keys, lend_nodes, sids_of};
use crate::paths::{Paths, are_same_keys, paths};
use objects_rta::Rta;
use std::alloc::{AllocError, Global};

// Whether the signers and the subject keys have the same identifiers, each once.
fn are_keys_same(alloc: Global, rta: &Rta) -> Result<bool, AllocError>
    ensures { IfOk result (λ same. IsTrue same ↔ AreSame (sids rta.now) rta.now.content.keys) }
{
    let infos = signers_of(rta);
    let content = rta.content();
    let sids = sids_of(alloc, infos)?;
    let signers = lend_keys(alloc, sids.as_slice())?;
    let keys = lend_keys(alloc, content.subject_keys())?;
    are_same_keys(alloc, signers.as_slice(), keys.as_slice())
}

// The only path of each signer, if each has one.
fn only_paths(alloc: Global, rta: &Rta) -> Result<Option<Paths>, AllocError>
    ensures { IfOk result (λ found. MatchOption found
        ((paths : List (List ℕ)) → AreItsPaths rta.now paths → ⊥)
        (λ p. IsWalk rta.now p)) }
{
    let certs = certs_of(rta);
    let infos = signers_of(rta);
    let keys = keys_of(alloc, certs)?;
    let nodes = lend_nodes(alloc, keys.as_slice())?;
    let sids = sids_of(alloc, infos)?;
    let signers = lend_keys(alloc, sids.as_slice())?;
    paths(alloc, nodes.as_slice(), signers.as_slice())
}

// Whether each certificate is on a path.
fn are_all_on(paths: &Paths) -> bool
    ensures { IsTrue result ↔ AreAllOn paths.now.paths paths.now.count }
{
    let off = paths.first_off();
    off.is_none()
}

/// The only path of each signer, where the signers and the subject keys are the same, each signer has one, and each
/// certificate is on a path; else the first of these that fails.
pub(crate) fn walk(alloc: Global, rta: &Rta) -> Result<Paths, RtaError>
    ensures { WalksTo rta.now result }
{
    let is_same = are_keys_same(alloc, rta)?;
    if !is_same {
        return Err(RtaError::Test(RtaTest::Keys));
    }
    let found = only_paths(alloc, rta)?;
    let Some(paths) = found else {
        return Err(RtaError::Test(RtaTest::Paths));
    };
    if !are_all_on(&paths) {
        drop(paths);
        return Err(RtaError::Test(RtaTest::Certificates));
    }
    Ok(paths)
}
