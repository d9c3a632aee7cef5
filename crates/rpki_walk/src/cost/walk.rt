//! The walk from chains to longer ones, each counted, as long as the budget lasts.

ghost use Rattle.std.specs.Prelude.{◌≡◌, ◌<◌, ◌≤◌, ◌↔◌, ◌∷◌, [], ℕ, List, length, IfOk};
ghost use Rattle.rpki_rules.specs.Words.{Mem, NoRepeat};
ghost use Rattle.rpki_walk.specs.Repository.{locator_at};
ghost use Rattle.rpki_walk.specs.Tallied.{Counts, CountsFrom, IsOf};

use crate::chains::{Outcome, classify, with_first};
use crate::cost::tally::Tally;
use crate::repository::{AnchorLookup, Repository};
use bytes::Bytes;
use rpki_rules::sorted::sort_once;
use std::alloc::{AllocError, Global};

// An accepted chain that is counted with all longer ones.
#[derive(Drop)]
struct Counted<'a> {
    // The lookup keys of the authorities above its last certificate, the nearest to that first.
    above: &'a [Bytes],
    // The subject key identifiers of its certificates, the last first.
    keys: &'a [Bytes],
    // The lookup key of its last certificate.
    uri: &'a Bytes,
}

// The lookup keys, each once.
fn each_once(alloc: Global, keys: &[Bytes]) -> Result<Vec<Bytes>, AllocError>
    ensures same { IfOk result (λ v. (key : List ℕ) → Mem v.items key ↔ Mem keys.now key) }
    ensures apart { IfOk result (λ v. NoRepeat v.items) }
{
    let mut all = Vec::with_capacity(alloc, keys.len())?;
    for key in keys {
        all.push(key.clone()?)?;
    }
    sort_once(&mut all)?;
    Ok(all)
}

// Counts an accepted chain with this last certificate and all longer ones, until the budget is spent. Whether all were
// counted.
fn count_from<S: Repository>(
    alloc: Global,
    repository: &mut S,
    tally: &mut Tally,
    chain: &Counted<'_>,
    ca: &S::Authority,
) -> Result<bool, AllocError>
    requires { length chain.now.keys.now ≤ (S.world repository.old).depth }
    ensures facts { IfOk result (CountsFrom (S.world repository.old) chain.now.above.now
        chain.now.keys.now chain.now.uri.now (S.cert ca.now) (S.sets ca.now) tally.old
        tally.new) }
    ensures budget { tally.new.budget ≡ tally.old.budget }
    ensures same { S.world repository.new ≡ S.world repository.old }
    ensures lender { S.lender repository.new ≡ S.lender repository.old }
{
    if !tally.add(chain.above)? {
        return Ok(false);
    }
    let Some(point) = repository.read_point(alloc, ca)? else {
        return Ok(true);
    };
    let files = each_once(alloc, repository.uris(ca, &point))?;
    let above = with_first(alloc, chain.uri, chain.above)?;
    for file in &files {
        match classify(alloc, repository, ca, &point, chain.keys, file.as_slice())? {
            Outcome::Nothing => {}
            Outcome::Refused(_why) => {}
            Outcome::Attests(_payload) => {}
            Outcome::Child(child, key) => {
                let more = with_first(alloc, &key, chain.keys)?;
                let below = Counted {
                    above: &above,
                    keys: &more,
                    uri: file,
                };
                if !count_from(alloc, repository, tally, &below, &child)? {
                    return Ok(false);
                }
            }
        }
    }
    Ok(true)
}

// Counts all chains from a trust anchor on, until the budget is spent. Whether all were counted.
fn count_at_anchor<S: Repository>(
    alloc: Global,
    repository: &mut S,
    tally: &mut Tally,
    uri: &Bytes,
    anchor: &S::Authority,
) -> Result<bool, AllocError>
    requires { 1 ≤ (S.world repository.old).depth }
    ensures facts { IfOk result (CountsFrom (S.world repository.old) []
        ((S.cert anchor.now).tbs.subject_key_identifier ∷ []) uri.now (S.cert anchor.now)
        (S.sets anchor.now) tally.old tally.new) }
    ensures budget { tally.new.budget ≡ tally.old.budget }
    ensures same { S.world repository.new ≡ S.world repository.old }
    ensures lender { S.lender repository.new ≡ S.lender repository.old }
{
    let keys = [repository.key_identifier(alloc, anchor)?];
    let chain = Counted {
        above: &[],
        keys: &keys,
        uri,
    };
    count_from(alloc, repository, tally, &chain, anchor)
}

/// Counts all chains of the locator at that place, until the budget is spent. Whether all were counted.
pub(crate) fn count_at<S: Repository>(
    alloc: Global,
    repository: &mut S,
    tally: &mut Tally,
    at: usize,
) -> Result<bool, AllocError>
    requires within { at < length (S.world repository.old).locators }
    requires deep { 1 ≤ (S.world repository.old).depth }
    ensures facts { IfOk result (Counts
        (IsOf (S.world repository.old) (locator_at (S.world repository.old) at)) tally.old
        tally.new) }
    ensures budget { tally.new.budget ≡ tally.old.budget }
    ensures same { S.world repository.new ≡ S.world repository.old }
    ensures lender { S.lender repository.new ≡ S.lender repository.old }
{
    match repository.read_locator(alloc, at)? {
        AnchorLookup::Unreadable => Ok(true),
        AnchorLookup::Nowhere => Ok(true),
        AnchorLookup::Anchor(uri, anchor) => count_at_anchor(
            alloc, repository, tally, &uri, &anchor,
        ),
    }
}
