//! The walk from chains to longer ones, of which no two that end alike are walked.

ghost use Rattle.std.specs.Prelude.{◌≡◌, ◌≤◌, ◌++◌, [], drop, length, IfOk, IfSome, OnOk};
ghost use Rattle.rpki_rules.specs.Words.{Mem};
ghost use Rattle.rpki_rules.specs.Kinds.{InSet};
ghost use Rattle.rpki_rules.specs.Points.{files};
ghost use Rattle.rpki_walk.specs.Facts.{Classified};
ghost use Rattle.rpki_walk.specs.Remembered.{IsRemembered, Remembers};
ghost use Rattle.rpki_walk.specs.Walked.{Continues, MeetsFile, WalksLines, keys_at};

use crate::chains::{Outcome, outcome_of, with_first};
use crate::lines::found::LinesFound;
use crate::lines::remembered::Remembered;
use crate::reach::naming::Naming;
use crate::repository::{FileKind, Repository};
use bytes::Bytes;
use resources::set::ResourceSet;
use rpki_rules::Cause;
use std::alloc::{AllocError, Global};

/// What a walk for lines has found and remembers.
#[derive(Drop)]
pub(crate) struct LinesWalk {
    pub(crate) lines: LinesFound,
    // The keys of all certificates that were issued as they should, in the order of the walk.
    pub(crate) met: Vec<Bytes>,
    pub(crate) before: Remembered,
}

// A copy of the list.
fn copy_of(alloc: Global, list: &[Bytes]) -> Result<Vec<Bytes>, AllocError>
    ensures { IfOk result (λ v. v.items ≡ list.now) }
{
    let mut all = Vec::with_capacity(alloc, list.len())?;
    for one in list {
        all.push(one.clone()?)?;
    }
    Ok(all)
}

// Adds the key of what a file is to those that were met, where it is a certificate.
fn meet<S: Repository>(
    alloc: Global,
    repository: &S,
    met: &mut Vec<Bytes>,
    kind: &FileKind<S::Authority, S::Payload>,
) -> Result<(), AllocError>
    ensures { OnOk result (met.new.items ≡ met.old.items ++ keys_at S.cert kind.now) }
{
    if let FileKind::Child(child) = kind {
        met.push(repository.key_identifier(alloc, child)?)?;
    }
    Ok(())
}

impl LinesWalk {
    pub(crate) fn new(alloc: Global) -> Self
        ensures origins { result.lines.origins.items ≡ [] }
        ensures provisions { result.lines.provisions.items ≡ [] }
        ensures refusals { result.lines.refusals.items ≡ [] }
        ensures walked { result.before.walked.items ≡ [] }
    {
        LinesWalk {
            lines: LinesFound::new(alloc),
            met: Vec::new(alloc),
            before: Remembered::new(alloc),
        }
    }

    // How many keys were met.
    fn met_count(&self) -> usize
        ensures { result ≡ length self.now.met.items }
    {
        self.met.as_slice().len()
    }

    // Since when the keys were met that are met below a chain which was walked and ends like this one, whose last certificate
    // is this one.
    fn find<S: Naming>(
        &self,
        repository: &S,
        uri: &Bytes,
        keys: &[Bytes],
        ca: &S::Authority,
    ) -> Result<Option<usize>, AllocError>
        ensures { IfOk result (λ from. IfSome from (IsRemembered self.now.before.walked.items
            self.now.met.items uri.now keys.now (S.sets ca.now))) }
    {
        let held = repository.held(ca)?;
        Ok(self.before.find(self.met.as_slice(), uri, keys, &held))
    }

    // Remembers that all below this chain was walked, where the keys that are met there were met since then.
    fn remember(
        &mut self,
        alloc: Global,
        uri: &Bytes,
        held: ResourceSet,
        keys: &[Bytes],
        from: usize,
    ) -> Result<(), AllocError>
        ensures remembered { OnOk result (Remembers self.old.before.walked.items
            self.new.before.walked.items uri.now held keys.now from (length self.old.met.items)) }
        ensures lines { self.new.lines ≡ self.old.lines }
        ensures met { self.new.met ≡ self.old.met }
    {
        let to = self.met_count();
        let own = copy_of(alloc, keys)?;
        self.before.push(uri, held, own, from, to)
    }

    // What is to be done with a file, the chain's keys and depth looked at; the key of a certificate is added to those that
    // were met.
    fn classify_met<S: Repository>(
        &mut self,
        alloc: Global,
        repository: &mut S,
        ca: &S::Authority,
        p: &S::Point,
        keys: &[Bytes],
        uri: &[u8],
    ) -> Result<Outcome<S::Authority, S::Payload>, AllocError>
        requires { Mem (files (S.cert ca.now) (S.point p.now).manifest) uri.now }
        ensures class { IfOk result (Classified S.cert S.sets S.payload (S.world repository.old)
            (InSet (S.sets ca.now)) (S.cert ca.now) (S.point p.now) keys.now uri.now) }
        ensures keyed { OnOk result (MeetsFile (S.world repository.old) (InSet (S.sets ca.now))
            (S.cert ca.now) (S.point p.now) uri.now
            (drop (length self.old.met.items) self.new.met.items)) }
        ensures grown { OnOk result (Continues self.old.met.items self.new.met.items) }
        ensures lines { self.new.lines ≡ self.old.lines }
        ensures before { self.new.before ≡ self.old.before }
        ensures same { S.world repository.new ≡ S.world repository.old }
        ensures lender { S.lender repository.new ≡ S.lender repository.old }
    {
        let kind = repository.read_file(alloc, ca, p, uri)?;
        meet(alloc, repository, &mut self.met, &kind)?;
        outcome_of(alloc, repository, keys, kind)
    }
}

/// Finds the lines of an accepted chain, with its keys, the last first, and its last certificate with its lookup key, and
/// of all longer ones; of one that ends like another, which was walked, they were found. Answers where the keys that are
/// met there begin in the list of those that were met.
pub(crate) fn lines_from<S: Naming>(
    alloc: Global,
    repository: &mut S,
    walk: &mut LinesWalk,
    keys: &[Bytes],
    uri: &Bytes,
    ca: &S::Authority,
) -> Result<usize, AllocError>
    requires { length keys.now ≤ (S.world repository.old).depth }
    ensures facts { IfOk result (WalksLines (S.world repository.old) keys.now uri.now
        (S.cert ca.now) (S.sets ca.now) walk.old walk.new) }
    ensures same { S.world repository.new ≡ S.world repository.old }
    ensures lender { S.lender repository.new ≡ S.lender repository.old }
{
    if let Some(from) = walk.find(repository, uri, keys, ca)? {
        return Ok(from);
    }
    let mut from = walk.met_count();
    let Some(point) = repository.read_point(alloc, ca)? else {
        walk.lines.refuse(uri, Cause::Point)?;
        return Ok(from);
    };
    for file in repository.uris(ca, &point) {
        match walk.classify_met(alloc, repository, ca, &point, keys, file.as_slice())? {
            Outcome::Nothing => {}
            Outcome::Refused(cause) => walk.lines.refuse(file, cause)?,
            Outcome::Attests(payload) => walk.lines.show(repository, &payload)?,
            Outcome::Child(child, key) => {
                let more = with_first(alloc, &key, keys)?;
                let since = lines_from(alloc, repository, walk, &more, file, &child)?;
                from = from.min(since);
            }
        }
    }
    let held = repository.held(ca)?;
    walk.remember(alloc, uri, held, keys, from)?;
    Ok(from)
}
