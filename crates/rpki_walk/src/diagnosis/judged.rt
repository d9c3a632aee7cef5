//! What is wrong at the ends of accepted chains.

ghost use Rattle.std.specs.Prelude.{◌≡◌, [], ℕ, List, OnOk, IfOk};
ghost use Rattle.rpki_rules.specs.Words.{Mem};
ghost use Rattle.rpki_rules.specs.Kinds.{InSet};
ghost use Rattle.rpki_rules.specs.Points.{files};
ghost use Rattle.rpki_rules.specs.Views.{path_of};
ghost use Rattle.rpki_rules.specs.Diagnoses.{DiagnosesEnd, TellsEnd};
ghost use Rattle.rpki_rules.specs.DiagnosisViews.{diagnosis_of};
ghost use Rattle.rpki_walk.specs.Diagnosed.{Adds, DiagnosesAt, IsOnly, TellsAt, has_diagnosed, told_of, IsDiagnosed};

use crate::diagnosis::asked::Diagnosing;
use crate::visitor::{Chain, Visitor};
use bytes::Bytes;
use rpki_rules::reason::{Diagnosis, Reason};
use rpki_rules::{Cause, Path};
use std::alloc::{AllocError, Global};
use std::rc::Rc;

/// What was found so far, in the order of the walk.
#[derive(Drop)]
pub(crate) struct Judged {
    pub(crate) found: Vec<Diagnosis>,
}

// What is wrong with a file of a point, if anything is.
fn judged_file<S: Diagnosing>(
    alloc: Global,
    repository: &mut S,
    chain: &Chain<'_>,
    ca: &S::Authority,
    point: &S::Point,
    file: &Bytes,
) -> Result<Option<Diagnosis>, AllocError>
    requires { Mem (files (S.cert ca.now) (S.point point.now).manifest) file.now }
    ensures wrong { IfOk result (IsOnly diagnosis_of (DiagnosesAt (S.world repository.old)
        (InSet (S.sets ca.now)) chain.now.keys.now (path_of chain.now.path.now.value)
        (S.cert ca.now) (S.point point.now) file.now)) }
    ensures told { IfOk result (IsOnly told_of (TellsAt (S.world repository.old)
        (InSet (S.sets ca.now)) chain.now.keys.now (path_of chain.now.path.now.value)
        (S.cert ca.now) (S.point point.now) file.now)) }
    ensures same { S.world repository.new ≡ S.world repository.old }
    ensures lender { S.lender repository.new ≡ S.lender repository.old }
{
    match repository.file_reason(alloc, ca, point, chain.keys, file.as_slice())? {
        None => Ok(None),
        Some(reason) => Ok(Some(Diagnosis::new(
            file.clone()?,
            chain.path.clone()?,
            Reason::File(reason),
        ))),
    }
}

// Adds what is wrong with the files of a point that was read of the authority.
fn judge_files<S: Diagnosing>(
    alloc: Global,
    repository: &mut S,
    found: &mut Vec<Diagnosis>,
    chain: &Chain<'_>,
    ca: &S::Authority,
    point: &S::Point,
) -> Result<(), AllocError>
    requires { S.listed point.now ≡ files (S.cert ca.now) (S.point point.now).manifest }
    ensures wrong { OnOk result (Adds diagnosis_of found.old.items (λ d. (u : List ℕ)
        × Mem (files (S.cert ca.now) (S.point point.now).manifest) u
        × DiagnosesAt (S.world repository.old) (InSet (S.sets ca.now)) chain.now.keys.now
        (path_of chain.now.path.now.value) (S.cert ca.now) (S.point point.now) u d)
        found.new.items) }
    ensures told { OnOk result (Adds told_of found.old.items (λ t. (u : List ℕ)
        × Mem (files (S.cert ca.now) (S.point point.now).manifest) u
        × TellsAt (S.world repository.old) (InSet (S.sets ca.now)) chain.now.keys.now
        (path_of chain.now.path.now.value) (S.cert ca.now) (S.point point.now) u t)
        found.new.items) }
    ensures same { S.world repository.new ≡ S.world repository.old }
    ensures lender { S.lender repository.new ≡ S.lender repository.old }
{
    for file in repository.uris(ca, point) {
        if let Some(wrong) = judged_file(alloc, repository, chain, ca, point, file)? {
            found.push(wrong)?;
        }
    }
    Ok(())
}

// Adds what is wrong with a point, or with its files.
fn judge_end<S: Diagnosing>(
    alloc: Global,
    repository: &mut S,
    found: &mut Vec<Diagnosis>,
    chain: &Chain<'_>,
    ca: &S::Authority,
) -> Result<(), AllocError>
    ensures wrong { OnOk result (Adds diagnosis_of found.old.items
        (DiagnosesEnd (S.world repository.old) (InSet (S.sets ca.now)) chain.now.keys.now
        (path_of chain.now.path.now.value) chain.now.uri.now (S.cert ca.now)) found.new.items) }
    ensures told { OnOk result (Adds told_of found.old.items
        (λ t. TellsEnd (S.world repository.old) (InSet (S.sets ca.now)) chain.now.keys.now
        (path_of chain.now.path.now.value) chain.now.uri.now (S.cert ca.now) t.diagnosis
        t.numbers) found.new.items) }
    ensures same { S.world repository.new ≡ S.world repository.old }
    ensures lender { S.lender repository.new ≡ S.lender repository.old }
{
    match repository.judged_point(alloc, ca)? {
        Ok(point) => judge_files(alloc, repository, found, chain, ca, &point),
        Err(reason) => {
            let wrong = Diagnosis::new(
                chain.uri.clone()?,
                chain.path.clone()?,
                Reason::Point(reason),
            );
            found.push(wrong)?;
            Ok(())
        }
    }
}

impl<S: Diagnosing> Visitor<S> for Judged {
    ghost has = { has_diagnosed };

    ghost wants = { IsDiagnosed };

    ghost uris = { λ _. [] };

    fn visit(
        &mut self,
        alloc: Global,
        repository: &mut S,
        chain: &Chain<'_>,
        ca: &S::Authority,
    ) -> Result<(), AllocError> {
        judge_end(alloc, repository, &mut self.found, chain, ca)
    }

    fn refuse(&mut self, _name: &Bytes, _why: Cause) -> Result<(), AllocError> {
        Ok(())
    }

    fn show(
        &mut self,
        _repository: &S,
        _path: &Rc<Path>,
        _object: &Bytes,
        _payload: S::Payload,
    ) -> Result<(), AllocError> {
        Ok(())
    }
}
