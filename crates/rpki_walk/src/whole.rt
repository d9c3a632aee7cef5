//! All that a walk attests and refuses.

ghost use Rattle.std.specs.Prelude.{◌≡◌, [], IfOk};
ghost use Rattle.rpki_walk.specs.Lines.{has_found, IsLine};
ghost use Rattle.rpki_rules.specs.Report.{IsReport};

use crate::anchors::walk_all;
use crate::lines::found::LinesFound;
use crate::repository::Repository;
use crate::visitor::{Chain, Visitor};
use bytes::Bytes;
use rpki_rules::{Cause, Path, Report, Witness};
use std::alloc::{AllocError, Global};
use std::rc::Rc;

// What was found so far, in the order of the walk: what lines tell, and of each good object by which chain.
#[derive(Drop)]
struct Findings {
    lines: LinesFound,
    witnesses: Vec<Witness>,
}

impl<S: Repository> Visitor<S> for Findings {
    ghost has = { has_found };

    ghost wants = { IsLine };

    ghost uris = { λ _. [] };

    fn visit(
        &mut self,
        _alloc: Global,
        _repository: &mut S,
        _chain: &Chain<'_>,
        _ca: &S::Authority,
    ) -> Result<(), AllocError> {
        Ok(())
    }

    fn refuse(&mut self, name: &Bytes, why: Cause) -> Result<(), AllocError> {
        self.lines.refuse(name, why)
    }

    fn show(
        &mut self,
        repository: &S,
        path: &Rc<Path>,
        object: &Bytes,
        payload: S::Payload,
    ) -> Result<(), AllocError> {
        self.lines.show(repository, &payload)?;
        self.witnesses
            .push(Witness::new(path.clone()?, object.clone()?))?;
        Ok(())
    }
}

/// The report of a bundle: all that accepted chains attest, and all that the rules refuse.
pub fn walk<S: Repository>(alloc: Global, repository: &mut S) -> Result<Report, AllocError>
    ensures report { IfOk result (IsReport (S.world repository.old)) }
    ensures same { S.world repository.new ≡ S.world repository.old }
    ensures lender { S.lender repository.new ≡ S.lender repository.old }
{
    let mut found = Findings {
        lines: LinesFound::new(alloc),
        witnesses: Vec::new(alloc),
    };
    walk_all(alloc, repository, &mut found)?;
    found.lines.report(alloc, found.witnesses)
}
