//! What lines tell, as a walk finds it.

ghost use Rattle.std.specs.Prelude.{◌≡◌, [], map, IfOk, OnOk};
ghost use Rattle.rpki_rules.specs.Attests.{WitnessValue};
ghost use Rattle.rpki_rules.specs.Report.{IsReportOf};
ghost use Rattle.rpki_rules.specs.Views.{origin_of, provision_of, refusal_of, witness_of};
ghost use Rattle.rpki_walk.specs.Alike.{IsPrinted};
ghost use Rattle.rpki_walk.specs.Facts.{Gains, Refuses, ShownBy};
ghost use Rattle.rpki_walk.specs.Walked.{has_lines};

use crate::repository::Repository;
use bytes::Bytes;
use rpki_rules::{Cause, Origin, Provision, Refusal, Report, Witness};
use std::alloc::{AllocError, Global};

/// What was found so far, in the order of the walk.
#[derive(Drop)]
pub(crate) struct LinesFound {
    pub(crate) origins: Vec<Origin>,
    pub(crate) provisions: Vec<Provision>,
    pub(crate) refusals: Vec<Refusal>,
}

impl LinesFound {
    pub(crate) fn new(alloc: Global) -> Self
        ensures origins { result.origins.items ≡ [] }
        ensures provisions { result.provisions.items ≡ [] }
        ensures refusals { result.refusals.items ≡ [] }
    {
        LinesFound {
            origins: Vec::new(alloc),
            provisions: Vec::new(alloc),
            refusals: Vec::new(alloc),
        }
    }

    /// What has this name is refused.
    pub(crate) fn refuse(&mut self, name: &Bytes, why: Cause) -> Result<(), AllocError>
        ensures { OnOk result (Gains IsPrinted (has_lines self.old) (λ x. Refuses name.now why ≡ x)
            (has_lines self.new)) }
    {
        self.refusals.push(Refusal::new(name.clone()?, why))?;
        Ok(())
    }

    /// An object is good, and attests this.
    pub(crate) fn show<S: Repository>(
        &mut self,
        repository: &S,
        payload: &S::Payload,
    ) -> Result<(), AllocError>
        ensures { OnOk result ((t : WitnessValue) → Gains IsPrinted (has_lines self.old)
            (ShownBy t (S.payload payload.now)) (has_lines self.new)) }
    {
        repository.add_origins(payload, &mut self.origins)?;
        repository.add_provisions(payload, &mut self.provisions)?;
        Ok(())
    }

    /// The report of it, with these witnesses.
    pub(crate) fn report(self, alloc: Global, witnesses: Vec<Witness>) -> Result<Report, AllocError>
        ensures { IfOk result (IsReportOf (map origin_of self.origins.items)
            (map provision_of self.provisions.items) (map refusal_of self.refusals.items)
            (map witness_of witnesses.items)) }
    {
        let report = Report::new(
            alloc,
            self.origins,
            self.provisions,
            self.refusals,
            witnesses,
        )?;
        Ok(report)
    }
}
