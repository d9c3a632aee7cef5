//! The report.

ghost use Rattle.std.specs.Prelude.{◌≡◌, map, IfOk};
ghost use Rattle.rpki_rules.specs.Views.{origin_of, provision_of, customer_of, refusal_of, witness_of};
ghost use Rattle.rpki_rules.specs.Report.{IsReportOf};

use crate::customer::{Customer, Provision, gather};
use crate::origin::Origin;
use crate::refusal::Refusal;
use crate::sorted::sort_once;
use crate::witness::Witness;
use std::alloc::{AllocError, Global};
use std::marker::Model;

/// What a walk attests and refuses. Each list is in order, without repeats.
#[derive(Debug, Drop)]
pub struct Report {
    origins: Vec<Origin>,
    customers: Vec<Customer>,
    refusals: Vec<Refusal>,
    witnesses: Vec<Witness>,
}

impl Model for Report {
    ghost use Rattle.std.specs.Prelude.{map};
    ghost use Rattle.rpki_rules.specs.Views.{origin_of, customer_of, refusal_of, witness_of};
    ghost use Rattle.rpki_rules.specs.Report.{ReportValue};

    ghost Value = { ReportValue };

    ghost view = { λ r. record {
      origins = map origin_of r.origins.items;
      customers = map customer_of r.customers.items;
      refusals = map refusal_of r.refusals.items;
      witnesses = map witness_of r.witnesses.items;
    } };
}

impl Report {
    /// The report of what was found, in any order and any number of times.
    pub fn new(
        alloc: Global,
        mut origins: Vec<Origin>,
        mut provisions: Vec<Provision>,
        mut refusals: Vec<Refusal>,
        mut witnesses: Vec<Witness>,
    ) -> Result<Self, AllocError>
        ensures { IfOk result (IsReportOf
            (map origin_of origins.items) (map provision_of provisions.items)
            (map refusal_of refusals.items) (map witness_of witnesses.items)) }
    {
        sort_once(&mut origins)?;
        sort_once(&mut provisions)?;
        sort_once(&mut refusals)?;
        sort_once(&mut witnesses)?;
        let customers = gather(alloc, &provisions)?;
        Ok(Report {
            origins,
            customers,
            refusals,
            witnesses,
        })
    }

    /// What is attested by ROAs, by family, address, length, greatest length and AS number.
    pub fn origins(&self) -> &[Origin]
        ensures { map origin_of result.now ≡ self.now.origins }
    {
        &self.origins
    }

    /// The customers that ASPAs attest, each with all its providers, by number.
    pub fn customers(&self) -> &[Customer]
        ensures { map customer_of result.now ≡ self.now.customers }
    {
        &self.customers
    }

    /// What is refused, by name and cause.
    pub fn refusals(&self) -> &[Refusal]
        ensures { map refusal_of result.now ≡ self.now.refusals }
    {
        &self.refusals
    }

    /// By which chains objects attest something.
    pub fn witnesses(&self) -> &[Witness]
        ensures { map witness_of result.now ≡ self.now.witnesses }
    {
        &self.witnesses
    }
}
