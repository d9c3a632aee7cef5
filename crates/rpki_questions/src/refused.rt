//! All that is refused, on each chain with its reason, in the order of the printed lines.

ghost use Rattle.std.specs.Prelude.{◌≡◌, IfOk, map, refl};
ghost use Rattle.std.specs.Cmp.{partial_equiv_from_equiv, po};
ghost use Rattle.std.specs.Ordering.{as_partial_cmp};
ghost use Rattle.rpki_rules.specs.Diagnoses.{cause_of as cause_of_reason};
ghost use Rattle.rpki_rules.specs.DiagnosisViews.{AreDiagnoses, numbers_of, reason_of};
ghost use Rattle.rpki_validator.specs.rpki_rules.World.{run_world};
ghost use Rattle.rpki_digests.specs.Fips.{fips};
ghost use Rattle.rpki_questions.specs.Orders.{diagnosed, refused_cmp, refused_eq, refused_equiv, refused_of, refused_ties, refused_total};
ghost use Rattle.rpki_questions.specs.Refused.{AreRefused};

use bytes::Bytes;
use rpki_digests::Fips;
use rpki_reasons::cause_of;
use rpki_rules::sorted::sort_once;
use rpki_validator::reason::{Diagnosis, Reason};
use rpki_validator::{Bundle, Cause, TableVerifier, diagnose, word_of};
use std::alloc::{AllocError, Global};
use std::cmp::Ordering;

/// What is refused, on which chain, and why.
///
/// Refusals are ordered by name, then by the text of the cause, and then by locator and chain.
#[derive(Drop)]
pub(crate) struct Refused {
    diagnosis: Diagnosis,
}

impl Refused {
    /// The locator's name, or the lookup key.
    pub(crate) fn name(&self) -> &Bytes
        ensures { result.now ≡ (refused_of self.now).diagnosis.name }
    {
        self.diagnosis.name()
    }

    /// The cause by which a line tells the reason.
    pub(crate) fn cause(&self) -> Cause
        ensures { result ≡ cause_of_reason (refused_of self.now).diagnosis.reason }
    {
        cause_of(self.diagnosis.reason())
    }

    /// Why it is refused.
    pub(crate) fn reason(&self) -> &Reason
        ensures reason { reason_of result.now ≡ (refused_of self.now).diagnosis.reason }
        ensures numbers { numbers_of result.now ≡ (refused_of self.now).numbers }
    {
        self.diagnosis.reason()
    }

    /// The name of the chain's locator.
    pub(crate) fn locator(&self) -> &Bytes
        ensures { result.now ≡ (refused_of self.now).diagnosis.locator }
    {
        self.diagnosis.locator()
    }

    /// The lookup keys of the chain's certificates.
    pub(crate) fn chain(&self) -> &[Bytes]
        ensures { result.now ≡ (refused_of self.now).diagnosis.chain }
    {
        self.diagnosis.chain()
    }
}

impl PartialEq for Refused {
    ghost eq = { refused_eq };

    ghost laws = { partial_equiv_from_equiv refused_equiv };

    fn eq(&self, other: &Refused) -> bool {
        self.cmp(other) == Ordering::Equal
    }
}

impl Eq for Refused {
    ghost laws = { refused_equiv };
}

impl Ord for Refused {
    ghost cmp = { refused_cmp };

    ghost total = { refused_total };

    ghost matches_partial_cmp = { λ r s. refl };

    ghost matches_eq = { refused_ties };

    fn cmp(&self, other: &Refused) -> Ordering {
        let causes = word_of(self.cause()).cmp(word_of(other.cause()));
        let lines = self.name().cmp(other.name()).then(causes);
        let chains = self.chain().cmp(other.chain());
        lines.then(self.locator().cmp(other.locator()).then(chains))
    }
}

impl PartialOrd for Refused {
    ghost partial_cmp = { as_partial_cmp refused_cmp };

    ghost laws = { po refused_total refused_ties };

    fn partial_cmp(&self, other: &Refused) -> Option<Ordering> {
        Some(self.cmp(other))
    }
}

// What is wrong in the bundle, by locator and chain.
fn diagnoses_of(alloc: Global, bundle: &Bundle) -> Result<Vec<Diagnosis>, AllocError>
    ensures { IfOk result (λ found. AreDiagnoses (run_world fips bundle.now) found.items) }
{
    let mut verifier = TableVerifier::new(bundle, &Fips);
    diagnose(alloc, bundle, &Fips, &mut verifier)
}

// What these are the diagnoses of.
fn refused_by(alloc: Global, diagnoses: Vec<Diagnosis>) -> Result<Vec<Refused>, AllocError>
    ensures { IfOk result (λ found. found.items ≡ map diagnosed diagnoses.items) }
{
    diagnoses
        .into_iter()
        .map(|diagnosis| Refused { diagnosis })
        .collect(alloc)
}

/// All that is refused in the bundle, on each chain once, with its reason.
pub(crate) fn all_refused(alloc: Global, bundle: &Bundle) -> Result<Vec<Refused>, AllocError>
    ensures { IfOk result
        (λ found. AreRefused (run_world fips bundle.now) (map refused_of found.items)) }
{
    let diagnoses = diagnoses_of(alloc, bundle)?;
    let mut found = refused_by(alloc, diagnoses)?;
    sort_once(&mut found)?;
    Ok(found)
}
