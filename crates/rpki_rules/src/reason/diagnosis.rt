//! What is wrong with what, and on which chain.

ghost use Rattle.std.specs.Prelude.{◌≡◌, refl};
ghost use Rattle.std.specs.Cmp.{partial_equiv_from_equiv, po};
ghost use Rattle.std.specs.Ordering.{as_partial_cmp};
ghost use Rattle.rpki_rules.specs.Views.{path_of};
ghost use Rattle.rpki_rules.specs.Diagnoses.{on_chain};
ghost use Rattle.rpki_rules.specs.DiagnosisViews.{reason_of, numbers_of, diagnosis_of, unheld_of, diagnoses_cmp, diagnoses_eq, diagnoses_total, diagnoses_equiv, diagnoses_ties};

use crate::reason::files::FileReason;
use crate::reason::locators::LocatorReason;
use crate::reason::points::PointReason;
use crate::witness::Path;
use bytes::Bytes;
use std::cmp::Ordering;
use std::rc::Rc;

/// Why a locator, a publication point or a file is refused.
#[derive(Drop)]
pub enum Reason {
    /// A locator.
    Locator(LocatorReason),
    /// The publication point of an accepted chain's last certificate.
    Point(PointReason),
    /// A file of a point that stands.
    File(FileReason),
}

/// What is refused, on which chain, and why.
///
/// Diagnoses are ordered by name, and then by locator and chain.
#[derive(Drop)]
pub struct Diagnosis {
    name: Bytes,
    path: Rc<Path>,
    reason: Reason,
}

impl Diagnosis {
    /// What has this name is refused on this chain for this reason.
    pub fn new(name: Bytes, path: Rc<Path>, reason: Reason) -> Self
        ensures value { diagnosis_of result ≡ on_chain (path_of path.value) name
            (reason_of reason) }
        ensures unheld { unheld_of result ≡ numbers_of reason }
    {
        Diagnosis { name, path, reason }
    }

    /// The locator's name, the lookup key of the certificate whose point it is, or that of the file.
    pub fn name(&self) -> &Bytes
        ensures { result.now ≡ (diagnosis_of self.now).name }
    {
        &self.name
    }

    /// The name of the locator from which the chain begins, or which is refused itself.
    pub fn locator(&self) -> &Bytes
        ensures { result.now ≡ (diagnosis_of self.now).locator }
    {
        self.path.as_ref().locator()
    }

    /// The lookup keys of the chain's certificates, the anchor's first; none where a locator is refused.
    pub fn chain(&self) -> &[Bytes]
        ensures { result.now ≡ (diagnosis_of self.now).chain }
    {
        self.path.as_ref().chain()
    }

    /// Why it is refused.
    pub fn reason(&self) -> &Reason
        ensures reason { reason_of result.now ≡ (diagnosis_of self.now).reason }
        ensures unheld { numbers_of result.now ≡ unheld_of self.now }
    {
        &self.reason
    }
}

impl PartialEq for Diagnosis {
    ghost eq = { diagnoses_eq };

    ghost laws = { partial_equiv_from_equiv diagnoses_equiv };

    fn eq(&self, other: &Diagnosis) -> bool {
        self.cmp(other) == Ordering::Equal
    }
}

impl Eq for Diagnosis {
    ghost laws = { diagnoses_equiv };
}

impl Ord for Diagnosis {
    ghost cmp = { diagnoses_cmp };

    ghost total = { diagnoses_total };

    ghost matches_partial_cmp = { λ d e. refl };

    ghost matches_eq = { diagnoses_ties };

    fn cmp(&self, other: &Diagnosis) -> Ordering {
        let chains = self.chain().cmp(other.chain());
        let paths = self.locator().cmp(other.locator()).then(chains);
        self.name.cmp(&other.name).then(paths)
    }
}

impl PartialOrd for Diagnosis {
    ghost partial_cmp = { as_partial_cmp diagnoses_cmp };

    ghost laws = { po diagnoses_total diagnoses_ties };

    fn partial_cmp(&self, other: &Diagnosis) -> Option<Ordering> {
        Some(self.cmp(other))
    }
}
