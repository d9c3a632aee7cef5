//! The cause by which a line tells a reason.

ghost use Rattle.std.specs.Prelude.{◌≡◌};
ghost use Rattle.rpki_rules.specs.Diagnoses.{cause_of as cause_of_reason};
ghost use Rattle.rpki_rules.specs.DiagnosisViews.{reason_of};
ghost use Rattle.rpki_rules.specs.FileReasons.{file_cause as cause_of_file};
ghost use Rattle.rpki_rules.specs.LocatorReasons.{locator_cause as cause_of_locator};
ghost use Rattle.rpki_rules.specs.ReasonViews.{file_reason_of};

use rpki_rules::Cause;
use rpki_rules::reason::{FileReason, LocatorReason, Reason};

// The cause by which a line tells why a locator is refused.
fn locator_cause(reason: LocatorReason) -> Cause
    ensures { result ≡ cause_of_locator reason }
{
    match reason {
        LocatorReason::BadText(_) => Cause::Tal,
        LocatorReason::NoneHeld | LocatorReason::NoCert | LocatorReason::BadAnchor(_) => {
            Cause::Anchor
        }
    }
}

// The cause by which a line tells why a file is refused.
fn file_cause(reason: &FileReason) -> Cause
    ensures { result ≡ cause_of_file (file_reason_of reason.now) }
{
    match reason {
        FileReason::Loop => Cause::Loop,
        FileReason::Depth => Cause::Depth,
        FileReason::BadCer
        | FileReason::CerFails(_)
        | FileReason::BadObject
        | FileReason::ObjectFails(_) => Cause::Object,
    }
}

/// The cause by which a line tells a reason.
pub fn cause_of(reason: &Reason) -> Cause
    ensures { result ≡ cause_of_reason (reason_of reason.now) }
{
    match reason {
        Reason::Locator(reason) => locator_cause(*reason),
        Reason::Point(_) => Cause::Point,
        Reason::File(reason) => file_cause(reason),
    }
}
