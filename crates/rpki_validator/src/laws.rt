//! Laws of what runs print: the contracts of functions that do nothing.

ghost use Rattle.rpki_validator.specs.Forging.{ForgingStaysInside, UntouchedStays, LocatorLinesStay, RefusalLinesStay};
ghost use Rattle.rpki_validator.specs.Judging.{JudgingAgreesWithWalking};
ghost use Rattle.rpki_rules.specs.Versions.{RelaxedKeeps};

pub use rpki_bundle::laws::bundle_length;
pub use rpki_rules::laws::{
    cut_down_keeps, deeper_keeps, upgrade_stays, verdict_removal, what_is_attested_is_listed,
};
use rpki_rules::laws::{locators_stay, outside_stays, refusals_stay, untouched_output};
pub use rpki_rules::reason::laws::refusals_are_diagnosed;

/// Forging the objects at some URIs changes no line of an origin or a customer outside what these URIs reach, whatever the
/// forged objects are.
pub fn forging_stays_inside()
    ensures { ForgingStaysInside }
{
    outside_stays();
}

/// Where no readable locator and no accepted chain names one of the URIs, forging the objects there changes nothing at all.
pub fn untouched_stays()
    ensures { UntouchedStays }
{
    untouched_output();
}

/// Where no readable locator names one of the URIs, forging the objects there changes no refusal line of a locator.
pub fn locator_lines_stay()
    ensures { LocatorLinesStay }
{
    locators_stay();
}

/// A refusal line of an accepted chain stays where no readable locator and no front of the chain, itself included, names
/// one of the URIs, whatever the objects forged there are.
pub fn refusal_lines_stay()
    ensures { RefusalLinesStay }
{
    refusals_stay();
}

/// A judge says yes exactly to the witnesses that a walk lists.
pub fn judging_agrees_with_walking()
    ensures { JudgingAgreesWithWalking }
{}

/// Relaxed, a bundle of version 1 attests all that it attests not relaxed.
pub fn relaxed_keeps()
    ensures { RelaxedKeeps }
{}
