//! Laws of the rules.

ghost use Rattle.rpki_rules.specs.Laws.{SignedIsVerified, IssuedIsVerified, AnchorIsVerified, AnchorHolds, ChainHolds, IssuedHolds, OnlyUris, OneObjectAt, TableSays, WitnessNames, OneCertAt, OnePoint, OneSigned, OneOutput, ClimbingIsExact, JudgingIsExact, Listing, DeeperKeeps, VerdictRemoval, CutDownKeeps, NonInterference, LocatorsStay, RefusalsStay, UntouchedOutput};
ghost use Rattle.rpki_rules.specs.Outside.{OutsideStays};
ghost use Rattle.rpki_rules.specs.Versions.{UpgradeStays};
ghost use Rattle.rpki_rules.specs.ReasonLaws.{NamesAreAlone, LocatorsHaveReasons, PointsHaveReasons, FilesHaveReasons, OneUnheld};

/// What a certificate is asked below an authority, its claim apart, is what the tests of verification ask.
pub fn signed_is_verified()
    ensures { SignedIsVerified }
{}

/// With its claim, it is what all tests of an issued certificate ask.
pub fn issued_is_verified()
    ensures { IssuedIsVerified }
{}

/// What an anchor's certificate is asked are its profile, the tests of an anchor, and the locator's key.
pub fn anchor_is_verified()
    ensures { AnchorIsVerified }
{}

/// A certificate that is accepted as an anchor holds what its chain of one holds.
pub fn anchor_holds()
    ensures { AnchorHolds }
{}

/// A certificate that is accepted below a chain's last holds what the longer chain holds.
pub fn issued_holds()
    ensures { IssuedHolds }
{}

/// Along certificates that are accepted one below the other the last holds what the chain holds.
pub fn chain_holds()
    ensures { ChainHolds }
{}

/// A text that is no URI has no URI's lookup key, so it names nothing.
pub fn only_uris()
    ensures { OnlyUris }
{}

/// Among objects that ascend, the first with a URI is the one with it.
pub fn one_object_at()
    ensures { OneObjectAt }
{}

/// A table's test of a signature is its relation.
pub fn table_says()
    ensures { TableSays }
{}

/// All that a witness names are lookup keys; its chain isn't empty, and its name is a locator's.
pub fn witness_names()
    ensures { WitnessNames }
{}

/// What stands at a lookup key is one certificate at most.
pub fn one_cert_at()
    ensures { OneCertAt }
{}

/// An authority has one point at most.
pub fn one_point()
    ensures { OnePoint }
{}

/// A file is one sound object at most.
pub fn one_signed()
    ensures { OneSigned }
{}

/// A world has one output at most.
pub fn one_output()
    ensures { OneOutput }
{}

/// Climbing says the same as the chain's definition.
pub fn climbing_is_exact()
    ensures { ClimbingIsExact }
{}

/// A witness that was read from its object up is a good one, and a good one is read so.
pub fn judging_is_exact()
    ensures { JudgingIsExact }
{}

/// What is attested lies in each set that is listed on its chain.
pub fn what_is_attested_is_listed()
    ensures { Listing }
{}

/// A greater depth keeps all that is attested.
pub fn deeper_keeps()
    ensures { DeeperKeeps }
{}

/// A verdict taken out adds nothing.
pub fn verdict_removal()
    ensures { VerdictRemoval }
{}

/// What a chain names at each of its points is enough for its witnesses.
pub fn cut_down_keeps()
    ensures { CutDownKeeps }
{}

/// Forging changes nothing outside what is reached.
pub fn non_interference()
    ensures { NonInterference }
{}

/// Forging changes no refusal of a locator.
pub fn locators_stay()
    ensures { LocatorsStay }
{}

/// Forging changes no refusal of a chain that names none of the URIs.
pub fn refusals_stay()
    ensures { RefusalsStay }
{}

/// Where no accepted chain names one of the URIs, forging there changes nothing.
pub fn untouched_output()
    ensures { UntouchedOutput }
{}

/// Forging changes no line of an origin or a customer outside what is reached.
pub fn outside_stays()
    ensures { OutsideStays }
{}

/// The output of a bundle of version 0 is that of its upgrade that isn't relaxed.
pub fn upgrade_stays()
    ensures { UpgradeStays }
{}

/// A locator that is refused, and whose name no other has, has a reason, and one: the first condition
/// that isn't met.
pub fn locators_have_reasons()
    ensures { LocatorsHaveReasons }
{}

/// The point of an accepted chain that doesn't stand has a reason, and one.
pub fn points_have_reasons()
    ensures { PointsHaveReasons }
{}

/// A file that is refused at the point of an accepted chain has a reason, and one.
pub fn files_have_reasons()
    ensures { FilesHaveReasons }
{}

/// In a bundle each locator's name is its own.
pub fn names_are_alone()
    ensures { NamesAreAlone }
{}

/// The numbers of a kind that a certificate claims and a chain doesn't hold are one list, and where there
/// are some the kind doesn't fit.
pub fn one_unheld()
    ensures { OneUnheld }
{}
