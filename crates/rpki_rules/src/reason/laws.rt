//! Laws of tests and reasons.

ghost use Rattle.rpki_rules.specs.DiagnosisLaws.{RefusalsAreDiagnosed};
ghost use Rattle.rpki_rules.specs.TestLaws.{CertTestsAreRules, ContentTestsAreRules, ClaimTestsAreRules, RevocationTestsAreRules, AnchorTestsAreRules, CerTestsAreRules, ObjectTestsAreRules, PointTestsAreRules, LocatorReasonsRefuse};

/// The tests of a certificate ask together for its profile and for what its issuer signed.
pub fn cert_tests_are_rules()
    ensures { CertTestsAreRules }
{}

/// The tests of a signed object's content ask together that it is sound.
pub fn content_tests_are_rules()
    ensures { ContentTestsAreRules }
{}

/// What is claimed fits where it does of each kind.
pub fn claim_tests_are_rules()
    ensures { ClaimTestsAreRules }
{}

/// The tests of revocation ask together that a certificate isn't revoked.
pub fn revocation_tests_are_rules()
    ensures { RevocationTestsAreRules }
{}

/// The tests of an anchor's certificate ask together what the rules ask of an anchor.
pub fn anchor_tests_are_rules()
    ensures { AnchorTestsAreRules }
{}

/// The tests of an authority's certificate ask together that it is issued as it should.
pub fn cer_tests_are_rules()
    ensures { CerTestsAreRules }
{}

/// The tests of a listed object that reads ask together that it is good.
pub fn object_tests_are_rules()
    ensures { ObjectTestsAreRules }
{}

/// The tests of a manifest and of its revocation list ask together that the point stands.
pub fn point_tests_are_rules()
    ensures { PointTestsAreRules }
{}

/// Where a locator has a reason, its text is none, or it reads and leads to no anchor.
pub fn locator_reasons_refuse()
    ensures { LocatorReasonsRefuse }
{}

/// The refusals of a report are just those of the diagnoses of its world.
pub fn refusals_are_diagnosed()
    ensures { RefusalsAreDiagnosed }
{}
