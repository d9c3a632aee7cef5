//! Inspections.

ghost use Rattle.std.specs.Prelude.{◌≡◌, ◌↔◌, Err, IsOk};
ghost use Rattle.certs_verify.specs.certs_key.Digesting.{digests_of};
ghost use Rattle.certs_verify.specs.TestAnswers.{Answers};
ghost use Rattle.certs_cert.specs.certs_extension.Cert.{CertValue};
ghost use Rattle.certs_cert.specs.certs_extension.Profiles.{FailsFirst, Passes, Profile};
ghost use Rattle.certs_cert.specs.certs_extension.declared.forms.InspectionError.{InspectionError as Test};
ghost use Rattle.certs_cert.specs.certs_extension.declared.forms.Role.TheVariants.{Ca, DetachedEe, Ee, Router, Ta};

use crate::inspect::tests::{passes, tests};
use certs_cert::{Cert, Digester, InspectionError, Role};

// The first of the tests that isn't passed.
fn run_tests<D: Digester>(
    cert: &Cert,
    role: Role,
    strict: bool,
    digester: &D,
    tests: &[InspectionError],
) -> Result<(), InspectionError>
    ensures { Answers (Passes (digests_of D.sha256_digest D.sha1_digest digester.now)
        strict role cert.now) tests.now result }
{
    let mut rest = tests;
    while let Some((test, others)) = rest.split_first() {
        let test = *test;
        if !passes(cert, role, strict, digester, test) {
            return Err(test);
        }
        rest = others;
    }
    Ok(())
}

// Whether all tests of the role are passed, and else the first that isn't.
fn run<D: Digester>(
    cert: &Cert,
    role: Role,
    strict: bool,
    digester: &D,
) -> Result<(), InspectionError>
    ensures passed { IsOk result ↔ Profile (digests_of D.sha256_digest D.sha1_digest digester.now)
        strict role cert.now }
    ensures refused { (test : Test) → (result ≡ Err test) ↔ FailsFirst
        (digests_of D.sha256_digest D.sha1_digest digester.now) strict role cert.now test }
{
    let tests = tests(role);
    run_tests(cert, role, strict, digester, tests)
}

/// What is inspected. `strict` refuses UTF8Strings in names, but for the subject of a router's
/// certificate.
pub trait Inspect {
    // The certificate.
    ghost inspected: { Self → CertValue };

    /// Whether the form is that of a trust anchor's certificate, and else the first test that
    /// fails: basics, an authority's certificate, the authority key identifier absent or its own,
    /// no CRL URI, and no URI of an issuer.
    fn inspect_ta<D: Digester>(&self, strict: bool, digester: &D) -> Result<(), InspectionError>
        ensures passed { IsOk result ↔ Profile
            (digests_of D.sha256_digest D.sha1_digest digester.now) strict Ta (inspected self.now) }
        ensures refused { (test : Test) → (result ≡ Err test) ↔ FailsFirst
            (digests_of D.sha256_digest D.sha1_digest digester.now) strict Ta
            (inspected self.now) test };

    /// Whether the form is that of another authority's certificate, and else the first test that
    /// fails: basics, an authority's certificate, and a CRL URI.
    fn inspect_ca<D: Digester>(&self, strict: bool, digester: &D) -> Result<(), InspectionError>
        ensures passed { IsOk result ↔ Profile
            (digests_of D.sha256_digest D.sha1_digest digester.now) strict Ca (inspected self.now) }
        ensures refused { (test : Test) → (result ≡ Err test) ↔ FailsFirst
            (digests_of D.sha256_digest D.sha1_digest digester.now) strict Ca
            (inspected self.now) test };

    /// Whether the form is that of the certificate in a published object, and else the first test
    /// that fails: basics, a CRL URI, no basic constraints, a key that signs one object, no
    /// repository, no manifest, and a signed object.
    fn inspect_ee<D: Digester>(&self, strict: bool, digester: &D) -> Result<(), InspectionError>
        ensures passed { IsOk result ↔ Profile
            (digests_of D.sha256_digest D.sha1_digest digester.now) strict Ee (inspected self.now) }
        ensures refused { (test : Test) → (result ≡ Err test) ↔ FailsFirst
            (digests_of D.sha256_digest D.sha1_digest digester.now) strict Ee
            (inspected self.now) test };

    /// Whether the form is that of the certificate of an object that stands apart, and else the
    /// first test that fails: what `inspect_ee` tests, but for the signed object.
    fn inspect_detached_ee<D: Digester>(
        &self,
        strict: bool,
        digester: &D,
    ) -> Result<(), InspectionError>
        ensures passed { IsOk result ↔ Profile
            (digests_of D.sha256_digest D.sha1_digest digester.now) strict DetachedEe
            (inspected self.now) }
        ensures refused { (test : Test) → (result ≡ Err test) ↔ FailsFirst
            (digests_of D.sha256_digest D.sha1_digest digester.now) strict DetachedEe
            (inspected self.now) test };

    /// Whether the form is that of a router's certificate, and else the first test that fails:
    /// equal algorithms, the issuer, a router's subject, a router's key, no basic constraints, the
    /// key's identifier, a key that signs, extended key usages with id-kp-bgpsec-router, a CRL URI,
    /// no subject information access, no IP resources, and AS resources that are listed.
    fn inspect_router<D: Digester>(&self, strict: bool, digester: &D) -> Result<(), InspectionError>
        ensures passed { IsOk result ↔ Profile
            (digests_of D.sha256_digest D.sha1_digest digester.now) strict Router
            (inspected self.now) }
        ensures refused { (test : Test) → (result ≡ Err test) ↔ FailsFirst
            (digests_of D.sha256_digest D.sha1_digest digester.now) strict Router
            (inspected self.now) test };
}

impl Inspect for Cert {
    ghost inspected = { λ c. c };

    fn inspect_ta<D: Digester>(&self, strict: bool, digester: &D) -> Result<(), InspectionError> {
        run(self, Role::Ta, strict, digester)
    }

    fn inspect_ca<D: Digester>(&self, strict: bool, digester: &D) -> Result<(), InspectionError> {
        run(self, Role::Ca, strict, digester)
    }

    fn inspect_ee<D: Digester>(&self, strict: bool, digester: &D) -> Result<(), InspectionError> {
        run(self, Role::Ee, strict, digester)
    }

    fn inspect_detached_ee<D: Digester>(
        &self,
        strict: bool,
        digester: &D,
    ) -> Result<(), InspectionError> {
        run(self, Role::DetachedEe, strict, digester)
    }

    fn inspect_router<D: Digester>(
        &self,
        strict: bool,
        digester: &D,
    ) -> Result<(), InspectionError> {
        run(self, Role::Router, strict, digester)
    }
}
