//! Which test the error of a validation tells.

ghost use Rattle.std.specs.Prelude.{◌≡◌, Some};
ghost use Rattle.certs_verify.specs.Validated.{cause_of};
ghost use Rattle.rpki_steps.specs.certs_x509.declared.errors.validation.ValidationError.TheVariants.{Verification};
ghost use Rattle.rpki_steps.specs.certs_x509.declared.errors.verification.Overclaimed.{Overclaimed};
ghost use Rattle.rpki_steps.specs.certs_x509.declared.errors.verification.VerificationError.TheVariants.{Overclaim};
ghost use Rattle.rpki_rules.specs.declared.reason.files.CerTest.TheVariants.{CerClaim};
ghost use Rattle.rpki_rules.specs.ReasonViews.{cer_test_of};
ghost use Rattle.rpki_steps.specs.Accepted.{IsRefusal, TellsCer, cert_fault};

use certs_verify::{ValidationError, VerificationError};
use rpki_rules::reason::{CerTest, CertTest};
use rpki_standing::signed::test_of;

/// The test that the error tells, of the certificate's form, or of what its issuer and the moment say.
pub(crate) fn cert_test(error: &ValidationError) -> CertTest
    requires { IsRefusal error.now }
    ensures { cause_of error.now ≡ Some (cert_fault result) }
{
    match error {
        ValidationError::Inspection(test) => CertTest::Inspection(*test),
        ValidationError::Verification(told) => CertTest::Verification(test_of(told)),
    }
}

/// The test that the error tells of an authority's certificate, its claim told apart, with the numbers that are claimed and
/// aren't held.
pub(crate) fn cer_test(error: ValidationError) -> CerTest
    requires { IsRefusal error }
    ensures test { TellsCer error (cer_test_of result) }
    ensures claim { (numbers : Overclaimed) → result ≡ CerClaim numbers
        → error ≡ Verification (Overclaim numbers) }
{
    match error {
        ValidationError::Inspection(test) => CerTest::CerCert(CertTest::Inspection(test)),
        ValidationError::Verification(told) => match told {
            VerificationError::Overclaim(numbers) => CerTest::CerClaim(numbers),
            other => {
                let test = test_of(&other);
                drop(other);
                CerTest::CerCert(CertTest::Verification(test))
            }
        },
    }
}
