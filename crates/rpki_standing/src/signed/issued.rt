//! Certificates below an issuer (RFC 6487 4, 7.2).

ghost use Rattle.std.specs.Prelude.{◌+◌, ◌≤◌};
ghost use Rattle.certs_verify.specs.TestAnswers.{Answers};
ghost use Rattle.rpki_standing.specs.certs_extension.Verified.{PassesAt, nothing};
ghost use Rattle.rpki_standing.specs.certs_extension.declared.forms.Role.TheVariants.{Ca, Ee};
ghost use Rattle.rpki_standing.specs.Readers.{SameReader, world_by};
ghost use Rattle.rpki_rules.specs.Reasons.{PassesCert, cert_tests, signature_tests};

use crate::reader::BundleReader;
use crate::signed::tests::test_told;
use certs_verify::{Cert, Digester, Inspect, Verifier, Verify};
use rpki_rules::reason::{CertTest, VerificationTest};

// Whether the certificate is valid at the bundle's moment, claims the issuer and has a good signature of it; else the first
// of these tests that fails (RFC 6487 7.2). The verifier is asked once or not at all.
fn check_signed<D: Digester, V: Verifier>(
    cert: &Cert,
    issuer: &Cert,
    reader: &mut BundleReader<'_, D, V>,
) -> Result<(), VerificationTest>
    ensures told { Answers (PassesAt (V.says reader.old.verifier.now)
        reader.old.index.moment issuer.now nothing cert.now) signature_tests result }
    ensures same { SameReader V.says reader.old reader.new }
    ensures asked { V.count reader.new.verifier.now ≤ V.count reader.old.verifier.now + 1 }
{
    let valid = cert.verify_validity(reader.index.moment());
    if let Err(test) = test_told(valid) {
        return Err(test);
    }
    let claimed = cert.verify_issuer_claim(issuer);
    if let Err(test) = test_told(claimed) {
        return Err(test);
    }
    let signed = cert.verify_signature(issuer, reader.verifier);
    test_told(signed)
}

/// Whether the certificate has the form of an authority's, and the issuer signed it; else the first test that fails. What
/// it claims of resources isn't looked at, nor whether it is revoked. The verifier is asked once or not at all.
pub fn check_authority_cert<D: Digester, V: Verifier>(
    cert: &Cert,
    issuer: &Cert,
    reader: &mut BundleReader<'_, D, V>,
) -> Result<(), CertTest>
    ensures told { Answers (PassesCert
        (world_by D.sha256_digest D.sha1_digest V.says reader.old) Ca issuer.now cert.now)
        (cert_tests Ca) result }
    ensures same { SameReader V.says reader.old reader.new }
    ensures asked { V.count reader.new.verifier.now ≤ V.count reader.old.verifier.now + 1 }
{
    match cert.inspect_ca(true, reader.digester) {
        Ok(()) => check_signed(cert, issuer, reader).map_err(CertTest::Verification),
        Err(test) => Err(CertTest::Inspection(test)),
    }
}

/// Whether the certificate has the form of a published object's, and the issuer signed it; else the first test that fails.
/// What it claims of resources isn't looked at, nor whether it is revoked. The verifier is asked once or not at all.
pub fn check_object_cert<D: Digester, V: Verifier>(
    cert: &Cert,
    issuer: &Cert,
    reader: &mut BundleReader<'_, D, V>,
) -> Result<(), CertTest>
    ensures told { Answers (PassesCert
        (world_by D.sha256_digest D.sha1_digest V.says reader.old) Ee issuer.now cert.now)
        (cert_tests Ee) result }
    ensures same { SameReader V.says reader.old reader.new }
    ensures asked { V.count reader.new.verifier.now ≤ V.count reader.old.verifier.now + 1 }
{
    match cert.inspect_ee(true, reader.digester) {
        Ok(()) => check_signed(cert, issuer, reader).map_err(CertTest::Verification),
        Err(test) => Err(CertTest::Inspection(test)),
    }
}
