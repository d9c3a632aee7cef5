//! Certificates of trust anchors (RFC 8630 2.3, 3).

ghost use Rattle.std.specs.Prelude.{◌≡◌, ◌↔◌, ◌+◌, ◌++◌, ◌≤◌, IsTrue, map};
ghost use Rattle.certs_verify.specs.TestAnswers.{Answers};
ghost use Rattle.rpki_standing.specs.certs_extension.Profiles.{tests};
ghost use Rattle.rpki_standing.specs.certs_extension.Verified.{PassesAt, anchor_tests, nothing};
ghost use Rattle.rpki_standing.specs.certs_extension.declared.forms.Role.TheVariants.{Ta};
ghost use Rattle.rpki_standing.specs.Readers.{SameReader, world_by};
ghost use Rattle.rpki_rules.specs.Certs.{encoded};
ghost use Rattle.rpki_rules.specs.LocatorReasons.{PassesAnchor, tests_of_anchors};
ghost use Rattle.rpki_rules.specs.declared.reason.certs.CertTest.TheVariants.{Inspection, Verification};
ghost use Rattle.rpki_rules.specs.Reasons.{PassesCert};

use crate::reader::BundleReader;
use crate::signed::tests::test_told;
use certs_verify::{Cert, Digester, Inspect, PublicKey, Verifier, Verify};
use rpki_rules::reason::{AnchorTest, CertTest, VerificationTest};

// Whether the certificate's key is that key, by what is encoded of it.
fn has_key(cert: &Cert, key: &PublicKey) -> bool
    ensures { IsTrue result ↔ (encoded cert.now.tbs.key ≡ encoded key.now) }
{
    let own = cert.tbs().subject_public_key_info();
    own.encoded() == key.encoded()
}

// Whether the certificate is valid at the bundle's moment, inherits nothing, and signed itself; else the first of these
// tests that fails. The verifier is asked once or not at all.
fn check_own_issuer<D: Digester, V: Verifier>(
    cert: &Cert,
    reader: &mut BundleReader<'_, D, V>,
) -> Result<(), VerificationTest>
    ensures told { Answers (PassesAt (V.says reader.old.verifier.now)
        reader.old.index.moment cert.now nothing cert.now) anchor_tests result }
    ensures same { SameReader V.says reader.old reader.new }
    ensures asked { V.count reader.new.verifier.now ≤ V.count reader.old.verifier.now + 1 }
{
    let own = cert.verify_ta_ref_at(true, reader.index.moment(), reader.verifier);
    test_told(own)
}

// Whether the certificate has the form of a trust anchor's, and is good as its own issuer; else the first test that fails.
// The verifier is asked once or not at all.
fn check_own_cert<D: Digester, V: Verifier>(
    cert: &Cert,
    reader: &mut BundleReader<'_, D, V>,
) -> Result<(), CertTest>
    ensures told { Answers
        (PassesCert (world_by D.sha256_digest D.sha1_digest V.says reader.old) Ta cert.now cert.now)
        (map Inspection (tests Ta) ++ map Verification anchor_tests) result }
    ensures same { SameReader V.says reader.old reader.new }
    ensures asked { V.count reader.new.verifier.now ≤ V.count reader.old.verifier.now + 1 }
{
    match cert.inspect_ta(true, reader.digester) {
        Ok(()) => check_own_issuer(cert, reader).map_err(CertTest::Verification),
        Err(test) => Err(CertTest::Inspection(test)),
    }
}

/// Whether the certificate is one of a trust anchor with that key: it has the form, is valid at the bundle's moment,
/// inherits nothing, and signed itself; else the first test that fails, of which the key is the first. The verifier is
/// asked once or not at all.
pub fn check_anchor_cert<D: Digester, V: Verifier>(
    cert: &Cert,
    key: &PublicKey,
    reader: &mut BundleReader<'_, D, V>,
) -> Result<(), AnchorTest>
    ensures told { Answers
        (PassesAnchor (world_by D.sha256_digest D.sha1_digest V.says reader.old) key.now cert.now)
        tests_of_anchors result }
    ensures same { SameReader V.says reader.old reader.new }
    ensures asked { V.count reader.new.verifier.now ≤ V.count reader.old.verifier.now + 1 }
{
    if !has_key(cert, key) {
        return Err(AnchorTest::SameKey);
    }
    check_own_cert(cert, reader).map_err(AnchorTest::AnchorCert)
}
