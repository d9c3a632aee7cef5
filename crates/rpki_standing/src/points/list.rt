//! Which revocation lists may be a publication point's (RFC 6487 5, RFC 9286 6.2).

ghost use Rattle.std.specs.Prelude.{◌≡◌, ◌↔◌, ◌≤◌, IsTrue};
ghost use Rattle.rpki_standing.specs.PointFaults.{PassesUnheld, said_tests};
ghost use Rattle.rpki_standing.specs.Tests.{Tells};
ghost use Rattle.rpki_rules.specs.Certs.{Digests, Verdicts};
ghost use Rattle.rpki_rules.specs.Objects.{Manifest, Object};
ghost use Rattle.rpki_rules.specs.ReasonViews.{list_test_of};
ghost use Rattle.rpki_rules.specs.World.{world_of};

use crate::table::Index;
use certs_cert::Cert;
use certs_crl::Crl;
use rpki_rules::reason::ListTest;

// Whether the list claims the authority by its key identifier (RFC 5280 5.2.1).
fn claims_authority(crl: &Crl, ca: &Cert) -> bool
    ensures { IsTrue result ↔ (crl.now.tbs.authority_key_identifier
        ≡ ca.now.tbs.subject_key_identifier) }
{
    *crl.as_cert_list().authority_key_identifier() == ca.tbs().subject_key_identifier()
}

// Whether its update isn't to come at the bundle's moment (RFC 5280 5.1.2.4).
fn is_made(crl: &Crl, index: &Index<'_>) -> bool
    ensures { IsTrue result ↔ (crl.now.tbs.this_update ≤ index.now.moment) }
{
    crl.as_cert_list().this_update() <= index.moment()
}

// Whether its next update isn't past (RFC 5280 5.1.2.5).
fn is_fresh(crl: &Crl, index: &Index<'_>) -> bool
    ensures { IsTrue result ↔ (index.now.moment ≤ crl.now.tbs.next_update) }
{
    !crl.as_cert_list().is_stale(index.moment())
}

/// Whether the list claims the authority by its key identifier, is current at the bundle's moment, and doesn't have the
/// certificate on it; else the first of these tests that fails.
pub fn check_said(crl: &Crl, ca: &Cert, ee: &Cert, index: &Index<'_>) -> Result<(), ListTest>
    ensures { (d : Digests) (v : Verdicts) (o : Object) (m : Manifest) → o.cert ≡ ee.now
        → Tells list_test_of (PassesUnheld (world_of d v index.now) ca.now o m crl.now)
        said_tests result }
{
    if !claims_authority(crl, ca) {
        return Err(ListTest::ListAuthority);
    }
    if !is_made(crl, index) {
        return Err(ListTest::ListThisUpdate);
    }
    if !is_fresh(crl, index) {
        return Err(ListTest::ListNextUpdate);
    }
    if crl.contains(ee.tbs().serial_number()) {
        return Err(ListTest::NotOnList);
    }
    Ok(())
}
