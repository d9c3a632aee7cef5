//! Whether a certificate is revoked at a publication point (RFC 6487 7.2).

ghost use Rattle.std.specs.Prelude.{◌≡◌, ◌↔◌, IfOk, IsTrue};
ghost use Rattle.certs_verify.specs.TestAnswers.{Answers};
ghost use Rattle.rpki_standing.specs.certs_basics.Uris.{lookup_key as key_of};
ghost use Rattle.rpki_rules.specs.FileReasons.{PassesRevocation, revocation_tests};
ghost use Rattle.rpki_rules.specs.Points.{Point};

use crate::points::kept::Crl;
use certs_cert::grammar::cmp_lookup_key;
use certs_cert::{Cert, Rsync};
use rpki_rules::reason::RevocationTest;
use std::alloc::{AllocError, Global};

// Whether both URIs are looked up alike.
fn have_one_key(alloc: Global, uri: &Rsync, other: &Rsync) -> Result<bool, AllocError>
    ensures { IfOk result (λ yes. IsTrue yes ↔ (key_of uri.now ≡ key_of other.now)) }
{
    let key = uri.lookup_key(alloc)?;
    Ok(cmp_lookup_key(key.as_slice(), other.as_slice()).is_eq())
}

/// Whether the certificate names a revocation list, that is the point's, and the certificate isn't on it; else the first of
/// these tests that fails. The manifest's certificate says where the list stands; both URIs are compared by their lookup
/// keys.
pub fn check_revocation(
    alloc: Global,
    cert: &Cert,
    ee: &Cert,
    crl: &Crl,
) -> Result<Result<(), RevocationTest>, AllocError>
    ensures { IfOk result (λ told. (p : Point) → p.object.cert ≡ ee.now → p.crl ≡ crl.now
        → Answers (PassesRevocation p cert.now) revocation_tests told) }
{
    let Some(uri) = cert.tbs().crl_uri() else {
        return Ok(Err(RevocationTest::NamesList));
    };
    let Some(point_uri) = ee.tbs().crl_uri() else {
        return Ok(Err(RevocationTest::SameList));
    };
    if !have_one_key(alloc, uri, point_uri)? {
        return Ok(Err(RevocationTest::SameList));
    }
    if crl.contains(cert.tbs().serial_number()) {
        return Ok(Err(RevocationTest::NotRevoked));
    }
    Ok(Ok(()))
}
