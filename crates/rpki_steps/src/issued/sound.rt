//! Whether a certificate is at a file of an authority's point and sound there, what it claims apart (RFC 6487 7.2).

ghost use Rattle.std.specs.Prelude.{◌≡◌, ◌↔◌, ◌+◌, ◌≤◌, IfOk, IsTrue};
ghost use Rattle.rpki_judge.specs.Evidence.{IsBelow};
ghost use Rattle.rpki_rules.specs.Chains.{CertAt, HasExtension, IsSound, cer};
ghost use Rattle.rpki_rules.specs.Points.{files as files_by};
ghost use Rattle.rpki_rules.specs.Words.{Mem};
ghost use Rattle.rpki_standing.specs.Readers.{SameReader, world_by};

use bytes::Bytes;
use rpki_rules::reason::laws::{cert_tests_are_rules, revocation_tests_are_rules};
use rpki_standing::payloads::{Extension, extension_of};
use rpki_standing::points::is_listed;
use rpki_standing::{
    BundleReader, Cert, Digester, StandingPoint, Verifier, check_authority_cert, check_revocation,
};
use std::alloc::{AllocError, Global};

// Whether the name says that the file is a certificate (RFC 6481 2.2).
fn is_cer(uri: &[u8]) -> bool
    ensures { IsTrue result ↔ HasExtension cer uri.now }
{
    extension_of(uri) == Some(Extension::Cer)
}

// Whether the lookup key is one of those, and the name says that the file is a certificate (RFC 6481 2.2).
fn is_cer_file(files: &[Bytes], uri: &[u8]) -> bool
    ensures { IsTrue result ↔ (Mem files.now uri.now × HasExtension cer uri.now) }
{
    is_cer(uri) && is_listed(files, uri)
}

/// Whether the certificate is sound at the authority's point: it has the form of an authority's, it isn't revoked there, and
/// the authority signed it. What it claims isn't looked at. The verifier is asked once, at most.
pub fn is_sound_below<D: Digester, V: Verifier>(
    alloc: Global,
    ca: &Cert,
    point: &StandingPoint,
    cert: &Cert,
    reader: &mut BundleReader<'_, D, V>,
) -> Result<bool, AllocError>
    ensures sound { IfOk result (λ yes. IsTrue yes ↔ IsSound
        (world_by D.sha256_digest D.sha1_digest V.says reader.old)
        ca.now point.now.point cert.now) }
    ensures same { SameReader V.says reader.old reader.new }
    ensures asked { V.count reader.new.verifier.now ≤ V.count reader.old.verifier.now + 1 }
{
    cert_tests_are_rules();
    revocation_tests_are_rules();
    match check_revocation(alloc, cert, point.manifest_cert(), point.crl())? {
        Ok(()) => Ok(check_authority_cert(cert, ca, reader).is_ok()),
        Err(_) => Ok(false),
    }
}

/// Whether the certificate at the lookup key is at a file of the authority's point, for an authority's certificate, and sound
/// there. The verifier is asked once, at most.
pub fn is_below<D: Digester, V: Verifier>(
    alloc: Global,
    ca: &Cert,
    point: &StandingPoint,
    uri: &[u8],
    cert: &Cert,
    reader: &mut BundleReader<'_, D, V>,
) -> Result<bool, AllocError>
    requires at { CertAt (world_by D.sha256_digest D.sha1_digest V.says reader.old)
        uri.now cert.now }
    requires listed { point.now.keys ≡ files_by ca.now point.now.point.manifest }
    ensures below { IfOk result (λ yes. IsTrue yes ↔ IsBelow
        (world_by D.sha256_digest D.sha1_digest V.says reader.old)
        ca.now point.now.point uri.now cert.now) }
    ensures same { SameReader V.says reader.old reader.new }
    ensures asked { V.count reader.new.verifier.now ≤ V.count reader.old.verifier.now + 1 }
{
    if !is_cer_file(point.files(), uri) {
        return Ok(false);
    }
    is_sound_below(alloc, ca, point, cert, reader)
}
