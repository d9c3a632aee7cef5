//! Files of a publication point that are certificates (RFC 6481 2.2, RFC 6487 7.2).

ghost use Rattle.std.specs.Prelude.{IfOk, List, ℕ};
ghost use Rattle.rpki_rules.specs.Certs.{CertText};
ghost use Rattle.rpki_rules.specs.Chains.{HasExtension, cer};
ghost use Rattle.rpki_standing.specs.Readers.{SameReader, world_by};
ghost use Rattle.rpki_steps.specs.Below.{FindsChild};
ghost use Rattle.rpki_steps.specs.Files.{JudgesFile};

use crate::authority::Authority;
use crate::issued::below::authority_below;
use crate::whole::addresses_are_whole;
use certs_verify::{Cert, Digester, Verifier};
use rpki_rules::reason::{CerTest, FileReason};
use rpki_standing::anchors::cert_at;
use rpki_standing::payloads::Payload;
use rpki_standing::{BundleReader, StandingPoint, check_revocation};
use rpki_walk::FileKind;
use std::alloc::{AllocError, Global};

// The certificate of some authority as one at this authority's point, with what it then holds; else the first test that
// fails.
fn child_at<D: Digester, V: Verifier>(
    alloc: Global,
    cert: Cert,
    ca: &Authority,
    point: &StandingPoint,
    reader: &mut BundleReader<'_, D, V>,
) -> Result<Result<Authority, CerTest>, AllocError>
    requires { (octets : List ℕ) × CertText octets cert }
    ensures found { IfOk result (FindsChild
        (world_by D.sha256_digest D.sha1_digest V.says reader.old) ca.now point.now.point cert) }
    ensures same { SameReader V.says reader.old reader.new }
{
    match check_revocation(alloc, &cert, point.manifest_cert(), point.crl()) {
        Ok(Ok(())) => {}
        Ok(Err(test)) => {
            drop(cert);
            return Ok(Err(CerTest::CerRevocation(test)));
        }
        Err(error) => {
            drop(cert);
            return Err(error);
        }
    }
    addresses_are_whole();
    match authority_below(alloc, cert, ca.verified(), reader)? {
        Ok(child) => Ok(Ok(Authority::new(child))),
        Err(test) => Ok(Err(test)),
    }
}

/// What a file with the extension `cer` is: an authority's certificate below this authority, with what it then holds; or the
/// certificate of none, which tells nothing; else why it is neither. The verifier is asked at most once.
pub fn judged_cert_file<D: Digester, V: Verifier>(
    alloc: Global,
    ca: &Authority,
    point: &StandingPoint,
    uri: &[u8],
    reader: &mut BundleReader<'_, D, V>,
) -> Result<Result<FileKind<Authority, Payload>, FileReason>, AllocError>
    ensures judged { IfOk result (λ judged. HasExtension cer uri.now
        → JudgesFile (world_by D.sha256_digest D.sha1_digest V.says reader.old)
        ca.now point.now.point uri.now judged) }
    ensures same { SameReader V.says reader.old reader.new }
{
    let Some(cert) = cert_at(alloc, uri, &reader.index)? else {
        return Ok(Err(FileReason::BadCer));
    };
    if cert.tbs().basic_ca() != Some(true) {
        drop(cert);
        return Ok(Ok(FileKind::Nothing));
    }
    match child_at(alloc, cert, ca, point, reader)? {
        Ok(child) => Ok(Ok(FileKind::Child(child))),
        Err(test) => Ok(Err(FileReason::CerFails(test))),
    }
}
