//! What a file of a publication point is (RFC 6481 2.2).

ghost use Rattle.std.specs.Prelude.{◌↔◌, IfOk, IsTrue};
ghost use Rattle.rpki_steps.specs.Holders.{cert_of, sets_of};
ghost use Rattle.rpki_rules.specs.Kinds.{InSet};
ghost use Rattle.rpki_rules.specs.Points.{files};
ghost use Rattle.rpki_rules.specs.Words.{Mem};
ghost use Rattle.rpki_standing.specs.Readers.{SameReader, world_by};
ghost use Rattle.rpki_walk.specs.Asked.{HasFileReason};
ghost use Rattle.rpki_steps.specs.Files.{IsFile, JudgesFile, TellsChain};

use crate::authority::Authority;
use crate::issued::file::judged_cert_file;
use crate::object::payload::judged_payload_file;
use bytes::Bytes;
use certs_verify::{Digester, Verifier};
use rpki_rules::reason::FileReason;
use rpki_standing::payloads::{Extension, Payload, extension_of};
use rpki_standing::points::is_listed;
use rpki_standing::{BundleReader, StandingPoint};
use rpki_walk::FileKind;
use std::alloc::{AllocError, Global};

/// What a file of the authority's point is, by its lookup key; or why it is refused. Keys and depth of chains aren't looked
/// at. The verifier is asked twice, at most.
pub fn judged_file<D: Digester, V: Verifier>(
    alloc: Global,
    ca: &Authority,
    point: &StandingPoint,
    uri: &[u8],
    reader: &mut BundleReader<'_, D, V>,
) -> Result<Result<FileKind<Authority, Payload>, FileReason>, AllocError>
    ensures judged { IfOk result (λ judged.
        Mem (files (cert_of ca.now) point.now.point.manifest) uri.now
        → JudgesFile (world_by D.sha256_digest D.sha1_digest V.says reader.old)
        ca.now point.now.point uri.now judged) }
    ensures same { SameReader V.says reader.old reader.new }
{
    match extension_of(uri) {
        Some(Extension::Cer) => judged_cert_file(alloc, ca, point, uri, reader),
        Some(Extension::Roa) => judged_payload_file(alloc, ca, point, uri, reader),
        Some(Extension::Asa) => judged_payload_file(alloc, ca, point, uri, reader),
        None => Ok(Ok(FileKind::Nothing)),
    }
}

/// What a file of the authority's point is, by its lookup key; keys and depth of chains apart. The verifier is asked twice,
/// at most.
pub fn read_file<D: Digester, V: Verifier>(
    alloc: Global,
    ca: &Authority,
    point: &StandingPoint,
    uri: &[u8],
    reader: &mut BundleReader<'_, D, V>,
) -> Result<FileKind<Authority, Payload>, AllocError>
    ensures filed { IfOk result (λ filed.
        Mem (files (cert_of ca.now) point.now.point.manifest) uri.now
        → IsFile (world_by D.sha256_digest D.sha1_digest V.says reader.old)
        ca.now point.now.point uri.now filed) }
    ensures same { SameReader V.says reader.old reader.new }
{
    match judged_file(alloc, ca, point, uri, reader)? {
        Ok(filed) => Ok(filed),
        Err(reason) => {
            drop(reason);
            Ok(FileKind::Bad)
        }
    }
}

// Whether the certificate's key is one of those. They are gone through, one by one.
fn is_on(child: &Authority, keys: &[Bytes]) -> bool
    ensures { IsTrue result ↔ Mem keys.now (cert_of child.now).tbs.subject_key_identifier }
{
    let key = child.verified().as_cert().tbs().subject_key_identifier();
    is_listed(keys, key.as_slice())
}

// Why a certificate that is issued as it should be may not follow a chain with these keys, if it may not: its key is one of
// them, or they are as many as a chain may have.
fn chain_reason(child: &Authority, keys: &[Bytes], depth: usize) -> Option<FileReason>
    ensures { TellsChain (cert_of child.now).tbs.subject_key_identifier keys.now depth result }
{
    if is_on(child, keys) {
        return Some(FileReason::Loop);
    }
    if keys.len() >= depth {
        return Some(FileReason::Depth);
    }
    None
}

/// Why a file of the authority's point is refused on a chain with these keys, with the numbers that aren't held where it
/// claims them; nothing where it isn't refused. The verifier is asked twice, at most.
pub fn file_reason<D: Digester, V: Verifier>(
    alloc: Global,
    ca: &Authority,
    point: &StandingPoint,
    keys: &[Bytes],
    uri: &[u8],
    reader: &mut BundleReader<'_, D, V>,
) -> Result<Option<FileReason>, AllocError>
    ensures reason { IfOk result (λ reason.
        Mem (files (cert_of ca.now) point.now.point.manifest) uri.now
        → HasFileReason (world_by D.sha256_digest D.sha1_digest V.says reader.old)
        (InSet (sets_of ca.now)) keys.now (cert_of ca.now) point.now.point uri.now reason) }
    ensures same { SameReader V.says reader.old reader.new }
{
    match judged_file(alloc, ca, point, uri, reader)? {
        Ok(FileKind::Child(child)) => {
            let depth = usize::from(reader.index.depth());
            let reason = chain_reason(&child, keys, depth);
            drop(child);
            Ok(reason)
        }
        Ok(FileKind::Attests(payload)) => {
            drop(payload);
            Ok(None)
        }
        Ok(FileKind::Nothing) => Ok(None),
        Ok(FileKind::Bad) => Ok(None),
        Err(reason) => Ok(Some(reason)),
    }
}
