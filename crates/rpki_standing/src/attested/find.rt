//! The object at a file of a publication point, if it is sound there, and else why not.

ghost use Rattle.std.specs.Prelude.{◌≡◌, ◌+◌, ◌≤◌, IfErr, IfOk, List, ℕ};
ghost use Rattle.rpki_rules.specs.resources.Resources.{Resources};
ghost use Rattle.rpki_rules.specs.declared.reason.files.FileReason.TheVariants as reason;
ghost use Rattle.rpki_rules.specs.FileReasons.{PassesObject};
ghost use Rattle.rpki_rules.specs.Kinds.{InSet};
ghost use Rattle.rpki_rules.specs.Points.{Point as PointValue, files as files_by};
ghost use Rattle.rpki_rules.specs.ReasonViews.{FileUnheld, object_test_of};
ghost use Rattle.rpki_rules.specs.Words.{Mem};
ghost use Rattle.rpki_rules.specs.World.{World};
ghost use Rattle.rpki_standing.specs.Published.{FindsObject, signed_tests};
ghost use Rattle.rpki_standing.specs.Readers.{SameReader, world_by};
ghost use Rattle.rpki_standing.specs.Tests.{Tells};

use crate::attested::published::Published;
use crate::attested::readings::object_at;
use crate::{
    BundleReader, Cert, Crl, Digester, Verifier, check_content, check_object_cert, check_revocation,
};
use rpki_rules::reason::{FileReason, ObjectTest};
use std::alloc::{AllocError, Global};

// Whether the object is sound at a point of the authority: its certificate isn't revoked there and is issued by the
// authority, and its content is signed; else the first test that fails. The verifier is asked twice, at most.
fn check_object<D: Digester, V: Verifier>(
    alloc: Global,
    object: &Published,
    ca: &Cert,
    ee: &Cert,
    crl: &Crl,
    reader: &mut BundleReader<'_, D, V>,
) -> Result<Result<(), ObjectTest>, AllocError>
    ensures told { IfOk result (λ told. (p : PointValue) (sets : Resources)
        → p.object.cert ≡ ee.now → p.crl ≡ crl.now
        → Tells object_test_of (PassesObject
        (world_by D.sha256_digest D.sha1_digest V.says reader.old)
        (InSet sets) ca.now p object.now.object) signed_tests told) }
    ensures unheld { IfOk result (λ told. IfErr told (λ t. (w : World) (sets : Resources)
        (uri : List ℕ) → FileUnheld w (InSet sets) uri (reason.ObjectFails t))) }
    ensures same { SameReader V.says reader.old reader.new }
    ensures asked { V.count reader.new.verifier.now ≤ V.count reader.old.verifier.now + 2 }
{
    if let Err(test) = check_revocation(alloc, object.cert(), ee, crl)? {
        return Ok(Err(ObjectTest::ObjectRevocation(test)));
    }
    if let Err(test) = check_object_cert(object.cert(), ca, reader) {
        return Ok(Err(ObjectTest::ObjectCert(test)));
    }
    match check_content(alloc, object.signed(), reader.digester, reader.verifier)? {
        Ok(()) => Ok(Ok(())),
        Err(test) => Ok(Err(ObjectTest::ObjectContent(test))),
    }
}

/// The object at a file of a point of the authority, if it is a route origin or provider attestation that is sound there,
/// what its certificate claims apart; else why not: it doesn't read, or a test of its certificate's revocation, of its
/// certificate or of its content fails first. `ee` is the certificate of the point's manifest, and `crl` its revocation
/// list; `key` is the file's lookup key. The verifier is asked twice, at most: for the object's certificate, and for its
/// content.
pub fn find_object<D: Digester, V: Verifier>(
    alloc: Global,
    ca: &Cert,
    ee: &Cert,
    crl: &Crl,
    key: &[u8],
    reader: &mut BundleReader<'_, D, V>,
) -> Result<Result<Published, FileReason>, AllocError>
    ensures found { IfOk result (λ found. (p : PointValue)
        → p.object.cert ≡ ee.now → p.crl ≡ crl.now → Mem (files_by ca.now p.manifest) key.now
        → FindsObject (world_by D.sha256_digest D.sha1_digest V.says reader.old)
        ca.now p key.now found) }
    ensures same { SameReader V.says reader.old reader.new }
    ensures asked { V.count reader.new.verifier.now ≤ V.count reader.old.verifier.now + 2 }
{
    let Some(object) = object_at(alloc, key, &reader.index)? else {
        return Ok(Err(FileReason::BadObject));
    };
    match check_object(alloc, &object, ca, ee, crl, reader)? {
        Ok(()) => Ok(Ok(object)),
        Err(test) => {
            drop(object);
            Ok(Err(FileReason::ObjectFails(test)))
        }
    }
}
