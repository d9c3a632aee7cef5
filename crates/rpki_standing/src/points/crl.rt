//! The revocation list of a publication point (RFC 6487 5, RFC 9286 6.2).

ghost use Rattle.std.specs.Prelude.{◌≡◌, ◌↔◌, ◌+◌, ◌≤◌, IfErr, IfOk, IsTrue, Some};
ghost use Rattle.rpki_standing.specs.Crls.{Finds, IsListAt};
ghost use Rattle.rpki_standing.specs.PointFaults.{FailsList, PassesUnheld, unheld_tests};
ghost use Rattle.rpki_standing.specs.Readers.{SameReader};
ghost use Rattle.rpki_standing.specs.Tests.{Tells};
ghost use Rattle.rpki_standing.specs.certs_basics.Uris.{lookup_key as key_of};
ghost use Rattle.rpki_rules.specs.Certs.{CrlText, Digests, Verdicts};
ghost use Rattle.rpki_rules.specs.Objects.{Manifest, Object};
ghost use Rattle.rpki_rules.specs.Points.{IsCrlOf, files as files_by};
ghost use Rattle.rpki_rules.specs.ReasonViews.{list_test_of};
ghost use Rattle.rpki_rules.specs.Words.{Mem};
ghost use Rattle.rpki_rules.specs.World.{world_of};

use crate::points::kept::Crl;
use crate::points::list::check_said;
use crate::reader::BundleReader;
use crate::table::Index;
use bytes::Bytes;
use certs_cert::{Cert, Digester, Rsync, Verifier};
use certs_crl::Crl as List;
use certs_crl::decode::DecodeError;
use rpki_rules::listed::is_listed;
use rpki_rules::reason::{ListTest, ManifestTest, PointReason};
use std::alloc::{AllocError, Global};

// Whether the URI is one of the files, by their lookup keys.
fn is_file(alloc: Global, uri: &Rsync, files: &[Bytes]) -> Result<bool, AllocError>
    ensures { IfOk result (λ yes. IsTrue yes ↔ Mem files.now (key_of uri.now)) }
{
    let key = uri.lookup_key(alloc)?;
    Ok(is_listed(files, key.as_slice()))
}

// The list that those octets begin with.
fn crl_in(alloc: Global, octets: &[u8]) -> Result<Option<List>, AllocError>
    ensures { IfOk result (Finds (CrlText octets.now)) }
{
    match List::decode(alloc, octets) {
        Ok(crl) => Ok(Some(crl)),
        Err(DecodeError::Content(_, _)) => Ok(None),
        Err(_) => Err(AllocError),
    }
}

// The list at that URI, whosever it is.
fn list_at(alloc: Global, uri: &Rsync, index: &Index<'_>) -> Result<Option<List>, AllocError>
    ensures { IfOk result (λ found. (d : Digests) (v : Verdicts)
        → Finds (IsListAt (world_of d v index.now) uri.now) found) }
{
    let Some(object) = index.object_at(uri.as_slice()) else {
        return Ok(None);
    };
    crl_in(alloc, object.octets.as_slice())
}

// Whether the list is the authority's: by what it says, and by its signature, for which the verifier is asked once, at
// most. The manifest's certificate mustn't be on it. Else the first of these tests that fails.
fn check_list<D: Digester, V: Verifier>(
    crl: &List,
    ca: &Cert,
    ee: &Cert,
    reader: &mut BundleReader<'_, D, V>,
) -> Result<(), ListTest>
    ensures told { (d : Digests) (o : Object) (m : Manifest) → o.cert ≡ ee.now
        → Tells list_test_of (PassesUnheld
        (world_of d (V.says reader.old.verifier.now) reader.old.index)
        ca.now o m crl.now) unheld_tests result }
    ensures same { SameReader V.says reader.old reader.new }
    ensures asked { V.count reader.new.verifier.now ≤ V.count reader.old.verifier.now + 1 }
{
    check_said(crl, ca, ee, &reader.index)?;
    let signed = crl.verify_signature(ca.tbs().subject_public_key_info(), reader.verifier);
    if signed.is_err() {
        return Err(ListTest::ListSignature);
    }
    Ok(())
}

/// The revocation list of a point: of the authority, by the certificate of its manifest, which names the list's URI, and by
/// the lookup keys of the files that the manifest lists. The list is one of the files, current and signed by the authority,
/// and the manifest's certificate isn't on it; else the first of these tests that fails. Its serial numbers are kept aside,
/// so that one is found by halving. The verifier is asked once, at most.
pub fn find_crl<D: Digester, V: Verifier>(
    alloc: Global,
    uri: &Rsync,
    files: &[Bytes],
    ca: &Cert,
    ee: &Cert,
    reader: &mut BundleReader<'_, D, V>,
) -> Result<Result<Crl, PointReason>, AllocError>
    ensures found { IfOk result (λ told. IfOk told (λ crl. (d : Digests) (o : Object) (m : Manifest)
        → o.cert ≡ ee.now → ee.now.tbs.crl_uri ≡ Some uri.now → files_by ca.now m ≡ files.now
        → IsCrlOf (world_of d (V.says reader.old.verifier.now) reader.old.index)
        ca.now o m crl)) }
    ensures refused { IfOk result (λ told. IfErr told (λ why. (d : Digests) (o : Object)
        (m : Manifest) → o.cert ≡ ee.now → ee.now.tbs.crl_uri ≡ Some uri.now
        → files_by ca.now m ≡ files.now
        → FailsList (world_of d (V.says reader.old.verifier.now) reader.old.index)
        ca.now o m why)) }
    ensures same { SameReader V.says reader.old reader.new }
    ensures asked { V.count reader.new.verifier.now ≤ V.count reader.old.verifier.now + 1 }
{
    if !is_file(alloc, uri, files)? {
        return Ok(Err(PointReason::ManifestFails(ManifestTest::ListListed)));
    }
    let Some(crl) = list_at(alloc, uri, &reader.index)? else {
        return Ok(Err(PointReason::BadList));
    };
    if let Err(test) = check_list(&crl, ca, ee, reader) {
        drop(crl);
        return Ok(Err(PointReason::ListFails(test)));
    }
    let kept = Crl::keep(alloc, crl)?;
    Ok(Ok(kept))
}
