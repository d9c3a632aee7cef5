//! What stands at a publication point.

ghost use Rattle.std.specs.Prelude.{◌≡◌, ◌+◌, ◌≤◌, IfErr, IfOk, option_copied};
ghost use Rattle.rpki_standing.specs.PointFaults.{FailsUnheld};
ghost use Rattle.rpki_standing.specs.Readers.{SameReader, world_by};
ghost use Rattle.rpki_standing.specs.Standing.{IsStanding};

use crate::manifests::find_manifest;
use crate::parts::find_parts;
use crate::points::{Crl, Rsync};
use crate::reader::BundleReader;
use crate::signed::{Cert, Digester, Verifier};
use bytes::Bytes;
use objects_valid::kinds::{Manifest, ManifestContent};
use rpki_rules::reason::PointReason;
use std::alloc::{AllocError, Global};
use std::marker::Model;

/// A publication point: the manifest, the lookup keys of the files that it lists, and the revocation list. Contracts see the
/// manifest with its content, the list, and the keys.
#[derive(Drop)]
pub struct StandingPoint {
    manifest: Manifest,
    keys: Vec<Bytes>,
    crl: Crl,
}

impl Model for StandingPoint {
    ghost use Rattle.rpki_standing.specs.Standing.{StandingValue};

    ghost Value = { StandingValue };

    ghost view = { λ p. record {
      point = record {
        object = p.manifest.signed;
        manifest = p.manifest.content;
        crl = p.crl;
      };
      keys = p.keys.items;
    } };
}

impl StandingPoint {
    /// The certificate of the manifest.
    pub fn manifest_cert(&self) -> &Cert
        ensures { result.now ≡ self.now.point.object.cert }
    {
        self.manifest.cert()
    }

    /// The revocation list.
    pub fn crl(&self) -> &Crl
        ensures { result.now ≡ self.now.point.crl }
    {
        &self.crl
    }

    /// Where the revocation list stands, as the manifest's certificate names it.
    pub fn crl_uri(&self) -> Option<&Rsync>
        ensures { option_copied result ≡ self.now.point.object.cert.tbs.crl_uri }
    {
        self.manifest.cert().tbs().crl_uri()
    }

    /// The lookup keys of the files, in the manifest's order.
    pub fn files(&self) -> &[Bytes]
        ensures { result.now ≡ self.now.keys }
    {
        &self.keys
    }

    /// What the manifest says.
    pub fn content(&self) -> &ManifestContent
        ensures { result.now ≡ self.now.point.manifest }
    {
        self.manifest.content()
    }

    /// The certificate of the manifest and the revocation list, handed over.
    pub fn into_parts(self) -> (Cert, Crl)
        ensures cert { result.0 ≡ self.point.object.cert }
        ensures list { result.1 ≡ self.point.crl }
    {
        let StandingPoint {
            manifest,
            keys,
            crl,
        } = self;
        drop(keys);
        let (signed, content) = manifest.into_parts();
        drop(content);
        (signed.into_cert(), crl)
    }
}

/// What stands at the authority's publication point, what the manifest's certificate claims apart; else why the point is
/// refused: the first test that fails (RFC 9286 6.2 to 6.6). The verifier is asked three times, at most: for the manifest's
/// certificate, for its content, and for the revocation list.
pub fn standing_point<D: Digester, V: Verifier>(
    alloc: Global,
    ca: &Cert,
    reader: &mut BundleReader<'_, D, V>,
) -> Result<Result<StandingPoint, PointReason>, AllocError>
    ensures found { IfOk result (λ told. IfOk told
        (IsStanding (world_by D.sha256_digest D.sha1_digest V.says reader.old) ca.now)) }
    ensures refused { IfOk result (λ told. IfErr told
        (FailsUnheld (world_by D.sha256_digest D.sha1_digest V.says reader.old) ca.now)) }
    ensures same { SameReader V.says reader.old reader.new }
    ensures asked { V.count reader.new.verifier.now ≤ V.count reader.old.verifier.now + 3 }
{
    let manifest = match find_manifest(alloc, ca, reader)? {
        Ok(manifest) => manifest,
        Err(reason) => return Ok(Err(reason)),
    };
    match find_parts(alloc, ca, &manifest, reader) {
        Ok(Ok((keys, crl))) => Ok(Ok(StandingPoint {
            manifest,
            keys,
            crl,
        })),
        Ok(Err(reason)) => {
            drop(manifest);
            Ok(Err(reason))
        }
        Err(error) => {
            drop(manifest);
            Err(error)
        }
    }
}
