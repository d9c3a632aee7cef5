//! Certificates of trust anchors (RFC 8630 2.3, 3).

ghost use Rattle.std.specs.Prelude.{◌≡◌, ◌↔◌, IfOk, IsTrue};
ghost use Rattle.certs_verify.specs.Answers.{AsksOnce};
ghost use Rattle.rpki_rules.specs.Certs.{encoded};
ghost use Rattle.rpki_standing.specs.Readers.{SameReader, world_by};
ghost use Rattle.rpki_steps.specs.Anchored.{FindsAnchor};

use crate::cert::tests::cert_test;
use crate::cert::validated::accepted_or_refused;
use certs_verify::{Cert, Digester, PublicKey, ResourceCert, TalInfo, Validate, Verifier};
use rpki_rules::reason::AnchorTest;
use rpki_standing::BundleReader;
use std::alloc::AllocError;
use std::rc::Rc;

// Whether the certificate's key is that key, by what is encoded of it.
fn has_key(cert: &Cert, key: &PublicKey) -> bool
    ensures { IsTrue result ↔ (encoded cert.now.tbs.key ≡ encoded key.now) }
{
    let own = cert.tbs().subject_public_key_info();
    own.encoded() == key.encoded()
}

/// The certificate as one of a trust anchor with that key, with what it lists; else the first test that fails, of which the
/// key is the first. `tal` is what the locator is called by which it was found.
pub fn anchor_cert<D: Digester, V: Verifier>(
    cert: Cert,
    key: &PublicKey,
    tal: Rc<TalInfo>,
    reader: &mut BundleReader<'_, D, V>,
) -> Result<Result<ResourceCert, AnchorTest>, AllocError>
    ensures found { IfOk result (FindsAnchor
        (world_by D.sha256_digest D.sha1_digest V.says reader.old) key.now tal.value cert) }
    ensures same { SameReader V.says reader.old reader.new }
    ensures asked { AsksOnce (V.count reader.old.verifier.now) (V.count reader.new.verifier.now) }
{
    if !has_key(&cert, key) {
        drop(tal);
        drop(cert);
        return Ok(Err(AnchorTest::SameKey));
    }
    let now = reader.index.moment();
    let validated = cert.validate_ta_at(tal, true, now, reader.digester, reader.verifier);
    match accepted_or_refused(validated)? {
        Ok(anchor) => Ok(Ok(anchor)),
        Err(error) => {
            let test = cert_test(&error);
            drop(error);
            Ok(Err(AnchorTest::AnchorCert(test)))
        }
    }
}
