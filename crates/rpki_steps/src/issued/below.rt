//! Certificates below an authority (RFC 6487 7.2, RFC 8360 4.2).

ghost use Rattle.std.specs.Prelude.{IfOk};
ghost use Rattle.certs_verify.specs.Answers.{AsksOnce};
ghost use Rattle.rpki_standing.specs.Readers.{SameReader, world_by};
ghost use Rattle.rpki_steps.specs.Below.{FindsBelow};

use crate::cert::tests::cer_test;
use crate::cert::validated::accepted_or_refused;
use certs_verify::{Cert, Digester, ResourceCert, Validate, Verifier};
use rpki_rules::reason::CerTest;
use rpki_standing::BundleReader;
use std::alloc::{AllocError, Global};

/// The certificate as that of an authority below the issuer, with what it then holds: its form, its signature and validity,
/// and its claim are looked at. Else the first test of these that fails, with the numbers that are claimed and aren't held
/// where it is the claim.
pub fn authority_below<D: Digester, V: Verifier>(
    alloc: Global,
    cert: Cert,
    issuer: &ResourceCert,
    reader: &mut BundleReader<'_, D, V>,
) -> Result<Result<ResourceCert, CerTest>, AllocError>
    ensures found { IfOk result (FindsBelow
        (world_by D.sha256_digest D.sha1_digest V.says reader.old) issuer.now cert) }
    ensures same { SameReader V.says reader.old reader.new }
    ensures asked { AsksOnce (V.count reader.old.verifier.now) (V.count reader.new.verifier.now) }
{
    let now = reader.index.moment();
    let validated = cert.validate_ca_at(alloc, issuer, true, now, reader.digester, reader.verifier);
    match accepted_or_refused(validated)? {
        Ok(found) => Ok(Ok(found)),
        Err(error) => Ok(Err(cer_test(error))),
    }
}
