//! What stands at an authority's publication point, by what the authority holds (RFC 9286 6, RFC 6487 7.2).

ghost use Rattle.std.specs.Prelude.{◌≡◌, IfErr, IfOk, IfSome};
ghost use Rattle.rpki_steps.specs.Holders.{cert_of, sets_of};
ghost use Rattle.rpki_rules.specs.Chains.{StandsIn};
ghost use Rattle.rpki_rules.specs.Kinds.{InSet};
ghost use Rattle.rpki_rules.specs.PointReasons.{PointFails};
ghost use Rattle.rpki_rules.specs.Points.{files};
ghost use Rattle.rpki_rules.specs.ReasonViews.{PointUnheld, point_reason_of};
ghost use Rattle.rpki_standing.specs.Readers.{SameReader, world_by};
ghost use Rattle.rpki_walk.specs.Repository.{IsRead};
ghost use Rattle.rpki_steps.specs.Points.{point_of};

use crate::cert::claims::fits_below;
use certs_verify::{Digester, ResourceCert, Verifier};
use rpki_rules::reason::{ListTest, PointReason};
use rpki_standing::{BundleReader, StandingPoint, standing_point};
use std::alloc::{AllocError, Global};

/// What stands at the authority's publication point; else why none does: the first test that fails, and last whether what
/// the manifest's certificate claims fits in what the authority holds, with the numbers that aren't held. The verifier is
/// asked three times, at most.
pub fn read_point<D: Digester, V: Verifier>(
    alloc: Global,
    ca: &ResourceCert,
    reader: &mut BundleReader<'_, D, V>,
) -> Result<Result<StandingPoint, PointReason>, AllocError>
    ensures stands { IfOk result (λ told. IfOk told (λ p. StandsIn
        (world_by D.sha256_digest D.sha1_digest V.says reader.old)
        (InSet (sets_of ca.now)) (cert_of ca.now) (point_of p))) }
    ensures listed { IfOk result (λ told. IfOk told
        (λ p. p.keys ≡ files (cert_of ca.now) (point_of p).manifest)) }
    ensures refused { IfOk result (λ told. IfErr told (λ r. PointFails
        (world_by D.sha256_digest D.sha1_digest V.says reader.old)
        (InSet (sets_of ca.now)) (cert_of ca.now) (point_reason_of r))) }
    ensures unheld { IfOk result (λ told. IfErr told (PointUnheld
        (world_by D.sha256_digest D.sha1_digest V.says reader.old)
        (InSet (sets_of ca.now)) (cert_of ca.now))) }
    ensures same { SameReader V.says reader.old reader.new }
{
    let point = match standing_point(alloc, ca.as_cert(), reader)? {
        Ok(point) => point,
        Err(reason) => return Ok(Err(reason)),
    };
    match fits_below(alloc, point.manifest_cert(), ca) {
        Ok(Ok(())) => Ok(Ok(point)),
        Ok(Err(numbers)) => {
            drop(point);
            let test = ListTest::ManifestClaim(numbers);
            Ok(Err(PointReason::ListFails(test)))
        }
        Err(error) => {
            drop(point);
            Err(error)
        }
    }
}

/// What stands at the authority's publication point, or nothing where none does, whyever. The verifier is asked three
/// times, at most.
pub fn find_point<D: Digester, V: Verifier>(
    alloc: Global,
    ca: &ResourceCert,
    reader: &mut BundleReader<'_, D, V>,
) -> Result<Option<StandingPoint>, AllocError>
    ensures read { IfOk result (IsRead point_of
        (world_by D.sha256_digest D.sha1_digest V.says reader.old)
        (InSet (sets_of ca.now)) (cert_of ca.now)) }
    ensures listed { IfOk result (λ found. IfSome found
        (λ p. p.keys ≡ files (cert_of ca.now) (point_of p).manifest)) }
    ensures same { SameReader V.says reader.old reader.new }
{
    match read_point(alloc, ca, reader)? {
        Ok(point) => Ok(Some(point)),
        Err(reason) => {
            drop(reason);
            Ok(None)
        }
    }
}
