//! What stands at an authority's publication point, what the certificate of its manifest claims apart (RFC 9286 6).

ghost use Rattle.std.specs.Prelude.{◌≡◌, ◌+◌, ◌≤◌, IfOk, IfSome};
ghost use Rattle.rpki_judge.specs.Evidence.{IsReadPoint};
ghost use Rattle.rpki_rules.specs.Points.{files as files_by};
ghost use Rattle.rpki_standing.specs.Readers.{SameReader, world_by};

use rpki_standing::{BundleReader, Cert, Digester, StandingPoint, Verifier, standing_point};
use std::alloc::{AllocError, Global};

/// The authority's publication point, what the certificate of its manifest claims apart, if it is one. The verifier is asked
/// three times, at most.
pub fn read_point<D: Digester, V: Verifier>(
    alloc: Global,
    ca: &Cert,
    reader: &mut BundleReader<'_, D, V>,
) -> Result<Option<StandingPoint>, AllocError>
    ensures read { IfOk result (IsReadPoint (λ p. p.point)
        (world_by D.sha256_digest D.sha1_digest V.says reader.old) ca.now) }
    ensures listed { IfOk result (λ found. IfSome found
        (λ p. p.keys ≡ files_by ca.now p.point.manifest)) }
    ensures same { SameReader V.says reader.old reader.new }
    ensures asked { V.count reader.new.verifier.now ≤ V.count reader.old.verifier.now + 3 }
{
    match standing_point(alloc, ca, reader)? {
        Ok(point) => Ok(Some(point)),
        Err(reason) => {
            drop(reason);
            Ok(None)
        }
    }
}
