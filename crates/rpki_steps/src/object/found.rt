//! Objects at files of a publication point, what their certificates claim apart (RFC 6488 3).

ghost use Rattle.std.specs.Prelude.{◌≡◌, ◌+◌, ◌≤◌, IfOk};
ghost use Rattle.rpki_judge.specs.Evidence.{IsReadObject};
ghost use Rattle.rpki_rules.specs.Points.{files as files_by};
ghost use Rattle.rpki_standing.specs.Readers.{SameReader, world_by};

use rpki_standing::attested::{Published, find_object};
use rpki_standing::points::is_listed;
use rpki_standing::{BundleReader, Cert, Digester, StandingPoint, Verifier};
use std::alloc::{AllocError, Global};

/// The object at a file of the authority's point that is sound there, what its certificate claims apart, if it is one. The
/// verifier is asked twice, at most.
pub fn read_object<D: Digester, V: Verifier>(
    alloc: Global,
    ca: &Cert,
    point: &StandingPoint,
    uri: &[u8],
    reader: &mut BundleReader<'_, D, V>,
) -> Result<Option<Published>, AllocError>
    requires { point.now.keys ≡ files_by ca.now point.now.point.manifest }
    ensures read { IfOk result (IsReadObject (λ o. o.object) (λ o. o.payload)
        (world_by D.sha256_digest D.sha1_digest V.says reader.old) ca.now point.now.point uri.now) }
    ensures same { SameReader V.says reader.old reader.new }
    ensures asked { V.count reader.new.verifier.now ≤ V.count reader.old.verifier.now + 2 }
{
    if !is_listed(point.files(), uri) {
        return Ok(None);
    }
    let (ee, crl) = (point.manifest_cert(), point.crl());
    match find_object(alloc, ca, ee, crl, uri, reader)? {
        Ok(object) => Ok(Some(object)),
        Err(reason) => {
            drop(reason);
            Ok(None)
        }
    }
}
