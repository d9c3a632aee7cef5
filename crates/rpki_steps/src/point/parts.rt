//! What a publication point is told with: its files' octets, and where its revocation list stands (RFC 9286 6.4, RFC 6487 5).

ghost use Rattle.std.specs.Prelude.{IfOk, MatchOption};
ghost use Rattle.rpki_rules.specs.World.{find_object};
ghost use Rattle.rpki_steps.specs.Parts.{ArePartsOf, HasNoParts};

use crate::point::files::{File, read_files};
use crate::point::kept::keep_with;
use certs_basics::uri::Rsync;
use rpki_rules::Bundle;
use rpki_standing::{Cert, StandingPoint};
use std::alloc::{AllocError, Global};

/// The URI by which the certificate of the point's manifest names the revocation list, and the files of the authority's
/// repository that the manifest lists, with their octets; nothing where it names none, or one of the files isn't held.
pub(crate) fn read_parts(
    alloc: Global,
    ca: &Cert,
    point: &StandingPoint,
    bundle: &Bundle,
) -> Result<Option<(Rsync, Vec<File>)>, AllocError>
    ensures { IfOk result (λ found. MatchOption found
        (HasNoParts (find_object bundle.now.objects) ca.now point.now.point)
        (λ p. ArePartsOf (find_object bundle.now.objects) ca.now point.now.point p.0 p.1.items)) }
{
    let Some(named) = point.crl_uri() else {
        return Ok(None);
    };
    let uri = named.clone()?;
    let files = read_files(alloc, ca, point.content(), bundle);
    keep_with(uri, files)
}
