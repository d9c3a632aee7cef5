//! What stands at an authority's publication point (RFC 9286 6, RFC 6487 5).

ghost use Rattle.std.specs.Prelude.{◌≡◌, ◌+◌, ◌≤◌, IfOk};
ghost use Rattle.rpki_standing.specs.certs_key.Digesting.{digests_of};
ghost use Rattle.rpki_standing.specs.certs_extension.Verified.{held_by};
ghost use Rattle.rpki_rules.specs.Chains.{StandsIn};
ghost use Rattle.rpki_rules.specs.Points.{IsPoint};
ghost use Rattle.rpki_rules.specs.World.{world_of};
ghost use Rattle.rpki_steps.specs.PointOctets.{FindsPoint};

use crate::cert::claims::fits_below;
use crate::point::kept::keep_with;
use crate::point::parts::read_parts;
use crate::point::standing::Point;
use certs_verify::ResourceCert;
use rpki_rules::Bundle;
use rpki_standing::{BundleReader, Cert, Digester, Index, Verifier, standing_point};
use std::alloc::{AllocError, Global};

/// What stands at the authority's publication point, by what the authority holds: the point, or nothing where it is refused,
/// of which nothing counts (RFC 9286 6.2 to 6.6). The certificate of its manifest claims no more than the authority holds,
/// by its own policy. The verifier is asked three times, at most. Refused for lack of memory alone.
pub fn point<D: Digester, V: Verifier>(
    alloc: Global,
    bundle: &Bundle,
    ca: &ResourceCert,
    digester: &D,
    verifier: &mut V,
) -> Result<Option<Point>, AllocError>
    ensures found { IfOk result (λ found. let w = world_of
        (digests_of D.sha256_digest D.sha1_digest digester.now) (V.says verifier.old) bundle.now
        in FindsPoint (StandsIn w (held_by ca.now.holder) ca.now.holder.cert) w
        ca.now.holder.cert found) }
    ensures same { V.says verifier.new ≡ V.says verifier.old }
    ensures asked { V.count verifier.new ≤ V.count verifier.old + 3 }
{
    let Some(point) = point_unheld(alloc, bundle, ca.as_cert(), digester, verifier)? else {
        return Ok(None);
    };
    match fits_below(alloc, &point.manifest_cert, ca) {
        Ok(Ok(())) => Ok(Some(point)),
        Ok(Err(numbers)) => {
            drop(numbers);
            drop(point);
            Ok(None)
        }
        Err(error) => {
            drop(point);
            Err(error)
        }
    }
}

/// What stands at the authority's publication point, what the certificate of its manifest claims apart; nothing where the
/// point is refused (RFC 9286 6.2 to 6.6). The verifier is asked three times, at most: for the manifest's certificate, for
/// its content, and for the revocation list. Refused for lack of memory alone.
pub fn point_unheld<D: Digester, V: Verifier>(
    alloc: Global,
    bundle: &Bundle,
    ca: &Cert,
    digester: &D,
    verifier: &mut V,
) -> Result<Option<Point>, AllocError>
    ensures found { IfOk result (λ found. let w = world_of
        (digests_of D.sha256_digest D.sha1_digest digester.now) (V.says verifier.old) bundle.now
        in FindsPoint (IsPoint w ca.now) w ca.now found) }
    ensures same { V.says verifier.new ≡ V.says verifier.old }
    ensures asked { V.count verifier.new ≤ V.count verifier.old + 3 }
{
    let mut reader = BundleReader {
        index: Index::new(bundle),
        digester,
        verifier,
    };
    let standing = standing_point(alloc, ca, &mut reader);
    // So the caller's verifier is the one that was asked.
    let _asked = reader.verifier;
    let point = match standing? {
        Ok(point) => point,
        Err(reason) => {
            drop(reason);
            return Ok(None);
        }
    };
    let parts = read_parts(alloc, ca, &point, bundle);
    let Some((point, parts)) = keep_with(point, parts)? else {
        return Ok(None);
    };
    Ok(Some(Point::of(point, parts)))
}
