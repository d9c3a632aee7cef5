//! A publication point with the octets of its files (RFC 9286 6, RFC 6487 5).

ghost use Rattle.std.specs.Prelude.{◌≡◌};

use crate::point::files::File;
use certs_basics::uri::Rsync;
use rpki_standing::{Cert, Crl, StandingPoint};

/// What stands at an authority's publication point.
#[derive(Drop)]
pub struct Point {
    /// Where the revocation list stands, as the manifest's certificate names it.
    pub crl_uri: Rsync,
    /// The revocation list.
    pub crl: Crl,
    /// The files that the manifest lists, in its order.
    pub files: Vec<File>,
    /// The certificate of the manifest.
    pub manifest_cert: Cert,
}

impl Point {
    /// That point, with the URI of its revocation list and with its files.
    pub(crate) fn of(point: StandingPoint, parts: (Rsync, Vec<File>)) -> Point
        ensures cert { result.manifest_cert ≡ point.point.object.cert }
        ensures list { result.crl ≡ point.point.crl }
        ensures uri { result.crl_uri ≡ parts.0 }
        ensures files { result.files ≡ parts.1 }
    {
        let (manifest_cert, crl) = point.into_parts();
        let (crl_uri, files) = parts;
        Point {
            crl_uri,
            crl,
            files,
            manifest_cert,
        }
    }
}
