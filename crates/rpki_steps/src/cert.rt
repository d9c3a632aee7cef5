//! Certificates: what they claim, and whether that fits below an authority; which test refuses them; whether two have one key;
//! and the one at a lookup key (RFC 6487 4.8, 7.2, RFC 8360 4.2).

ghost use Rattle.std.specs.Prelude.{◌≡◌, ◌↔◌, IfOk, IsTrue};
ghost use Rattle.rpki_judge.specs.Evidence.{IsReadCert};
ghost use Rattle.rpki_judge.specs.Needed.{AreClaims};
ghost use Rattle.rpki_rules.specs.Certs.{Digests, Verdicts};
ghost use Rattle.rpki_rules.specs.World.{world_of};

pub mod claims;
pub(crate) mod tests;
pub(crate) mod validated;

use rpki_judge::Claims;
use rpki_standing::anchors::cert_at;
use rpki_standing::{Cert, Index};
use std::alloc::{AllocError, Global};

/// What the certificate claims, by its policy (RFC 6487 4.8.10, 4.8.11, RFC 8360 4.2).
pub fn claims_of(cert: &Cert) -> Claims<'_>
    ensures { AreClaims cert.now result }
{
    let tbs = cert.tbs();
    Claims {
        policy: tbs.overclaim(),
        asn: tbs.as_resources(),
        v4: tbs.v4_resources(),
        v6: tbs.v6_resources(),
    }
}

/// Whether both certificates have one subject key identifier (RFC 6487 4.8.2).
pub fn have_one_key(cert: &Cert, other: &Cert) -> bool
    ensures { IsTrue result
        ↔ (cert.now.tbs.subject_key_identifier ≡ other.now.tbs.subject_key_identifier) }
{
    cert.tbs().subject_key_identifier() == other.tbs().subject_key_identifier()
}

/// The certificate that the object with that lookup key reads as, if it does.
pub fn find_cert(alloc: Global, uri: &[u8], index: &Index<'_>) -> Result<Option<Cert>, AllocError>
    ensures { IfOk result (λ found. (d : Digests) (v : Verdicts)
        → IsReadCert (λ c. c) (world_of d v index.now) uri.now found) }
{
    cert_at(alloc, uri, index)
}
