//! What a certificate claims of number resources below an authority (RFC 6487 7.2, RFC 8360 4.2).

ghost use Rattle.std.specs.Prelude.{◌≡◌, IfOk, OnErr};
ghost use Rattle.rpki_steps.specs.Holders.{sets_of};
ghost use Rattle.rpki_rules.specs.Chains.{Fits};
ghost use Rattle.rpki_rules.specs.Kinds.{InSet};
ghost use Rattle.rpki_steps.specs.Claims.{FindsSets, TellsFit, claims_of};

use certs_verify::{Cert, ResourceCert};
use rpki_rules::reason::Overclaimed;
use rpki_walk::step::{Claim, Held, Holding, claim_fits, held_below};
use std::alloc::{AllocError, Global};

// What the authority holds.
fn holding_of(ca: &ResourceCert) -> Holding<'_>
    ensures { result ≡ sets_of ca.now }
{
    Holding {
        asn: ca.as_resources(),
        ipv4: ca.v4_resources(),
        ipv6: ca.v6_resources(),
    }
}

// What the certificate claims.
fn claim_of(cert: &Cert) -> Claim<'_>
    ensures { result ≡ claims_of cert.now }
{
    let tbs = cert.tbs();
    Claim {
        mode: tbs.overclaim(),
        asn: tbs.as_resources(),
        ipv4: tbs.v4_resources(),
        ipv6: tbs.v6_resources(),
    }
}

/// Whether the certificate's claim fits in what the authority holds, by the certificate's own policy; else the first kind of
/// which it doesn't, IPv4 first, then IPv6, with the numbers that are listed and aren't held. Memory is wanted only to tell
/// these.
pub fn fits_below(
    alloc: Global,
    cert: &Cert,
    ca: &ResourceCert,
) -> Result<Result<(), Overclaimed>, AllocError>
    ensures told { IfOk result (TellsFit (InSet (sets_of ca.now)) cert.now) }
    ensures memory { OnErr result (¬ (Fits (InSet (sets_of ca.now)) cert.now)) }
{
    claim_fits(alloc, &holding_of(ca), &claim_of(cert))
}

/// What the certificate holds below the authority; where its claim doesn't fit, the first kind of which it doesn't, with the
/// numbers that are listed and aren't held.
pub fn sets_below(
    alloc: Global,
    cert: &Cert,
    ca: &ResourceCert,
) -> Result<Result<Held, Overclaimed>, AllocError>
    ensures { IfOk result (FindsSets (InSet (sets_of ca.now)) cert.now) }
{
    held_below(alloc, &holding_of(ca), &claim_of(cert))
}
