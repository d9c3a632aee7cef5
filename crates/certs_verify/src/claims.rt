//! What a certificate holds of each kind: below an issuer by the claim rule (RFC 6487 7.2, RFC 8360 4.2), or as an anchor.

ghost use Rattle.std.specs.Prelude.{◌∷◌, [], ℕ, IfErr, IfOk};
ghost use Rattle.certs_verify.specs.certs_extension.Cert.{CertValue};
ghost use Rattle.certs_verify.specs.certs_extension.Verified.{HoldsBelow, HoldsOwn, PassesAt, held_by, nothing};
ghost use Rattle.certs_verify.specs.certs_extension.declared.forms.VerificationTest.TheVariants as test;
ghost use Rattle.certs_verify.specs.certs_basics.Verdicts.{Verdicts};
ghost use Rattle.certs_verify.specs.resources_chain.Claims.{Kept, Lists};
ghost use Rattle.certs_verify.specs.resources_chain.Sets.{InRuns, IsRunsOf};
ghost use Rattle.certs_verify.specs.Answers.{Answers};
ghost use Rattle.certs_verify.specs.Holders.{holding};
ghost use Rattle.certs_verify.specs.Words.{TellsOutside};

use crate::holder::{Held, ResourceCert};
use crate::inspect::{
    AsBlocks, Cert, ClaimError, InheritedAsResources, InheritedIpResources, IpBlocks,
};
use certs_x509::{ClaimedKind, Overclaimed, VerificationError};
use std::alloc::Global;

// The IPv4 addresses that a certificate holds below an issuer.
fn claim_v4(
    alloc: Global,
    cert: &Cert,
    issuer: &ResourceCert,
) -> Result<IpBlocks, VerificationError>
    ensures answers { (good : Verdicts) (now : ℕ) → Answers
        (PassesAt good now issuer.now.holder.cert (held_by issuer.now.holder) cert.now)
        (test.OverclaimV4 ∷ []) result }
    ensures holds { IfOk result (IsRunsOf (Kept cert.now.tbs.v4 (InRuns issuer.now.holder.v4))) }
    ensures outside { IfErr result (TellsOutside cert.now (held_by issuer.now.holder)) }
{
    let tbs = cert.tbs();
    let held = issuer.v4_resources();
    match held.verify_issued(alloc, tbs.v4_resources(), tbs.overclaim()) {
        Ok(kept) => Ok(kept),
        Err(ClaimError::Overclaimed(numbers)) => {
            Err(VerificationError::Overclaim(Overclaimed::V4(numbers.v4())))
        }
        Err(ClaimError::Memory) => Err(VerificationError::Memory),
    }
}

// The IPv6 addresses that a certificate holds below an issuer.
fn claim_v6(
    alloc: Global,
    cert: &Cert,
    issuer: &ResourceCert,
) -> Result<IpBlocks, VerificationError>
    ensures answers { (good : Verdicts) (now : ℕ) → Answers
        (PassesAt good now issuer.now.holder.cert (held_by issuer.now.holder) cert.now)
        (test.OverclaimV6 ∷ []) result }
    ensures holds { IfOk result (IsRunsOf (Kept cert.now.tbs.v6 (InRuns issuer.now.holder.v6))) }
    ensures outside { IfErr result (TellsOutside cert.now (held_by issuer.now.holder)) }
{
    let tbs = cert.tbs();
    let held = issuer.v6_resources();
    match held.verify_issued(alloc, tbs.v6_resources(), tbs.overclaim()) {
        Ok(kept) => Ok(kept),
        Err(ClaimError::Overclaimed(numbers)) => {
            Err(VerificationError::Overclaim(Overclaimed::V6(numbers.v6())))
        }
        Err(ClaimError::Memory) => Err(VerificationError::Memory),
    }
}

/// The AS numbers that a certificate holds below an issuer.
pub(crate) fn claim_as(
    alloc: Global,
    cert: &Cert,
    issuer: &ResourceCert,
) -> Result<AsBlocks, VerificationError>
    ensures answers { (good : Verdicts) (now : ℕ) → Answers
        (PassesAt good now issuer.now.holder.cert (held_by issuer.now.holder) cert.now)
        (test.OverclaimAs ∷ []) result }
    ensures holds { IfOk result (IsRunsOf (Kept cert.now.tbs.asn (InRuns issuer.now.holder.asn))) }
    ensures outside { IfErr result (TellsOutside cert.now (held_by issuer.now.holder)) }
{
    let tbs = cert.tbs();
    let held = issuer.as_resources();
    match held.verify_issued(alloc, tbs.as_resources(), tbs.overclaim()) {
        Ok(kept) => Ok(kept),
        Err(ClaimError::Overclaimed(numbers)) => {
            Err(VerificationError::Overclaim(Overclaimed::Asn(numbers)))
        }
        Err(ClaimError::Memory) => Err(VerificationError::Memory),
    }
}

/// What a certificate holds below an issuer, or the first kind of which it claims what the issuer doesn't hold.
pub(crate) fn claim_all(
    alloc: Global,
    cert: &Cert,
    issuer: &ResourceCert,
) -> Result<Held, VerificationError>
    ensures answers { (good : Verdicts) (now : ℕ) → Answers
        (PassesAt good now issuer.now.holder.cert (held_by issuer.now.holder) cert.now)
        (test.OverclaimV4 ∷ test.OverclaimV6 ∷ test.OverclaimAs ∷ []) result }
    ensures holds { IfOk result (λ held.
        HoldsBelow (held_by issuer.now.holder) cert.now (holding cert.now held)) }
    ensures outside { IfErr result (TellsOutside cert.now (held_by issuer.now.holder)) }
{
    let v4 = claim_v4(alloc, cert, issuer)?;
    let v6 = claim_v6(alloc, cert, issuer)?;
    let asn = claim_as(alloc, cert, issuer)?;
    Ok(Held { v4, v6, asn })
}

// The IPv4 addresses that an anchor holds: those that it lists.
fn own_v4(cert: &Cert) -> Result<IpBlocks, VerificationError>
    ensures answers { (good : Verdicts) (now : ℕ) (issuer : CertValue) → Answers
        (PassesAt good now issuer nothing cert.now) (test.InheritedV4 ∷ []) result }
    ensures holds { IfOk result (IsRunsOf (Lists cert.now.tbs.v4)) }
{
    match IpBlocks::from_resources(cert.tbs().v4_resources()) {
        Ok(held) => Ok(held),
        Err(InheritedIpResources::Inherited) => Err(VerificationError::Inherited(ClaimedKind::V4)),
        Err(InheritedIpResources::Memory) => Err(VerificationError::Memory),
    }
}

// The IPv6 addresses that an anchor holds: those that it lists.
fn own_v6(cert: &Cert) -> Result<IpBlocks, VerificationError>
    ensures answers { (good : Verdicts) (now : ℕ) (issuer : CertValue) → Answers
        (PassesAt good now issuer nothing cert.now) (test.InheritedV6 ∷ []) result }
    ensures holds { IfOk result (IsRunsOf (Lists cert.now.tbs.v6)) }
{
    match IpBlocks::from_resources(cert.tbs().v6_resources()) {
        Ok(held) => Ok(held),
        Err(InheritedIpResources::Inherited) => Err(VerificationError::Inherited(ClaimedKind::V6)),
        Err(InheritedIpResources::Memory) => Err(VerificationError::Memory),
    }
}

// The AS numbers that an anchor holds: those that it lists.
fn own_as(cert: &Cert) -> Result<AsBlocks, VerificationError>
    ensures answers { (good : Verdicts) (now : ℕ) (issuer : CertValue) → Answers
        (PassesAt good now issuer nothing cert.now) (test.InheritedAs ∷ []) result }
    ensures holds { IfOk result (IsRunsOf (Lists cert.now.tbs.asn)) }
{
    match AsBlocks::from_resources(cert.tbs().as_resources()) {
        Ok(held) => Ok(held),
        Err(InheritedAsResources::Inherited) => Err(VerificationError::Inherited(ClaimedKind::Asn)),
        Err(InheritedAsResources::Memory) => Err(VerificationError::Memory),
    }
}

/// What an anchor holds, or the first kind that it inherits.
pub(crate) fn own_all(cert: &Cert) -> Result<Held, VerificationError>
    ensures answers { (good : Verdicts) (now : ℕ) (issuer : CertValue) → Answers
        (PassesAt good now issuer nothing cert.now)
        (test.InheritedV4 ∷ test.InheritedV6 ∷ test.InheritedAs ∷ []) result }
    ensures holds { IfOk result (λ held. HoldsOwn cert.now (holding cert.now held)) }
{
    let v4 = own_v4(cert)?;
    let v6 = own_v6(cert)?;
    let asn = own_as(cert)?;
    Ok(Held { v4, v6, asn })
}
