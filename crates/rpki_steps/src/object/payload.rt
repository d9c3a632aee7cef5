//! Files of a publication point that attest something (RFC 6481 2.2, RFC 6488 3, RFC 9582 5,
//! draft-ietf-sidrops-aspa-profile 4).

ghost use Rattle.std.specs.Prelude.{◌⊎◌, IfErr, IfOk, MatchOption, List, ℕ};
ghost use Rattle.rpki_steps.specs.Holders.{cert_of, sets_of};
ghost use Rattle.rpki_steps.specs.certs_basics.Lists.{FirstFailing};
ghost use Rattle.rpki_steps.specs.resources.Resources.{Resources};
ghost use Rattle.rpki_steps.specs.resources_chain.Sets.{InRuns};
ghost use Rattle.rpki_rules.specs.Attests.{OfAspa, OfRoa};
ghost use Rattle.rpki_rules.specs.Certs.{Cert as CertValue};
ghost use Rattle.rpki_rules.specs.Chains.{HasExtension, asa, roa};
ghost use Rattle.rpki_rules.specs.FileReasons.{HasPayload, PassesObject, cover_tests};
ghost use Rattle.rpki_rules.specs.Kinds.{InSet};
ghost use Rattle.rpki_rules.specs.Objects.{Object};
ghost use Rattle.rpki_rules.specs.Points.{Point as PointValue, files};
ghost use Rattle.rpki_rules.specs.ReasonViews.{ObjectUnheld, object_test_of};
ghost use Rattle.rpki_rules.specs.Words.{Mem};
ghost use Rattle.rpki_rules.specs.World.{World};
ghost use Rattle.rpki_standing.specs.Readers.{SameReader, world_by};
ghost use Rattle.rpki_standing.specs.Tests.{Tells};
ghost use Rattle.rpki_standing.specs.Views.{payload_of};
ghost use Rattle.rpki_standing.specs.objects_payload.Addresses.{roa_address};
ghost use Rattle.rpki_standing.specs.objects_payload.Covered.{AreHeld, IsHeld};
ghost use Rattle.rpki_walk.specs.Repository.{HasKept};
ghost use Rattle.rpki_steps.specs.Files.{JudgesFile};
ghost use Rattle.rpki_steps.specs.Objects.{held_tests};

use crate::authority::Authority;
use crate::cert::claims::sets_below;
use certs_verify::inspect::IpBlocks;
use certs_verify::{Digester, ResourceCert, Verifier};
use rpki_rules::AddressFamily;
use rpki_rules::reason::{FileReason, ObjectTest};
use rpki_standing::attested::{Published, find_object};
use rpki_standing::payloads::{
    AsProviderAttestation, Payload, RoaIpAddress, RoaIpAddresses, RouteOriginAttestation,
};
use rpki_standing::{BundleReader, StandingPoint};
use rpki_walk::FileKind;
use rpki_walk::step::Held;
use std::alloc::{AllocError, Global};

// The first of the prefixes that isn't held: not all of its addresses are in the set, which is one of their family.
fn first_unheld(addresses: &RoaIpAddresses, held: &IpBlocks) -> Option<RoaIpAddress>
    ensures { MatchOption result (AreHeld (InRuns held.now) addresses.now)
        (λ a. FirstFailing (IsHeld (InRuns held.now)) addresses.now (roa_address a)) }
{
    for address in addresses.iter() {
        if !held.contains_prefix(address.prefix()) {
            return Some(address);
        }
    }
    None
}

// Whether all prefixes are in those sets: those of IPv4, and those of IPv6; else the first that isn't. `held` is what a
// certificate holds below one that holds `above`.
fn check_roa(content: &RouteOriginAttestation, held: &Held) -> Result<(), ObjectTest>
    ensures told { (w : World) (above : Resources) (ca : CertValue) (p : PointValue) (o : Object)
        → HasKept (InSet above) o.cert held.now
        → Tells object_test_of (PassesObject w (InSet above) ca p o)
        (cover_tests (OfRoa content.now)) result }
    ensures unheld { IfErr result (λ t. (w : World) (above : Resources) (uri : List ℕ)
        → ObjectUnheld w (InSet above) uri t) }
{
    if let Some(address) = first_unheld(content.v4_addrs(), held.ipv4()) {
        return Err(ObjectTest::PrefixHeld(AddressFamily::Ipv4, address));
    }
    if let Some(address) = first_unheld(content.v6_addrs(), held.ipv6()) {
        return Err(ObjectTest::PrefixHeld(AddressFamily::Ipv6, address));
    }
    Ok(())
}

// Whether the customer is in those sets. `held` is what a certificate holds below one that holds `above`.
fn check_aspa(content: &AsProviderAttestation, held: &Held) -> Result<(), ObjectTest>
    ensures told { (w : World) (above : Resources) (ca : CertValue) (p : PointValue) (o : Object)
        → HasKept (InSet above) o.cert held.now
        → Tells object_test_of (PassesObject w (InSet above) ca p o)
        (cover_tests (OfAspa content.now)) result }
    ensures unheld { IfErr result (λ t. (w : World) (above : Resources) (uri : List ℕ)
        → ObjectUnheld w (InSet above) uri t) }
{
    if held.asn().contains_asn(content.customer_as()) {
        Ok(())
    } else {
        Err(ObjectTest::CustomerHeld(content.customer_as()))
    }
}

// Whether what is attested is in those sets: of a route origin attestation all prefixes, of a provider attestation the
// customer; else the first test that fails. `held` is what a certificate holds below one that holds `above`.
fn check_cover(payload: &Payload, held: &Held) -> Result<(), ObjectTest>
    ensures told { (w : World) (above : Resources) (ca : CertValue) (p : PointValue) (o : Object)
        → HasKept (InSet above) o.cert held.now
        → Tells object_test_of (PassesObject w (InSet above) ca p o)
        (cover_tests (payload_of payload.now)) result }
    ensures unheld { IfErr result (λ t. (w : World) (above : Resources) (uri : List ℕ)
        → ObjectUnheld w (InSet above) uri t) }
{
    match payload {
        Payload::Roa(content) => check_roa(content, held),
        Payload::Aspa(content) => check_aspa(content, held),
    }
}

// Whether the claim of the object's certificate fits in what the authority holds, and what it attests is held with it; else
// the first test that fails, with the numbers that are claimed and aren't held where it is the claim.
fn check_within(
    alloc: Global,
    object: &Published,
    ca: &ResourceCert,
) -> Result<Result<(), ObjectTest>, AllocError>
    ensures told { IfOk result (λ told. (w : World) (p : PointValue) → Tells object_test_of
        (PassesObject w (InSet (sets_of ca.now)) (cert_of ca.now) p object.now.object)
        (held_tests object.now.payload) told) }
    ensures unheld { IfOk result (λ told. IfErr told (λ t. (w : World) (uri : List ℕ)
        → HasPayload w uri object.now.object object.now.payload
        → ObjectUnheld w (InSet (sets_of ca.now)) uri t)) }
{
    match sets_below(alloc, object.cert(), ca)? {
        Ok(held) => {
            let told = check_cover(object.payload(), &held);
            drop(held);
            Ok(told)
        }
        Err(claimed) => Ok(Err(ObjectTest::ObjectClaim(claimed))),
    }
}

/// What a file with the extension `roa` or `asa` is: an object that is good there, with what it attests; or else why not.
/// The verifier is asked twice, at most.
pub fn judged_payload_file<D: Digester, V: Verifier>(
    alloc: Global,
    ca: &Authority,
    point: &StandingPoint,
    uri: &[u8],
    reader: &mut BundleReader<'_, D, V>,
) -> Result<Result<FileKind<Authority, Payload>, FileReason>, AllocError>
    ensures judged { IfOk result (λ judged. HasExtension roa uri.now ⊎ HasExtension asa uri.now
        → Mem (files (cert_of ca.now) point.now.point.manifest) uri.now
        → JudgesFile (world_by D.sha256_digest D.sha1_digest V.says reader.old)
        ca.now point.now.point uri.now judged) }
    ensures same { SameReader V.says reader.old reader.new }
{
    let ca = ca.verified();
    let (cert, ee, crl) = (ca.as_cert(), point.manifest_cert(), point.crl());
    let object = match find_object(alloc, cert, ee, crl, uri, reader)? {
        Ok(object) => object,
        Err(reason) => return Ok(Err(reason)),
    };
    match check_within(alloc, &object, ca) {
        Ok(Ok(())) => Ok(Ok(FileKind::Attests(object.into_payload()))),
        Ok(Err(test)) => {
            drop(object);
            Ok(Err(FileReason::ObjectFails(test)))
        }
        Err(error) => {
            drop(object);
            Err(error)
        }
    }
}
