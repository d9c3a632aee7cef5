//! How an attestation is made of what was given: its sets, its octets, and what these say.

ghost use Rattle.std.specs.Prelude.{◌≡◌, ◌↔◌, All, IfErr, IfOk, IsTrue};
ghost use Rattle.objects_written.specs.bcder_tree.declared.mode.Mode.TheVariants.{Der};
ghost use Rattle.objects_written.specs.bcder_content.Texts.{SpellsOf};
ghost use Rattle.objects_written.specs.certs_basics.Basics.{IsTwentyLong};
ghost use Rattle.objects_rta.specs.Attestations.{Attestation, IsAttestation};
ghost use Rattle.objects_rta_written.specs.declared.builder.AttestationError.TheVariants.{Memory as NoMemory};
ghost use Rattle.objects_rta_written.specs.Contents.{IsReadable, attestation, listed};
ghost use Rattle.objects_rta_written.specs.Making.{AreAllNone, AreSetsOf, IsStatedBy, MakingRefused, SetsRefused, chosen, said_by, told_as};
ghost use Rattle.objects_rta_written.specs.Taking.{TextRefused};

use crate::attestation::AttestationValue;
use crate::builder::AttestationError;
use crate::der::text_of;
use bytes::Bytes;
use certs::written::{Captured, EncodeError};
use certs_key::KeyIdentifier;
use certs_key::decode::DecodeError;
use objects_rta::ResourceTaggedAttestation;
use objects_rta::laws::one_attestation;
use resources_as::{AsBlocks, AsBlocksBuilder};
use resources_ip::{IpBlocks, IpBlocksBuilder, IpResources};
use std::alloc::Global;

/// Of each kind the set of all that was given; some set has a number, and that of IPv4 addresses is over whole ones.
#[derive(Drop)]
pub(crate) struct Sets {
    asn: AsBlocks,
    v4: IpBlocks,
    v6: IpBlocks,
}

// Whether no set has a number.
fn are_none(asn: &AsBlocks, v4: &IpBlocks, v6: &IpBlocks) -> bool
    ensures { IsTrue result ↔ AreAllNone asn.now v4.now v6.now }
{
    asn.is_empty() && v4.is_empty() && v6.is_empty()
}

/// The sets of the blocks.
pub(crate) fn sets_of(
    alloc: Global,
    asn: AsBlocksBuilder,
    v4: IpBlocksBuilder,
    v6: IpBlocksBuilder,
) -> Result<Sets, AttestationError>
    ensures sets { IfOk result (AreSetsOf asn v4 v6) }
    ensures refused { IfErr result (SetsRefused asn v4 v6) }
{
    let asn = asn.finalize(alloc)?;
    let v4 = v4.finalize(alloc)?;
    let v6 = v6.finalize(alloc)?;
    if are_none(&asn, &v4, &v6) {
        return Err(AttestationError::NoResources);
    }
    if !v4.is_whole_v4() {
        return Err(AttestationError::NotWhole);
    }
    Ok(Sets { asn, v4, v6 })
}

// The set, if it has a number.
fn numbers_listed(set: AsBlocks) -> Option<AsBlocks>
    ensures { result ≡ listed (chosen set) }
{
    set.runs_are_maximal();
    if set.is_empty() {
        drop(set);
        return None;
    }
    Some(set)
}

// The set as resources, which are missing where it has no address.
fn addresses_listed(set: IpBlocks) -> IpResources
    ensures { result ≡ chosen set }
{
    set.runs_are_maximal();
    if set.is_empty() {
        drop(set);
        return IpResources::missing();
    }
    IpResources::blocks(set)
}

// Identifiers of keys have 20 octets. This is a law about them: nothing is done.
fn are_long(keys: &[KeyIdentifier])
    ensures { All IsTwentyLong keys.now }
{
    let mut rest = keys;
    while let Some((key, others)) = rest.split_first() {
        let _octets = key.as_slice();
        rest = others;
    }
}

// What octets say that spell an attestation; it takes memory alone.
fn content_of(alloc: Global, octets: Bytes) -> Result<ResourceTaggedAttestation, AttestationError>
    requires { (x : Attestation) × SpellsOf Der (IsAttestation Der) octets x }
    ensures made { IfOk result (λ a. (x : Attestation) → SpellsOf Der (IsAttestation Der) octets x
        → a ≡ x) }
    ensures refused { IfErr result (λ e. e ≡ NoMemory) }
{
    one_attestation();
    match ResourceTaggedAttestation::decode(alloc, octets) {
        Ok(content) => Ok(content),
        Err(DecodeError::Memory) => Err(AttestationError::Memory),
        Err(DecodeError::Source(never)) => match never {},
        Err(DecodeError::Content(error, _)) => {
            drop(error);
            unreachable!()
        }
    }
}

// The octets of the attestation of these keys, of the sets that have a number, and of the digest.
fn write(
    alloc: Global,
    keys: &[KeyIdentifier],
    sets: Sets,
    digest: &[u8],
) -> Result<Captured, EncodeError>
    ensures written { IfOk result
        (λ c. (attestation (said_by keys.now sets digest.now)).writes Der c.octets) }
    ensures refused { IfErr result
        (TextRefused ((attestation (said_by keys.now sets digest.now)).writes Der)) }
{
    let Sets { asn, v4, v6 } = sets;
    let asn = numbers_listed(asn);
    let v4 = addresses_listed(v4);
    let v6 = addresses_listed(v6);
    let values = AttestationValue::new(keys, asn, &v4, &v6, digest);
    text_of(alloc, &values)
}

/// Why no attestation is made of what isn't written.
pub(crate) fn cause_of(error: EncodeError) -> AttestationError
    ensures { result ≡ told_as error }
{
    match error {
        EncodeError::Memory => AttestationError::Memory,
        _ => AttestationError::TooLong,
    }
}

/// The attestation of these keys, of the sets that have a number, and of the digest.
pub(crate) fn attest(
    alloc: Global,
    keys: &[KeyIdentifier],
    sets: Sets,
    digest: &[u8],
) -> Result<ResourceTaggedAttestation, AttestationError>
    requires { IsStatedBy sets }
    ensures made { IfOk result (λ a. a ≡ said_by keys.now sets digest.now) }
    ensures readable { IfOk result IsReadable }
    ensures refused { IfErr result (MakingRefused (said_by keys.now sets digest.now)) }
{
    are_long(keys);
    match write(alloc, keys, sets, digest) {
        Ok(octets) => content_of(alloc, octets.into_bytes()),
        Err(error) => Err(cause_of(error)),
    }
}
