//! The families of a route origin attestation (RFC 9582 4.3).

ghost use Rattle.std.specs.Prelude.{◌≢◌, List, MatchOption, None, Some};
ghost use Rattle.std.specs.Option.{option_map};
ghost use Rattle.objects_payload.specs.Roas.{AreOf, RoaAddress};
ghost use Rattle.objects_payload.specs.bcder_content.Exact.{ReadsAs, ReadsOptAs};
ghost use Rattle.objects_payload.specs.bcder_content.Here.{here};
ghost use Rattle.objects_payload.specs.bcder_content.InMode.{ReadsFields};
ghost use Rattle.objects_payload.specs.bcder_tree.Tags.{sequence_tag};
ghost use Rattle.objects_payload.specs.Families.{AreFamilies, AreFamilyIn, ArePair, IsFamilyOf, both_families, family_value, pair_value};

use crate::roa::addresses::RoaIpAddresses;
use resources_asn::decode::{Constructed, ContentError, DecodeError, Source};
use resources_ip_prefix::AddressFamily;
use std::alloc::Global;

/// `ROAIPAddressFamily ::= SEQUENCE { addressFamily OCTET STRING, addresses SEQUENCE OF ROAIPAddress }`
#[derive(Drop)]
pub(crate) struct RoaIpAddressFamily {
    family: AddressFamily,
    addresses: RoaIpAddresses,
}

/// The addresses of each family.
#[derive(Drop)]
pub(crate) struct Families {
    pub(crate) v4: RoaIpAddresses,
    pub(crate) v6: RoaIpAddresses,
}

impl RoaIpAddressFamily {
    // The fields of a family.
    fn from_constructed<S: Source>(
        alloc: Global,
        cons: &mut Constructed<S>,
    ) -> Result<Self, DecodeError<S::Error>>
        ensures { ReadsFields family_value AreFamilyIn
            (here S.rest cons.old) result (here S.rest cons.new) }
    {
        let family = AddressFamily::take_from(alloc, cons)?;
        let addresses = RoaIpAddresses::take_from(alloc, cons, family)?;
        Ok(RoaIpAddressFamily { family, addresses })
    }

    // The family that is next.
    fn take_from<S: Source>(
        alloc: Global,
        cons: &mut Constructed<S>,
    ) -> Result<Self, DecodeError<S::Error>>
        ensures { ReadsAs family_value (IsFamilyOf (here S.rest cons.old).mode)
            (here S.rest cons.old) result (here S.rest cons.new) }
    {
        cons.take_sequence(
            |cons|
                ensures { ReadsFields family_value AreFamilyIn
                    (here S.rest cons.old) result (here S.rest cons.new) }
            { RoaIpAddressFamily::from_constructed(alloc, cons) },
        )
    }

    // The next family, if a SEQUENCE is next.
    fn take_opt_from<S: Source>(
        alloc: Global,
        cons: &mut Constructed<S>,
    ) -> Result<Option<Self>, DecodeError<S::Error>>
        ensures { ReadsOptAs family_value sequence_tag (IsFamilyOf (here S.rest cons.old).mode)
            (here S.rest cons.old) result (here S.rest cons.new) }
    {
        cons.take_opt_sequence(
            |cons|
                ensures { ReadsFields family_value AreFamilyIn
                    (here S.rest cons.old) result (here S.rest cons.new) }
            { RoaIpAddressFamily::from_constructed(alloc, cons) },
        )
    }
}

// One family, and another if it is there.
fn take_pair<S: Source>(
    alloc: Global,
    cons: &mut Constructed<S>,
) -> Result<(RoaIpAddressFamily, Option<RoaIpAddressFamily>), DecodeError<S::Error>>
    ensures { ReadsFields pair_value ArePair (here S.rest cons.old) result (here S.rest cons.new) }
{
    let first = RoaIpAddressFamily::take_from(alloc, cons)?;
    let second = RoaIpAddressFamily::take_opt_from(alloc, cons)?;
    Ok((first, second))
}

// The addresses of one family, and none of the other.
fn of_one(alloc: Global, first: RoaIpAddressFamily) -> Families
    ensures { AreOf (family_value first) None result.v4 result.v6 }
{
    match first.family {
        AddressFamily::Ipv4 => Families {
            v4: first.addresses,
            v6: RoaIpAddresses::empty(alloc),
        },
        AddressFamily::Ipv6 => Families {
            v4: RoaIpAddresses::empty(alloc),
            v6: first.addresses,
        },
    }
}

// The addresses of two families.
fn of_both(first: RoaIpAddressFamily, second: RoaIpAddressFamily) -> Families
    requires { second.family ≢ first.family }
    ensures { AreOf (family_value first) (Some (family_value second)) result.v4 result.v6 }
{
    match first.family {
        AddressFamily::Ipv4 => Families {
            v4: first.addresses,
            v6: second.addresses,
        },
        AddressFamily::Ipv6 => Families {
            v4: second.addresses,
            v6: first.addresses,
        },
    }
}

// The addresses of each family; no answer where both are the same.
fn by_family(
    alloc: Global,
    first: RoaIpAddressFamily,
    second: Option<RoaIpAddressFamily>,
) -> Option<Families>
    ensures { MatchOption result
        ((v4 v6 : List RoaAddress)
        → AreOf (family_value first) (option_map family_value second) v4 v6 → ⊥)
        (λ f. AreOf (family_value first) (option_map family_value second) f.v4 f.v6) }
{
    let Some(second) = second else {
        return Some(of_one(alloc, first));
    };
    if second.family == first.family {
        return None;
    }
    Some(of_both(first, second))
}

/// The families that are left of a content: one, or both, each once.
pub(crate) fn take_families<S: Source>(
    alloc: Global,
    cons: &mut Constructed<S>,
) -> Result<Families, DecodeError<S::Error>>
    ensures { ReadsFields both_families AreFamilies
        (here S.rest cons.old) result (here S.rest cons.new) }
{
    let (first, second) = take_pair(alloc, cons)?;
    match by_family(alloc, first, second) {
        Some(families) => Ok(families),
        None => Err(cons.content_err(ContentError::from_static("a family of addresses twice"))),
    }
}
