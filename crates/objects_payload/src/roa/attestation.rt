//! The content of a route origin attestation (RFC 9582 4).

ghost use Rattle.std.specs.Prelude.{◌≡◌, OnErr, true};
ghost use Rattle.objects_payload.specs.Contents.{IsVersion};
ghost use Rattle.objects_payload.specs.Roas.{IsRoa};
ghost use Rattle.objects_payload.specs.bcder_content.Exact.{DecodesAs, ReadsAs, ReadsOptAs};
ghost use Rattle.objects_payload.specs.bcder_content.Here.{here};
ghost use Rattle.objects_payload.specs.bcder_content.InMode.{ReadsFields};
ghost use Rattle.objects_payload.specs.bcder_tree.declared.mode.Mode.TheVariants.{Der};
ghost use Rattle.objects_payload.specs.bcder_tree.Tags.{context};
ghost use Rattle.objects_payload.specs.resources_ip_prefix.declared.addr.AddressFamily.TheVariants.{Ipv4, Ipv6};
ghost use Rattle.objects_payload.specs.Addresses.{AllOf};
ghost use Rattle.objects_payload.specs.RoaContents.{AreNumber, AreRoa, AreRoaFields, IsRoaIn, parts_fields};
ghost use Rattle.objects_payload.specs.Fields.{alone};
ghost use Rattle.objects_payload.specs.Families.{AreFamilies, both_families};

use crate::roa::addresses::RoaIpAddresses;
use crate::roa::families::{Families, take_families};
use resources_asn::decode::{Constructed, Decode, DecodeError, IntoSource, Source};
use resources_asn::{Asn, Mode, Tag};
use std::alloc::Global;
use std::marker::Model;

// The number that stands for the only version (RFC 9582 4.1).
const VERSION: u8 = 0;

/// What a route origin attestation says: an AS number, and the prefixes that it may announce. Contracts see all of it.
///
/// `RouteOriginAttestation ::= SEQUENCE { version [0] INTEGER DEFAULT 0, asID ASID, ipAddrBlocks SEQUENCE (SIZE(1..2)) OF
/// ROAIPAddressFamily }` (RFC 9582 4)
#[derive(Debug, Drop)]
pub struct RouteOriginAttestation {
    as_id: Asn,
    v4_addrs: RoaIpAddresses,
    v6_addrs: RoaIpAddresses,
}

impl Model for RouteOriginAttestation {
    ghost use Rattle.objects_payload.specs.Roas.{Roa};
    ghost use Rattle.objects_payload.specs.resources_ip_prefix.declared.addr.AddressFamily.TheVariants.{Ipv4, Ipv6};
    ghost use Rattle.objects_payload.specs.Addresses.{AllOf};

    ghost Value = { Roa };

    ghost view = { λ r. record { asn = r.as_id.value; v4 = r.v4_addrs; v6 = r.v6_addrs } };

    ghost invariant = { λ r. AllOf Ipv4 r.v4_addrs × AllOf Ipv6 r.v6_addrs };
}

// The version where it is written, the AS number, and the families.
type Parts = (Option<()>, Asn, Families);

// The number of the version.
fn take_number<S: Source>(cons: &mut Constructed<S>) -> Result<(), DecodeError<S::Error>>
    ensures { ReadsFields alone AreNumber (here S.rest cons.old) result (here S.rest cons.new) }
{
    let number = cons.skip_u8_if(VERSION)?;
    Ok(number)
}

// The version, if it is written.
fn take_opt_version<S: Source>(
    cons: &mut Constructed<S>,
) -> Result<Option<()>, DecodeError<S::Error>>
    ensures { ReadsOptAs alone (context 0) (IsVersion 0)
        (here S.rest cons.old) result (here S.rest cons.new) }
{
    cons.take_opt_constructed_if(
        Tag::CTX_0,
        |cons|
            ensures { ReadsFields alone AreNumber
                (here S.rest cons.old) result (here S.rest cons.new) }
        { take_number(cons) },
    )
}

// The fields of a content.
fn take_parts<S: Source>(
    alloc: Global,
    cons: &mut Constructed<S>,
) -> Result<Parts, DecodeError<S::Error>>
    ensures { ReadsFields parts_fields AreRoaFields
        (here S.rest cons.old) result (here S.rest cons.new) }
{
    let version = take_opt_version(cons)?;
    let as_id = Asn::take_from(cons)?;
    let families = cons.take_sequence(
        |cons|
            ensures { ReadsFields both_families AreFamilies
                (here S.rest cons.old) result (here S.rest cons.new) }
        { take_families(alloc, cons) },
    )?;
    Ok((version, as_id, families))
}

impl RouteOriginAttestation {
    // The AS number with addresses of each family.
    pub(crate) fn new(as_id: Asn, v4_addrs: RoaIpAddresses, v6_addrs: RoaIpAddresses) -> Self
        requires v4 { AllOf Ipv4 v4_addrs }
        requires v6 { AllOf Ipv6 v6_addrs }
        ensures { result ≡ record { asn = as_id.value; v4 = v4_addrs; v6 = v6_addrs } }
    {
        RouteOriginAttestation {
            as_id,
            v4_addrs,
            v6_addrs,
        }
    }

    /// The AS number that may announce the prefixes.
    pub fn as_id(&self) -> Asn
        ensures { result.value ≡ self.now.asn }
    {
        self.as_id
    }

    /// The addresses of IPv4: no length is above 32.
    pub fn v4_addrs(&self) -> &RoaIpAddresses
        ensures value { result.now ≡ self.now.v4 }
        ensures family { AllOf Ipv4 self.now.v4 }
    {
        &self.v4_addrs
    }

    /// The addresses of IPv6: no length is above 128.
    pub fn v6_addrs(&self) -> &RoaIpAddresses
        ensures value { result.now ≡ self.now.v6 }
        ensures family { AllOf Ipv6 self.now.v6 }
    {
        &self.v6_addrs
    }

    // The content, of the fields of its SEQUENCE.
    fn from_constructed<S: Source>(
        alloc: Global,
        cons: &mut Constructed<S>,
    ) -> Result<Self, DecodeError<S::Error>>
        ensures { ReadsFields (λ r. r) AreRoa (here S.rest cons.old) result (here S.rest cons.new) }
    {
        let (_version, as_id, families) = take_parts(alloc, cons)?;
        let Families { v4, v6 } = families;
        Ok(RouteOriginAttestation {
            as_id,
            v4_addrs: v4,
            v6_addrs: v6,
        })
    }

    /// The content that is next.
    pub fn take_from<S: Source>(
        alloc: Global,
        cons: &mut Constructed<S>,
    ) -> Result<Self, DecodeError<S::Error>>
        ensures reads { ReadsAs (λ r. r) (IsRoaIn (here S.rest cons.old).mode)
            (here S.rest cons.old) result (here S.rest cons.new) }
        ensures failed { OnErr result ((here S.rest cons.new).failed ≡ true) }
    {
        cons.take_sequence(
            |cons|
                ensures { ReadsFields (λ r. r) AreRoa
                    (here S.rest cons.old) result (here S.rest cons.new) }
            { RouteOriginAttestation::from_constructed(alloc, cons) },
        )
    }

    /// The content that a source begins with, in DER; octets after it stay unread.
    pub fn decode<I: IntoSource>(
        alloc: Global,
        source: I,
    ) -> Result<Self, DecodeError<<I::Source as Source>::Error>>
        ensures { DecodesAs (λ r. r) Der IsRoa (I.octets source) result }
    {
        Mode::Der.decode(
            source,
            |cons|
                ensures { ReadsAs (λ r. r) (IsRoaIn (here I.Source.rest cons.old).mode)
                    (here I.Source.rest cons.old) result (here I.Source.rest cons.new) }
            { RouteOriginAttestation::take_from(alloc, cons) },
        )
    }
}
