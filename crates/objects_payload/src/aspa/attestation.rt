//! Contents of provider attestations (draft-ietf-sidrops-aspa-profile 3).

ghost use Rattle.std.specs.Prelude.{◌≡◌, true, IfOk, OnErr};
ghost use Rattle.objects_payload.specs.bcder_tree.Tags.{context, integer_tag, sequence_tag};
ghost use Rattle.objects_payload.specs.Aspas.{IsAspa};
ghost use Rattle.objects_payload.specs.Contents.{IsVersion};
ghost use Rattle.objects_payload.specs.bcder_content.Exact.{ReadsAs};
ghost use Rattle.objects_payload.specs.bcder_content.Here.{here};
ghost use Rattle.objects_payload.specs.bcder_content.InMode.{ReadsFields};
ghost use Rattle.objects_payload.specs.Decoded.{DecodesFront};
ghost use Rattle.objects_payload.specs.Fields.{AreFields, IsNumber, alone, fields_of};
ghost use Rattle.objects_payload.specs.Resources.{ListsAlone};
ghost use Rattle.objects_payload.specs.Spelled.{SpellsAsIds};

use crate::aspa::providers::ProviderAsSet;
use crate::forms::{AsBlock, AsBlocksBuilder, AsResources};
use resources_asn::decode::{Constructed, Decode, DecodeError, IntoSource, Source};
use resources_asn::{Asn, Captured, Mode, Tag, encode};
use std::alloc::{AllocError, Global};
use std::marker::Model;

// The version that is written out.
const VERSION: u8 = 1;

/// What a provider attestation says: a customer, and the networks that it names as its providers. Contracts see both.
#[derive(Drop)]
pub struct AsProviderAttestation {
    customer_as: Asn,
    provider_as_set: ProviderAsSet,
}

impl Model for AsProviderAttestation {
    ghost use Rattle.objects_payload.specs.Aspas.{Aspa};

    ghost Value = { Aspa };

    ghost view = { λ a. record { customer = a.customer_as.value; providers = a.provider_as_set } };
}

/// What is written of an attestation: a SEQUENCE of the version, of the customer, and of its providers as they stood.
pub type AttestationValues<'a> = encode::Constructed<
    (
        encode::Constructed<encode::Primitive<u8>>,
        encode::Primitive<Asn>,
        encode::Constructed<&'a Captured>,
    ),
>;

// The number of the version.
fn take_number<S: Source>(cons: &mut Constructed<S>) -> Result<(), DecodeError<S::Error>>
    ensures { ReadsFields alone IsNumber (here S.rest cons.old) result (here S.rest cons.new) }
{
    let number = cons.skip_u8_if(VERSION)?;
    Ok(number)
}

// The version, which is 1: `[0] EXPLICIT INTEGER (1)`.
fn take_version<S: Source>(cons: &mut Constructed<S>) -> Result<(), DecodeError<S::Error>>
    ensures { ReadsAs alone (IsVersion 1) (here S.rest cons.old) result (here S.rest cons.new) }
{
    cons.take_constructed_if(
        Tag::CTX_0,
        |cons|
            ensures { ReadsFields alone IsNumber
                (here S.rest cons.old) result (here S.rest cons.new) }
        { take_number(cons) },
    )
}

// The fields of an attestation, which are all of their content.
fn take_fields<S: Source>(
    alloc: Global,
    cons: &mut Constructed<S>,
) -> Result<AsProviderAttestation, DecodeError<S::Error>>
    ensures { ReadsFields fields_of AreFields
        (here S.rest cons.old) result (here S.rest cons.new) }
{
    let _version = take_version(cons)?;
    let customer_as = Asn::take_from(cons)?;
    let provider_as_set = ProviderAsSet::take_from(alloc, cons, customer_as)?;
    Ok(AsProviderAttestation {
        customer_as,
        provider_as_set,
    })
}

impl AsProviderAttestation {
    /// The attestation that is next: version 1, the customer, and its providers, from 1 to 10,000, strictly ascending,
    /// without the customer, and AS 0 alone.
    pub fn take_from<S: Source>(
        alloc: Global,
        cons: &mut Constructed<S>,
    ) -> Result<Self, DecodeError<S::Error>>
        ensures reads { ReadsAs (λ a. a) IsAspa
            (here S.rest cons.old) result (here S.rest cons.new) }
        ensures failed { OnErr result ((here S.rest cons.new).failed ≡ true) }
    {
        cons.take_sequence(
            |cons|
                ensures { ReadsFields fields_of AreFields
                    (here S.rest cons.old) result (here S.rest cons.new) }
            { take_fields(alloc, cons) },
        )
    }

    /// The attestation that a source begins with, in DER; octets after it stay unread.
    pub fn decode<I: IntoSource>(
        alloc: Global,
        source: I,
    ) -> Result<Self, DecodeError<<I::Source as Source>::Error>>
        ensures { DecodesFront IsAspa (I.octets source) result }
    {
        Mode::Der.decode(
            source,
            |cons|
                ensures { ReadsAs (λ a. a) IsAspa
                    (here I.Source.rest cons.old) result (here I.Source.rest cons.new) }
            { AsProviderAttestation::take_from(alloc, cons) },
        )
    }

    /// The customer.
    pub fn customer_as(&self) -> Asn
        ensures { result.value ≡ self.now.customer }
    {
        self.customer_as
    }

    /// The customer's providers.
    pub fn provider_as_set(&self) -> &ProviderAsSet
        ensures { result.now ≡ self.now.providers }
    {
        &self.provider_as_set
    }

    /// The customer's AS number, as resources. Refused for lack of memory alone.
    pub fn as_resources(&self, alloc: Global) -> Result<AsResources, AllocError>
        ensures { IfOk result (ListsAlone self.now.customer) }
    {
        let mut builder = AsBlocksBuilder::new(alloc);
        builder.push(AsBlock::Id(self.customer_as))?;
        let blocks = builder.finalize(alloc)?;
        let resources = AsResources::blocks(blocks);
        Ok(resources)
    }

    /// What is written of the attestation.
    pub fn encode_ref(&self) -> AttestationValues<'_>
        ensures tag { result.tag ≡ sequence_tag }
        ensures version_tag { result.inner.0.tag ≡ context 0 }
        ensures number_tag { result.inner.0.inner.tag ≡ integer_tag }
        ensures number { result.inner.0.inner.content ≡ 1 }
        ensures customer_tag { result.inner.1.tag ≡ integer_tag }
        ensures customer { result.inner.1.content.value ≡ self.now.customer }
        ensures providers_tag { result.inner.2.tag ≡ sequence_tag }
        ensures providers { ∥ SpellsAsIds result.inner.2.inner.now self.now.providers ∥₁ }
    {
        let version = encode::Primitive {
            tag: Tag::INTEGER,
            content: VERSION,
        };
        encode::Constructed {
            tag: Tag::SEQUENCE,
            inner: (
                encode::Constructed {
                    tag: Tag::CTX_0,
                    inner: version,
                },
                encode::Primitive {
                    tag: Tag::INTEGER,
                    content: self.customer_as,
                },
                encode::Constructed {
                    tag: Tag::SEQUENCE,
                    inner: self.provider_as_set.octets(),
                },
            ),
        }
    }
}
