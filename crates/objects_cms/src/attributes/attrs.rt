//! The signed attributes, with their octets (RFC 5652 5.3, RFC 6488 2.1.6.4).

ghost use Rattle.std.specs.Prelude.{◌≡◌, ◌≢◌, IfNone, IfOk, IfSome, OnErr, true};
ghost use Rattle.objects_cms.specs.bcder_content.Captures.{rest_of};
ghost use Rattle.objects_cms.specs.bcder_content.Contents.{Goes};
ghost use Rattle.objects_cms.specs.bcder_content.Here.{here};
ghost use Rattle.objects_cms.specs.bcder_content.InMode.{ReadsFields};
ghost use Rattle.objects_cms.specs.bcder_content.Texts.{InOrder};
ghost use Rattle.objects_payload.specs.SignedAttributes.{AreAttributes, AttributesValue};
ghost use Rattle.objects_cms.specs.Kept.{AreKept, AreWhole, DecodesAll, attributes_of, slots_of};

use crate::attributes::invalid::InvalidSignedAttr;
use crate::attributes::slots::Slots;
use objects_payload::forms::decode::{Constructed, ContentError, Decode, DecodeError, Source};
use objects_payload::forms::{Captured, Mode, OctetString, Oid, Time};
use std::alloc::Global;
use std::convert::Infallible;
use std::marker::Model;

/// What signed attributes say. Contracts see all of it.
#[derive(Drop)]
pub struct Attributes {
    /// The type of the content that is signed.
    pub content_type: Oid,
    /// The digest of that content.
    pub message_digest: OctetString,
    /// When it was signed, if that is said.
    pub signing_time: Option<Time>,
    /// When it was signed, in seconds from 1970 on, if that is said.
    pub binary_signing_time: Option<u64>,
}

/// The attributes that a signer signed: the very octets that stood there, and what they say. Contracts see both.
#[derive(Drop)]
pub struct SignedAttrs {
    octets: Captured,
    attributes: Attributes,
}

impl Model for SignedAttrs {
    ghost use Rattle.std.specs.Prelude.{ℕ, List};
    ghost use Rattle.objects_payload.specs.SignedAttributes.{AttributesValue};
    ghost use Rattle.objects_cms.specs.Kept.{attributes_of};

    ghost Value = { List ℕ × AttributesValue };

    ghost view = { λ a. (a.octets.octets, attributes_of a.attributes) };
}

// What slots say, if the type and the digest are there.
fn finished(slots: Slots) -> Option<Attributes>
    ensures some { IfSome result (λ a. slots_of (attributes_of a) ≡ slots) }
    ensures none { IfNone result ((x : AttributesValue) → slots_of x ≢ slots) }
{
    Some(Attributes {
        content_type: slots.content_type?,
        message_digest: slots.message_digest?,
        signing_time: slots.signing_time,
        binary_signing_time: slots.binary_signing_time,
    })
}

// All attributes of a content: the type and the digest are there.
fn take_attributes<S: Source>(
    alloc: Global,
    cons: &mut Constructed<S>,
) -> Result<Attributes, DecodeError<S::Error>>
    ensures { ReadsFields attributes_of AreAttributes
        (here S.rest cons.old) result (here S.rest cons.new) }
{
    let slots = Slots::take_from(alloc, cons)?;
    match finished(slots) {
        Some(attributes) => Ok(attributes),
        None => Err((*cons).content_err(InvalidSignedAttr::Missing.into())),
    }
}

// All attributes of a content, and nothing after them.
fn take_whole<S: Source>(
    alloc: Global,
    cons: &mut Constructed<S>,
) -> Result<Attributes, DecodeError<S::Error>>
    ensures { AreWhole (here S.rest cons.old) result (here S.rest cons.new) }
{
    let attributes = take_attributes(alloc, cons)?;
    match cons.skip_one(alloc) {
        Ok(None) => Ok(attributes),
        Ok(Some(())) => Err((*cons).content_err(ContentError::from_static("another value"))),
        Err(error) => Err(error),
    }
}

// What attributes say that are all of the octets.
fn decode_octets(
    alloc: Global,
    octets: &[u8],
    mode: Mode,
) -> Result<Attributes, DecodeError<Infallible>>
    ensures { DecodesAll mode octets.now result }
{
    mode.decode(
        octets,
        |cons|
            ensures { AreWhole (here rest_of cons.old) result (here rest_of cons.new) }
        { take_whole(alloc, cons) },
    )
}

impl SignedAttrs {
    /// The signed attributes that are all of a content: content type and message digest once each, signing time and
    /// binary signing time once each at most, and no other (RFC 6488 2.1.6.4), in any order. Their octets are kept as
    /// they stand.
    pub fn take_from<S: Source>(
        alloc: Global,
        cons: &mut Constructed<S>,
    ) -> Result<Self, DecodeError<S::Error>>
        ensures reads { ReadsFields (λ a. a) AreKept
            (here S.rest cons.old) result (here S.rest cons.new) }
        ensures octets { IfOk result
            (λ a. Goes (here S.rest cons.old) a.0 (here S.rest cons.new)) }
        ensures spelled { IfOk result (λ a. InOrder (here S.rest cons.old).mode
            (AreAttributes (here S.rest cons.old).mode) a.0 a.1) }
        ensures failed { OnErr result ((here S.rest cons.new).failed ≡ true) }
    {
        let mode = cons.mode();
        let octets = match cons.capture_all(alloc) {
            Ok(octets) => octets,
            Err(error) => {
                cons.fail();
                return Err(error);
            }
        };
        match decode_octets(alloc, octets.as_slice(), mode) {
            Ok(attributes) => Ok(SignedAttrs { octets, attributes }),
            Err(error) => {
                cons.fail();
                Err(error.convert())
            }
        }
    }

    /// The octets, as they stand: the content of `[0]`.
    pub fn as_slice(&self) -> &[u8]
        ensures { result.now ≡ self.now.0 }
    {
        self.octets.as_slice()
    }

    /// What they say.
    pub fn attributes(&self) -> &Attributes
        ensures { attributes_of result.now ≡ self.now.1 }
    {
        &self.attributes
    }
}
