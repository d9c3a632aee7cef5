//! The attributes that a signer signs, written (RFC 5652 5.3, 5.4, 11; RFC 6488 2.1.6.4).

ghost use Rattle.std.specs.Prelude.{◌≡◌, ℕ, IfErr, IfOk, List};
ghost use Rattle.objects_written.specs.bcder_tree.declared.mode.Mode.TheVariants.{Der};
ghost use Rattle.objects_written.specs.bcder_tree.Tags.{set_tag};
ghost use Rattle.objects_written.specs.bcder_content.Texts.{InOrder};
ghost use Rattle.objects_written.specs.bcder.Identifiers.{IsIdentifier};
ghost use Rattle.objects_written.specs.bcder_values.Gathered.{ExtendRefused};
ghost use Rattle.objects_written.specs.bcder_content.Kept.{SpellsValues};
ghost use Rattle.objects_written.specs.bcder_values.Wraps.{wrapped_one, wrapped_spelled};
ghost use Rattle.objects_written.specs.bcder_primitive.Encoded.{IsWrapped, WritesWrapped};
ghost use Rattle.objects_written.specs.bcder_primitive.declared.written.error.EncodeError.TheVariants.{Memory as memory_lacks};
ghost use Rattle.objects_written.specs.bcder.Kinds.{octets as string, oid};
ghost use Rattle.objects_written.specs.objects_payload.SignedAttributes.{AreAttributes};
ghost use Rattle.objects_written.specs.Attributes.{IsMessage, IsRefused, MessageRefused, WritesAttributes, attributes_of, content_type as type_of, message_digest as digest_of, signing_time as time_of, to_sign};
ghost use Rattle.objects_written.specs.Orders.{SetRefused, SetText};

use crate::frame::order::in_order;
use certs::written::{Captured, EncodeError, Identifier, Mode, Sequence, Time, TimeValue, Values};
use certs_key::Tag;
use certs_key::encode::{Constructed, Octets, Primitive};
use certs_key::oid::{CONTENT_TYPE, MESSAGE_DIGEST, SIGNING_TIME};
use certs_key::string::OctetSliceEncoder;
use std::alloc::Global;
use std::io::Write;

/// A SET of the values (X.690 8.11).
#[derive(Drop)]
pub struct SetOf<V>(pub V);

impl<V: Values> Values for SetOf<V> {
    ghost trees = { λ x m. IsWrapped set_tag (V.trees x.0 m) };

    ghost writes = { λ x m. WritesWrapped m set_tag (V.writes x.0 m) };

    fn encoded_len(&self, mode: Mode) -> Result<usize, EncodeError> {
        let value = Constructed {
            tag: Tag::SET,
            inner: &self.0,
        };
        value.encoded_len(mode)
    }

    fn write_encoded<W: Write>(&self, mode: Mode, target: &mut W) -> Result<(), EncodeError> {
        let value = Constructed {
            tag: Tag::SET,
            inner: &self.0,
        };
        value.write_encoded(mode, target)
    }

    ghost spelled = { λ x m. wrapped_spelled m (V.spelled x.0 m) };

    ghost one_text = { λ x m. wrapped_one m (V.one_text x.0 m) };
}

/// An OBJECT IDENTIFIER of these content octets (X.690 8.19).
#[derive(Drop)]
pub struct OidValue<'a>(pub &'a [u8]);

impl Values for OidValue<'_> {
    ghost trees = { λ x. oid.trees x.0.now };

    ghost writes = { λ x. oid.writes x.0.now };

    fn encoded_len(&self, mode: Mode) -> Result<usize, EncodeError> {
        let value = Primitive {
            tag: Tag::OID,
            content: Octets(self.0),
        };
        value.encoded_len(mode)
    }

    fn write_encoded<W: Write>(&self, mode: Mode, target: &mut W) -> Result<(), EncodeError> {
        let value = Primitive {
            tag: Tag::OID,
            content: Octets(self.0),
        };
        value.write_encoded(mode, target)
    }

    ghost spelled = { λ x. oid.spelled x.0.now };

    ghost one_text = { λ x. oid.one_text x.0.now };
}

/// An OCTET STRING of these octets (X.690 8.7).
#[derive(Drop)]
pub struct StringValue<'a>(pub &'a [u8]);

impl Values for StringValue<'_> {
    ghost trees = { λ x. string.trees x.0.now };

    ghost writes = { λ x. string.writes x.0.now };

    fn encoded_len(&self, mode: Mode) -> Result<usize, EncodeError> {
        let value = OctetSliceEncoder {
            tag: Tag::OCTET_STRING,
            octets: self.0,
        };
        value.encoded_len(mode)
    }

    fn write_encoded<W: Write>(&self, mode: Mode, target: &mut W) -> Result<(), EncodeError> {
        let value = OctetSliceEncoder {
            tag: Tag::OCTET_STRING,
            octets: self.0,
        };
        value.write_encoded(mode, target)
    }

    ghost spelled = { λ x. string.spelled x.0.now };

    ghost one_text = { λ x. string.one_text x.0.now };
}

// The attribute for the type of the content, in DER (RFC 5652 11.1).
fn type_text(alloc: Global, content_type: &[u8]) -> Result<Captured, EncodeError>
    ensures text { IfOk result (λ c. (type_of content_type.now).writes Der c.octets) }
    ensures mode { IfOk result (λ c. c.mode ≡ Der) }
    ensures refused { IfErr result (ExtendRefused ((type_of content_type.now).trees Der)
        ((type_of content_type.now).writes Der)) }
    ensures memory { IfErr result (λ e. e ≡ memory_lacks
        → (text : List ℕ) × (type_of content_type.now).writes Der text) }
{
    let value = Sequence((Identifier(CONTENT_TYPE), SetOf(OidValue(content_type))));
    value.to_captured(alloc, Mode::Der)
}

// The attribute for the digest of the content, in DER (RFC 5652 11.2).
fn digest_text(alloc: Global, digest: &[u8]) -> Result<Captured, EncodeError>
    ensures text { IfOk result (λ c. (digest_of digest.now).writes Der c.octets) }
    ensures mode { IfOk result (λ c. c.mode ≡ Der) }
    ensures refused { IfErr result (ExtendRefused ((digest_of digest.now).trees Der)
        ((digest_of digest.now).writes Der)) }
{
    let value = Sequence((Identifier(MESSAGE_DIGEST), SetOf(StringValue(digest))));
    value.to_captured(alloc, Mode::Der)
}

// The attribute for the moment of signing, in DER (RFC 5652 11.3).
fn time_text(alloc: Global, time: Time) -> Result<Captured, EncodeError>
    ensures text { IfOk result (λ c. (time_of time).writes Der c.octets) }
    ensures mode { IfOk result (λ c. c.mode ≡ Der) }
    ensures refused { IfErr result (ExtendRefused ((time_of time).trees Der)
        ((time_of time).writes Der)) }
{
    let value = Sequence((Identifier(SIGNING_TIME), SetOf(TimeValue(time))));
    value.to_captured(alloc, Mode::Der)
}

// Captured octets spell values in their mode.
fn are_spelled(captured: &Captured)
    ensures { SpellsValues captured.now.mode captured.now.octets }
{
    let _octets = captured.as_slice();
}

// Three values in DER, one after the other, ascending by their octets (X.690 11.6).
fn set_text(
    alloc: Global,
    a: &Captured,
    b: &Captured,
    c: &Captured,
) -> Result<Captured, EncodeError>
    requires a { a.now.mode ≡ Der }
    requires b { b.now.mode ≡ Der }
    requires c { c.now.mode ≡ Der }
    ensures text { IfOk result (λ s. SetText
        (a.now.octets, (b.now.octets, c.now.octets)) s.octets) }
    ensures mode { IfOk result (λ s. s.mode ≡ Der) }
    ensures refused { IfErr result (SetRefused (a.now.octets, (b.now.octets, c.now.octets))) }
{
    let values = in_order(a, b, c);
    are_spelled(values.0);
    are_spelled(values.1);
    are_spelled(values.2);
    values.to_captured(alloc, Mode::Der)
}

/// The content octets of the signed attributes: the type of the content, its digest and the moment of signing, each once,
/// ascending by their octets, as DER has a SET OF (X.690 11.6). They are read again as these three, where the type is an
/// object identifier.
///
/// `TooLong` where a content has more than 2^32 - 1 octets; `Memory` only where the content's type can be written.
pub fn signed_attributes(
    alloc: Global,
    content_type: &[u8],
    digest: &[u8],
    time: Time,
) -> Result<Captured, EncodeError>
    ensures written { IfOk result (λ c. WritesAttributes
        (to_sign content_type.now digest.now time) c.octets) }
    ensures mode { IfOk result (λ c. c.mode ≡ Der) }
    ensures again { IfOk result (λ c. IsIdentifier content_type.now
        → InOrder Der (AreAttributes Der) c.octets
        (attributes_of (to_sign content_type.now digest.now time))) }
    ensures refused { IfErr result (IsRefused (to_sign content_type.now digest.now time)) }
    ensures memory { IfErr result (λ e. e ≡ memory_lacks
        → (text : List ℕ) × (type_of content_type.now).writes Der text) }
{
    let first = type_text(alloc, content_type)?;
    let second = digest_text(alloc, digest)?;
    let third = time_text(alloc, time)?;
    set_text(alloc, &first, &second, &third)
}

/// What is signed of attributes: their content octets as a SET, with the shortest length (RFC 5652 5.4).
///
/// `TooLong` where they are more than 2^32 - 1 octets; `Memory` only where they can be signed.
pub fn signed_message(alloc: Global, attributes: &Captured) -> Result<Captured, EncodeError>
    requires { attributes.now.mode ≡ Der }
    ensures message { IfOk result (λ c. IsMessage attributes.now.octets c.octets) }
    ensures mode { IfOk result (λ c. c.mode ≡ Der) }
    ensures refused { IfErr result (MessageRefused attributes.now.octets) }
    ensures memory { IfErr result (λ e. e ≡ memory_lacks
        → (message : List ℕ) × IsMessage attributes.now.octets message) }
{
    are_spelled(attributes);
    let value = SetOf(attributes);
    value.to_captured(alloc, Mode::Der)
}
