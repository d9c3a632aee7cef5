//! Keys that are written.

ghost use Rattle.std.specs.Prelude.{◌≡◌, IfOk, IsTrue, MatchOption};
ghost use Rattle.certs_key.specs.bcder_octets.Bits.{IsBits};
ghost use Rattle.certs_key.specs.certs_basics.Keys.{HasEncoding, Encodes, kind_of};
ghost use Rattle.certs_key.specs.Forms.{lends, key_lends, parameters_of, parameters_tag};

use crate::algorithm::encode::{
    Constructed, EncodeError, Octets, Primitive, PrimitiveContent, Values,
};
use crate::algorithm::{BitString, Mode, PublicKeyFormat, Tag};
use crate::expected::Expected;
use bytes::Bytes;
use certs_name::oid::{EC_PUBLIC_KEY, RSA_ENCRYPTION, SECP256R1};
use std::alloc::{AllocError, Global};

// A primitive value of a constant.
type Constant = Primitive<Octets<&'static [u8]>>;

// The encoders of an algorithm's identifier, and of what stands after it.
type FormatEncoder = Constructed<(Constant, Constant)>;

/// The encoders of a key's algorithm and bits.
pub(crate) type KeyEncoder<'a> = Constructed<(FormatEncoder, Primitive<&'a BitString>)>;

// The octets of an algorithm's identifier.
fn kind(format: PublicKeyFormat) -> &'static [u8]
    ensures { result.now ≡ kind_of format }
{
    match format {
        PublicKeyFormat::Rsa => RSA_ENCRYPTION.0,
        PublicKeyFormat::Ecdsa => EC_PUBLIC_KEY.0,
    }
}

// The tag of what stands after it, NULL or the curve.
fn tag_behind(format: PublicKeyFormat) -> Tag
    ensures { result ≡ parameters_tag format }
{
    match format {
        PublicKeyFormat::Rsa => Tag::NULL,
        PublicKeyFormat::Ecdsa => Tag::OID,
    }
}

// The octets of what stands after it.
fn behind(format: PublicKeyFormat) -> &'static [u8]
    ensures { result.now ≡ parameters_of format }
{
    match format {
        PublicKeyFormat::Rsa => &[],
        PublicKeyFormat::Ecdsa => SECP256R1.0,
    }
}

/// A key as a value, with NULL after rsaEncryption (RFC 7935 3.1).
pub(crate) fn encoder(format: PublicKeyFormat, bits: &BitString) -> KeyEncoder<'_>
    ensures { lends result.tag result.inner.0.tag
        (result.inner.0.inner.0.tag, result.inner.0.inner.0.content.0.now)
        (result.inner.0.inner.1.tag, result.inner.0.inner.1.content.0.now)
        (result.inner.1.tag, result.inner.1.content.now)
        ≡ key_lends (record { format = format; bits = bits.now }) }
{
    Constructed {
        tag: Tag::SEQUENCE,
        inner: (
            Constructed {
                tag: Tag::SEQUENCE,
                inner: (
                    Primitive {
                        tag: Tag::OID,
                        content: Octets(kind(format)),
                    },
                    Primitive {
                        tag: tag_behind(format),
                        content: Octets(behind(format)),
                    },
                ),
            },
            bits.encode_ref(),
        ),
    }
}

// Whether the octets are a key's DER, with NULL after rsaEncryption (RFC 7935 3.1) and unused bits zero (X.690 11.2.1).
fn is_der_of(octets: &[u8], format: PublicKeyFormat, bits: &BitString) -> bool
    ensures { IsTrue result → Encodes (record { format = format; bits = bits.now }) octets.now }
{
    let mut target = Expected::new(octets);
    match encoder(format, bits).write_encoded(Mode::Der, &mut target) {
        Ok(()) => target.taken() == octets,
        Err(_) => false,
    }
}

/// The encoded octets of a key: its DER, with NULL after rsaEncryption (RFC 7935 3.1) and unused bits zero (X.690
/// 11.2.1). `None` where there are none, as no length states so many octets.
///
/// They are the octets that were read, where these are its DER; only where they aren't others are made.
pub(crate) fn encoded_of(
    alloc: Global,
    format: PublicKeyFormat,
    bits: &BitString,
    read: Bytes,
) -> Result<Option<Bytes>, AllocError>
    requires { IsBits bits.now }
    ensures { IfOk result (λ found. MatchOption found
        (HasEncoding (record { format = format; bits = bits.now }) → ⊥)
        (Encodes (record { format = format; bits = bits.now }))) }
{
    if is_der_of(read.as_slice(), format, bits) {
        return Ok(Some(read));
    }
    match encoder(format, bits).to_captured(alloc, Mode::Der) {
        Ok(captured) => Ok(Some(captured.into_bytes())),
        Err(EncodeError::Memory) => Err(AllocError),
        Err(EncodeError::CerUnsupported) => Ok(None),
        Err(EncodeError::TooLong) => Ok(None),
        Err(EncodeError::Write) => Ok(None),
    }
}
