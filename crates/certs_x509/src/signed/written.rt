//! Signed data, written.

ghost use Rattle.std.specs.Prelude.{◌≡◌, ◌↔◌, IfErr, IfOk, IsTrue};
ghost use Rattle.certs_x509.specs.bcder_tree.declared.mode.Mode.TheVariants.{Der};
ghost use Rattle.certs_x509.specs.Captured.{RefusesSigned, WritesSigned, signed_of};
ghost use Rattle.certs_x509.specs.Signed.{lends, signed_lends};

use crate::signed::signed::SignedData;
use certs_key::encode::{self, EncodeError, PrimitiveContent, Values};
use certs_key::{AlgorithmIdentifier, BitString, Captured, Mode, SignatureAlgorithm, Tag};
use std::alloc::Global;
use std::io::Write;
use std::marker::Model;

/// What is written of signed data: a SEQUENCE of the octets that were signed, the algorithm and the signature.
#[derive(Drop)]
pub struct SignedDataValues<'a> {
    signed: &'a SignedData,
}

impl<'a> Model for SignedDataValues<'a> {
    ghost use Rattle.certs_x509.specs.Signed.{SignedDataValue};

    ghost Value = { SignedDataValue };

    ghost view = { λ v. v.signed.now };
}

// The encoders of the fields.
type Encoder<'a> = encode::Constructed<
    (
        &'a Captured,
        AlgorithmIdentifier,
        encode::Primitive<&'a BitString>,
    ),
>;

impl SignedData {
    /// What is written of it: what was signed is written as it stood.
    pub fn encode_ref(&self) -> SignedDataValues<'_>
        ensures { result ≡ self.now }
    {
        SignedDataValues { signed: self }
    }
}

impl<'a> SignedDataValues<'a> {
    // Whether what was signed stands in DER.
    fn is_der(&self) -> bool
        ensures { IsTrue result ↔ (self.now.message.mode ≡ Der) }
    {
        self.signed.data().mode().is_der()
    }

    /// What is written in DER. `CerUnsupported` where the octets that were signed stand in another mode; `TooLong` where
    /// they stand in DER, and a content would have more than 2^32 - 1 octets; `Memory` only where something can be written.
    pub fn in_der(&self, alloc: Global) -> Result<Captured, EncodeError>
        ensures captured { IfOk result (λ c. WritesSigned (signed_of self.now) Der c.octets) }
        ensures mode { IfOk result (λ c. c.mode ≡ Der) }
        ensures refused { IfErr result (RefusesSigned (signed_of self.now)) }
    {
        if !self.is_der() {
            return Err(EncodeError::CerUnsupported);
        }
        match self.to_captured(alloc, Mode::Der) {
            Ok(captured) => Ok(captured),
            Err(error) => match error {
                EncodeError::Memory => Err(EncodeError::Memory),
                _ => Err(EncodeError::TooLong),
            },
        }
    }

    // The encoders of the fields, in a SEQUENCE.
    fn fields(&self) -> Encoder<'_>
        ensures { lends result.tag result.inner.0.now
            (result.inner.1.kind, result.inner.1.has_null)
            (result.inner.2.tag, result.inner.2.content.now)
            ≡ signed_lends self.now }
    {
        encode::Constructed {
            tag: Tag::SEQUENCE,
            inner: (
                self.signed.data(),
                self.signed.signature().algorithm().x509_encode(),
                self.signed.signature().bits().encode_ref(),
            ),
        }
    }
}

/// A SEQUENCE of the fields; what was signed is written as the octets that were kept.
///
/// `CerUnsupported` where the mode is neither BER nor the one in which these octets stand, or where the signature has
/// more than 1000 content octets in CER (X.690 9.2); `TooLong` where a content has more than 2^32 - 1 octets.
impl<'a> Values for SignedDataValues<'a> {
    ghost use Rattle.certs_x509.specs.Signed.{signed, signed_fields};

    ghost trees = { λ s. signed.trees (signed_fields s) };

    ghost writes = { λ s. signed.writes (signed_fields s) };

    fn encoded_len(&self, mode: Mode) -> Result<usize, EncodeError> {
        let value = self.fields();
        value.encoded_len(mode)
    }

    fn write_encoded<W: Write>(&self, mode: Mode, target: &mut W) -> Result<(), EncodeError> {
        let value = self.fields();
        value.write_encoded(mode, target)
    }

    ghost spelled = { λ s. signed.spelled (signed_fields s) };

    ghost one_text = { λ s. signed.one_text (signed_fields s) };
}
