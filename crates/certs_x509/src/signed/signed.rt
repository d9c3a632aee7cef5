//! Signed data, read.

ghost use Rattle.std.specs.Prelude.{◌≡◌, true, IfOk, OnErr};
ghost use Rattle.certs_x509.specs.bcder_tree.declared.mode.Mode.TheVariants.{Der};
ghost use Rattle.certs_x509.specs.bcder_content.Captures.{rest_of};
ghost use Rattle.certs_x509.specs.bcder_content.Contents.{Goes};
ghost use Rattle.certs_x509.specs.bcder_content.Exact.{DecodesAs, ReadsAs};
ghost use Rattle.certs_x509.specs.bcder_content.Grammar.{Any};
ghost use Rattle.certs_x509.specs.bcder_content.Here.{here};
ghost use Rattle.certs_x509.specs.bcder_content.InMode.{ReadsFields};
ghost use Rattle.certs_x509.specs.bcder_content.Texts.{InFront};
ghost use Rattle.certs_x509.specs.bcder_values.KeptForms.{KeptIn};
ghost use Rattle.certs_x509.specs.Signed.{AreSignedOctets, SpellsSignedData, kept_message, octet_fields, signed, signed_content, signed_fields};
ghost use Rattle.certs_x509.specs.Took.{TookOctets};

use certs_key::decode::{Constructed, ContentError, Decode, DecodeError, IntoSource, Source};
use certs_key::{
    BitString, Captured, Mode, RpkiSignature, RpkiSignatureAlgorithm, Signature, SignatureAlgorithm,
};
use std::alloc::{AllocError, Global};
use std::marker::Model;

/// What is signed, as the octets that stood there, and its signature. Contracts see both.
#[derive(Debug, Drop)]
pub struct SignedData {
    message: Captured,
    signature: RpkiSignature,
}

impl Model for SignedData {
    ghost use Rattle.certs_x509.specs.Signed.{SignedDataValue};

    ghost Value = { SignedDataValue };

    ghost view = { λ s. record { message = s.message; signature = s.signature } };
}

// The octets of the next value, whatever it is.
fn take_message<S: Source>(
    alloc: Global,
    cons: &mut Constructed<S>,
) -> Result<Captured, DecodeError<S::Error>>
    ensures reads { ReadsAs kept_message (KeptIn (λ m. Any) (here S.rest cons.old).mode)
        (here S.rest cons.old) result (here S.rest cons.new) }
    ensures octets { IfOk result
        (λ c. Goes (here S.rest cons.old) c.octets (here S.rest cons.new)) }
    ensures failed { OnErr result ((here S.rest cons.new).failed ≡ true) }
{
    let captured = cons.capture(
        alloc,
        |cons|
            ensures { ReadsAs (λ x. x) Any (here rest_of cons.old) result (here rest_of cons.new) }
        {
            match cons.skip_one(alloc) {
                Ok(Some(())) => Ok(()),
                Ok(None) => Err(
                    (*cons).content_err(ContentError::from_static("missing further values")),
                ),
                Err(error) => Err(error),
            }
        },
    );
    match captured {
        Ok(message) => Ok(message),
        Err(error) => {
            cons.fail();
            Err(error)
        }
    }
}

impl SignedData {
    /// Those octets, with that signature over them.
    pub fn new(data: Captured, signature: RpkiSignature) -> Self
        ensures { result ≡ record { message = «data»; signature = signature } }
    {
        SignedData {
            message: data,
            signature,
        }
    }

    /// What is signed: the very octets that stood there.
    pub fn data(&self) -> &Captured
        ensures { result.now ≡ self.now.message }
    {
        &self.message
    }

    /// The signature and its algorithm.
    pub fn signature(&self) -> &RpkiSignature
        ensures { result.now ≡ self.now.signature }
    {
        &self.signature
    }

    /// The fields of signed data, which are all of their content: any value, of which the octets are kept, the
    /// algorithm, and the signature (RFC 5280 4.1.1).
    pub fn from_constructed<S: Source>(
        alloc: Global,
        cons: &mut Constructed<S>,
    ) -> Result<Self, DecodeError<S::Error>>
        ensures reads { ReadsFields signed_fields signed_content.reads
            (here S.rest cons.old) result (here S.rest cons.new) }
        ensures octets { IfOk result (λ s. TookOctets octet_fields AreSignedOctets
            (here S.rest cons.old) s (here S.rest cons.new)) }
        ensures failed { OnErr result ((here S.rest cons.new).failed ≡ true) }
    {
        let message = take_message(alloc, cons)?;
        let algorithm = RpkiSignatureAlgorithm::x509_take_from(cons)?;
        let bits = BitString::take_from(alloc, cons)?;
        let signature = Signature::from_bits(algorithm, bits);
        Ok(SignedData { message, signature })
    }

    /// The signed data that is next (RFC 5280 4.1.1).
    pub fn take_from<S: Source>(
        alloc: Global,
        cons: &mut Constructed<S>,
    ) -> Result<Self, DecodeError<S::Error>>
        ensures reads { ReadsAs signed_fields (signed.reads (here S.rest cons.old).mode)
            (here S.rest cons.old) result (here S.rest cons.new) }
        ensures octets { IfOk result (λ s. TookOctets octet_fields SpellsSignedData
            (here S.rest cons.old) s (here S.rest cons.new)) }
        ensures failed { OnErr result ((here S.rest cons.new).failed ≡ true) }
    {
        cons.take_sequence(
            |cons|
                ensures reads { ReadsFields signed_fields signed_content.reads
                    (here S.rest cons.old) result (here S.rest cons.new) }
                ensures octets { IfOk result (λ s. TookOctets octet_fields AreSignedOctets
                    (here S.rest cons.old) s (here S.rest cons.new)) }
            { SignedData::from_constructed(alloc, cons) },
        )
    }

    /// The signed data that a source begins with, in DER; octets after it stay unread.
    pub fn decode<I: IntoSource>(
        alloc: Global,
        source: I,
    ) -> Result<Self, DecodeError<<I::Source as Source>::Error>>
        ensures reads { DecodesAs signed_fields Der (signed.reads Der) (I.octets source) result }
        ensures octets { IfOk result (λ s. InFront (SpellsSignedData Der)
            (I.octets source) (octet_fields s)) }
    {
        Mode::Der.decode(
            source,
            |cons|
                ensures reads { ReadsAs signed_fields
                    (signed.reads (here I.Source.rest cons.old).mode) (here I.Source.rest cons.old)
                    result (here I.Source.rest cons.new) }
                ensures octets { IfOk result (λ s. TookOctets octet_fields SpellsSignedData
                    (here I.Source.rest cons.old) s (here I.Source.rest cons.new)) }
            { SignedData::take_from(alloc, cons) },
        )
    }
}

/// A clone is equal signed data; no octet is copied.
impl Clone for SignedData {
    ghost is_clone = { λ signed copy. copy ≡ signed };

    fn clone(&self) -> Result<Self, AllocError> {
        let message = self.message.clone()?;
        let bits = self.signature.bits().clone()?;
        let signature = Signature::from_bits(*self.signature.algorithm(), bits);
        Ok(SignedData::new(message, signature))
    }
}
