//! Public keys.

ghost use Rattle.std.specs.Prelude.{◌≡◌, ◌↔◌, IfOk, IsTrue, OnErr, true};
ghost use Rattle.certs_key.specs.bcder_tree.declared.mode.Mode.TheVariants.{Der};
ghost use Rattle.certs_key.specs.bcder_tree.Tree.{Spells};
ghost use Rattle.certs_key.specs.bcder_octets.BitContents.{IsPadded};
ghost use Rattle.certs_key.specs.bcder_content.Exact.{DecodesAs, ReadsAs};
ghost use Rattle.certs_key.specs.bcder_content.Here.{here};
ghost use Rattle.certs_key.specs.certs_basics.declared.PublicKeyFormat.TheVariants.{Rsa, Ecdsa};
ghost use Rattle.certs_key.specs.certs_basics.Names.{subject_of};
ghost use Rattle.certs_key.specs.certs_basics.Keys.{Encodes, IsKey, encoded, identifier};
ghost use Rattle.certs_key.specs.Digesting.{digests_of};

use crate::algorithm::decode::{
    Constructed, ContentError, Decode, DecodeError, IntoSource, Source,
};
use crate::algorithm::encode::{EncodeError, Values};
use crate::algorithm::{BitString, Mode, PublicKeyFormat};
use crate::digest::Digester;
use crate::encoded::{encoded_of, encoder};
use crate::identifier::KeyIdentifier;
use crate::taken::take_kept;
use bytes::Bytes;
use certs_name::Name;
use std::alloc::{AllocError, Global};
use std::io::Write;
use std::marker::Model;

/// A public key: its algorithm, and its bits as they were spelled (RFC 5280 4.1.2.7). Contracts see both.
///
/// A key keeps its encoded octets, which are its DER. There are such octets of each key.
#[derive(Debug, Drop)]
pub struct PublicKey {
    format: PublicKeyFormat,
    bits: BitString,
    encoded: Bytes,
}

impl Model for PublicKey {
    ghost use Rattle.certs_key.specs.certs_basics.Keys.{KeyValue, Encodes};

    ghost Value = { KeyValue };

    ghost view = { λ a. record { format = a.format; bits = a.bits } };

    ghost invariant = { λ a. Encodes (record { format = a.format; bits = a.bits }) a.encoded };
}

/// What a key has.
impl PublicKey {
    /// The algorithm.
    pub fn algorithm(&self) -> PublicKeyFormat
        ensures { result ≡ self.now.format }
    {
        self.format
    }

    // The key's bits.
    pub(crate) fn bit_string(&self) -> &BitString
        ensures { result.now ≡ self.now.bits }
    {
        &self.bits
    }

    /// The octets of the key's bits, without the count of unused bits.
    pub fn bits(&self) -> &[u8]
        ensures { result.now ≡ self.now.bits.octets }
    {
        self.bits.octet_slice().unwrap_or(&[])
    }

    /// The encoded octets, which are kept: the key's DER, with NULL after rsaEncryption (RFC 7935 3.1) and unused bits
    /// zero (X.690 11.2.1), whatever was read.
    pub fn encoded(&self) -> &[u8]
        ensures octets { result.now ≡ encoded self.now }
        ensures der { Encodes self.now result.now }
    {
        self.encoded.as_slice()
    }

    /// The key's identifier: the SHA-1 digest of the octets that `bits` has (RFC 6487 4.8.2).
    pub fn key_identifier<D: Digester>(&self, digester: &D) -> KeyIdentifier
        ensures { result ≡ identifier
            (digests_of D.sha256_digest D.sha1_digest digester.now) self.now }
    {
        KeyIdentifier::of_digest(digester.sha1(self.bits()))
    }

    /// The name that is made from the key's identifier: one commonName of its 40 hexadecimal digits in lower case, in DER.
    pub fn to_subject_name<D: Digester>(
        &self,
        alloc: Global,
        digester: &D,
    ) -> Result<Name, AllocError>
        ensures mode { IfOk result (λ name. name.mode ≡ Der) }
        ensures spelled { IfOk result (λ name. Spells Der (subject_of (identifier
            (digests_of D.sha256_digest D.sha1_digest digester.now) self.now)) name.octets) }
    {
        Name::from_key_identifier(alloc, &digester.sha1(self.bits()))
    }

    /// Whether RPKI certificates may have the key: RSA alone (RFC 7935 3).
    pub fn allow_rpki_cert(&self) -> bool
        ensures { IsTrue result ↔ (self.now.format ≡ Rsa) }
    {
        self.algorithm() == PublicKeyFormat::Rsa
    }

    /// Whether router certificates may have the key: ECDSA alone (RFC 8608 3.1).
    pub fn allow_router_cert(&self) -> bool
        ensures { IsTrue result ↔ (self.now.format ≡ Ecdsa) }
    {
        self.algorithm() == PublicKeyFormat::Ecdsa
    }
}

/// Keys that are read.
impl PublicKey {
    /// The key in front of a source, in DER, so that its unused bits are zero; octets after it stay unread.
    pub fn decode<I: IntoSource>(
        alloc: Global,
        source: I,
    ) -> Result<PublicKey, DecodeError<<I::Source as Source>::Error>>
        ensures decodes { DecodesAs (λ k. k) Der (IsKey Der) (I.octets source) result }
        ensures padded { IfOk result (λ k. IsPadded Der k.bits) }
    {
        Mode::Der.decode(
            source,
            |cons|
                ensures { ReadsAs (λ k. k) (IsKey (here I.Source.rest cons.old).mode)
                    (here I.Source.rest cons.old) result (here I.Source.rest cons.new) }
            { PublicKey::take_from(alloc, cons) },
        )
    }

    /// The next value, a key (RFC 5280 4.1.2.7): rsaEncryption, with NULL after it or nothing, or ecPublicKey on
    /// secp256r1, and any bits. Any other value is refused, and so is a key that is too long to be encoded, since some
    /// of its DER would have more than 2^32 - 1 octets.
    ///
    /// Where the source shares its octets none is copied; the encoded octets are made anew only where the octets that
    /// were read aren't the key's DER.
    pub fn take_from<S: Source>(
        alloc: Global,
        cons: &mut Constructed<S>,
    ) -> Result<PublicKey, DecodeError<S::Error>>
        ensures reads { ReadsAs (λ k. k) (IsKey (here S.rest cons.old).mode)
            (here S.rest cons.old) result (here S.rest cons.new) }
        ensures failed { OnErr result ((here S.rest cons.new).failed ≡ true) }
    {
        match PublicKey::take_next(alloc, cons) {
            Ok(key) => Ok(key),
            Err(error) => {
                cons.fail();
                Err(error)
            }
        }
    }

    // The next value, a key that has encoded octets: those that were read, where they are its DER.
    fn take_next<S: Source>(
        alloc: Global,
        cons: &mut Constructed<S>,
    ) -> Result<PublicKey, DecodeError<S::Error>>
        ensures { ReadsAs (λ k. k) (IsKey (here S.rest cons.old).mode)
            (here S.rest cons.old) result (here S.rest cons.new) }
    {
        let (octets, (format, bits)) = take_kept(alloc, cons)?;
        match encoded_of(alloc, format, &bits, octets.into_bytes()) {
            Ok(Some(encoded)) => Ok(PublicKey {
                format,
                bits,
                encoded,
            }),
            Ok(None) => Err(cons.content_err(ContentError::from_static("a key that is too long"))),
            Err(_) => Err(DecodeError::Memory),
        }
    }
}

/// Keys that are written.
impl PublicKey {
    /// The key as a value, which is lent.
    pub fn encode_ref(&self) -> &PublicKey
        ensures { result.now ≡ self.now }
    {
        self
    }
}

/// A SEQUENCE of the algorithm, with NULL after rsaEncryption, and the bits. In DER these are the octets of `encoded`.
///
/// `CerUnsupported` where the bits have more than 1000 content octets in CER (X.690 9.2).
impl Values for PublicKey {
    ghost use Rattle.certs_key.specs.Forms.{key};

    ghost trees = { λ k. key.trees k };

    ghost writes = { λ k. key.writes k };

    fn encoded_len(&self, mode: Mode) -> Result<usize, EncodeError> {
        let value = encoder(self.format, &self.bits);
        value.encoded_len(mode)
    }

    fn write_encoded<W: Write>(&self, mode: Mode, target: &mut W) -> Result<(), EncodeError> {
        let value = encoder(self.format, &self.bits);
        value.write_encoded(mode, target)
    }

    ghost spelled = { λ k. key.spelled k };

    ghost one_text = { λ k. key.one_text k };
}

/// A clone is an equal key; no octet is copied.
impl Clone for PublicKey {
    ghost is_clone = { λ key copy. copy ≡ key };

    fn clone(&self) -> Result<Self, AllocError> {
        let bits = self.bits.clone()?;
        let encoded = self.encoded.clone()?;
        Ok(PublicKey {
            format: self.format,
            bits,
            encoded,
        })
    }
}
