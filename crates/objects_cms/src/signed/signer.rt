//! What one signer signed, and how (RFC 5652 5.3, RFC 6488 2.1.6).

ghost use Rattle.std.specs.Prelude.{◌≡◌, IfOk, OnErr, true};
ghost use Rattle.objects_cms.specs.bcder_tree.Tags.{context};
ghost use Rattle.objects_cms.specs.bcder_content.Exact.{ReadsAs};
ghost use Rattle.objects_cms.specs.bcder_content.Grammar.{Inside};
ghost use Rattle.objects_cms.specs.bcder_content.Here.{here};
ghost use Rattle.objects_cms.specs.bcder_content.InMode.{ReadsFields};
ghost use Rattle.objects_cms.specs.bcder_content.Tagged.{ReadsTagged};
ghost use Rattle.objects_cms.specs.certs_basics.Basics.{IsKeyIdentifier};
ghost use Rattle.certs_cert.specs.certs_x509.Took.{TookOctets};
ghost use Rattle.objects_cms.specs.Kept.{AreKept};
ghost use Rattle.objects_cms.specs.objects_payload.ObjectText.{IsSid, SpellsSigner};
ghost use Rattle.objects_cms.specs.Signer.{AreKeptOctets, AreSigner, AreSignerOctets, IsSigner, SpellsKept, signer_fields};

use crate::attributes::SignedAttrs;
use certs_cert::decode::{Constructed, DecodeError, Source};
use certs_cert::{
    DigestAlgorithm, KeyIdentifier, OctetString, RpkiSignatureAlgorithm, Tag, with_value,
};
use std::alloc::Global;
use std::marker::Model;

// The number that stands for the version of signers by key identifier (RFC 5652 5.3).
const VERSION: u8 = 3;

/// What one signer signed, and how:
/// `SEQUENCE { version INTEGER (3), sid [0] SubjectKeyIdentifier, digestAlgorithm, signedAttrs [0], signatureAlgorithm,
/// signature OCTET STRING }` (RFC 5652 5.3, RFC 6488 2.1.6). Contracts see all of it but the constants.
#[derive(Drop)]
pub struct SignerInfo {
    sid: KeyIdentifier,
    attributes: SignedAttrs,
    algorithm: RpkiSignatureAlgorithm,
    signature: OctetString,
}

impl Model for SignerInfo {
    ghost use Rattle.objects_cms.specs.Signer.{SignerValue};

    ghost Value = { SignerValue };

    ghost view = { λ s. record {
      sid = s.sid;
      attributes = s.attributes;
      has_null = s.algorithm;
      signature = s.signature;
    } };
}

// The identifier of the signer's key, with the tag [0] (RFC 6488 2.1.6.2).
fn take_sid<S: Source>(
    alloc: Global,
    cons: &mut Constructed<S>,
) -> Result<KeyIdentifier, DecodeError<S::Error>>
    ensures reads { ReadsAs (λ v. v) (IsSid (here S.rest cons.old).mode)
        (here S.rest cons.old) result (here S.rest cons.new) }
    ensures failed { OnErr result ((here S.rest cons.new).failed ≡ true) }
{
    cons.take_value_if(
        Tag::CTX_0,
        |content|
            ensures { ReadsTagged S.rest (λ v. v) IsKeyIdentifier content.old result content.new }
        { KeyIdentifier::from_content(alloc, content) },
    )
}

// The signed attributes, with the tag [0] (RFC 6488 2.1.6.4).
fn take_attributes<S: Source>(
    alloc: Global,
    cons: &mut Constructed<S>,
) -> Result<SignedAttrs, DecodeError<S::Error>>
    ensures reads { ReadsAs (λ a. a) (Inside (context 0) (AreKept (here S.rest cons.old).mode))
        (here S.rest cons.old) result (here S.rest cons.new) }
    ensures octets { IfOk result (λ a. TookOctets (λ x. x) SpellsKept
        (here S.rest cons.old) a (here S.rest cons.new)) }
    ensures failed { OnErr result ((here S.rest cons.new).failed ≡ true) }
{
    cons.take_constructed_if(
        Tag::CTX_0,
        |cons|
            ensures reads { ReadsFields (λ a. a) AreKept
                (here S.rest cons.old) result (here S.rest cons.new) }
            ensures octets { IfOk result (λ a. TookOctets (λ x. x) AreKeptOctets
                (here S.rest cons.old) a (here S.rest cons.new)) }
        { SignedAttrs::take_from(alloc, cons) },
    )
}

impl SignerInfo {
    /// The fields of a signer, which are all of their content.
    pub fn from_constructed<S: Source>(
        alloc: Global,
        cons: &mut Constructed<S>,
    ) -> Result<Self, DecodeError<S::Error>>
        ensures reads { ReadsFields signer_fields AreSigner
            (here S.rest cons.old) result (here S.rest cons.new) }
        ensures octets { IfOk result (λ s. TookOctets signer_fields AreSignerOctets
            (here S.rest cons.old) s (here S.rest cons.new)) }
        ensures failed { OnErr result ((here S.rest cons.new).failed ≡ true) }
    {
        let version = cons.skip_u8_if(VERSION)?;
        let sid = take_sid(alloc, cons)?;
        let digest = DigestAlgorithm::take_from(cons)?;
        let attributes = take_attributes(alloc, cons)?;
        let (attributes, algorithm) = with_value(
            attributes,
            RpkiSignatureAlgorithm::cms_take_from(cons),
        )?;
        let (attributes, signature) = with_value(attributes, OctetString::take_from(alloc, cons))?;
        Ok(SignerInfo {
            sid,
            attributes,
            algorithm,
            signature,
        })
    }

    /// The signer that is next: by values in each mode, and by the very octets that stood there, of which those of the
    /// attributes are kept, since they are signed as they stand (RFC 5652 5.4).
    pub fn take_from<S: Source>(
        alloc: Global,
        cons: &mut Constructed<S>,
    ) -> Result<Self, DecodeError<S::Error>>
        ensures reads { ReadsAs signer_fields (IsSigner (here S.rest cons.old).mode)
            (here S.rest cons.old) result (here S.rest cons.new) }
        ensures octets { IfOk result (λ s. TookOctets signer_fields SpellsSigner
            (here S.rest cons.old) s (here S.rest cons.new)) }
        ensures failed { OnErr result ((here S.rest cons.new).failed ≡ true) }
    {
        cons.take_sequence(
            |cons|
                ensures reads { ReadsFields signer_fields AreSigner
                    (here S.rest cons.old) result (here S.rest cons.new) }
                ensures octets { IfOk result (λ s. TookOctets signer_fields AreSignerOctets
                    (here S.rest cons.old) s (here S.rest cons.new)) }
            { SignerInfo::from_constructed(alloc, cons) },
        )
    }

    /// The identifier of the signer's key.
    pub fn sid(&self) -> KeyIdentifier
        ensures { result ≡ self.now.sid }
    {
        self.sid
    }

    /// The attributes, with their octets.
    pub fn attributes(&self) -> &SignedAttrs
        ensures { result.now ≡ self.now.attributes }
    {
        &self.attributes
    }

    /// The algorithm of the signature.
    pub fn algorithm(&self) -> RpkiSignatureAlgorithm
        ensures { result ≡ self.now.has_null }
    {
        self.algorithm
    }

    /// The signature.
    pub fn signature(&self) -> &OctetString
        ensures { result.now ≡ self.now.signature }
    {
        &self.signature
    }
}
