//! Signed objects, read (RFC 5652, RFC 6488).

ghost use Rattle.std.specs.Prelude.{◌≡◌, ◌≢◌, ◌↔◌, IfErr, IfOk, IsTrue, OnErr, OnOk, true};
ghost use Rattle.objects_cms.specs.bcder_source.declared.error.DecodeError.TheVariants.{Memory};
ghost use Rattle.objects_cms.specs.bcder_content.Here.{here};
ghost use Rattle.objects_cms.specs.bcder_content.Memory.{OnMemory};
ghost use Rattle.objects_cms.specs.bcder_content.ClosureReads.{fresh};
ghost use Rattle.objects_cms.specs.objects_payload.ObjectText.{SpellsObject, mode, object_of, signer_of};
ghost use Rattle.objects_cms.specs.Signer.{signer_fields};
ghost use Rattle.objects_cms.specs.Begun.{BeginsObject};
ghost use Rattle.objects_cms.specs.Content.{AsksOnce, VerifiesContent};
ghost use Rattle.objects_cms.specs.certs_key.Digesting.{digests_of};
ghost use Rattle.objects_cms.specs.certs_x509.declared.errors.verification.VerificationError.TheVariants.{BadSignature};
ghost use Rattle.objects_cms.specs.Frame.{signed_fields};
ghost use Rattle.objects_cms.specs.Decoded.{Agrees, DecodesObject, ReadsOctets};

use crate::signed::frame::{Parts, take_frame};
use crate::signed::kept::KeptCert;
use crate::signed::signer::SignerInfo;
use crate::verify::{VerificationError, verify_content};
use certs_cert::decode::{Constructed, ContentError, Decode, DecodeError, IntoSource, Source};
use certs_cert::{Cert, Digester, Mode, OctetString, Oid, Time, Verifier};
use std::alloc::Global;
use std::marker::Model;

/// A signed object: a content of some type, one signer, and the certificate with the signer's key (RFC 6488 2.1). Contracts
/// see it as the standard's fields. The signature isn't verified by reading it.
#[derive(Drop)]
pub struct SignedObject {
    content_type: Oid,
    content: OctetString,
    cert: KeptCert,
    signer: SignerInfo,
}

impl Model for SignedObject {
    ghost use Rattle.objects_cms.specs.objects_payload.ObjectText.{Object, signer_of};
    ghost use Rattle.objects_cms.specs.Signer.{signer_fields};

    ghost Value = { Object };

    ghost view = { λ o. record {
      content_type = o.content_type.0;
      content = o.content;
      cert = o.cert;
      signer = signer_of (signer_fields o.signer);
    } };
}

/// The mode of what is read: strict is DER, else BER.
pub fn mode_of(strict: bool) -> Mode
    ensures { result ≡ mode strict }
{
    if strict { Mode::Der } else { Mode::Ber }
}

// Whether the attribute for the content's type has that type, and the signer's key is the certificate's (RFC 6488 2.1.6).
fn agrees(parts: &Parts) -> bool
    ensures { IsTrue result ↔ Agrees parts.now }
{
    let same_type = parts
        .2
        .attributes()
        .attributes()
        .content_type
        .equals(&parts.0.0);
    let own = parts.2.sid() == parts.1.as_cert().tbs().subject_key_identifier();
    same_type && own
}

impl SignedObject {
    // The object of what was read of it.
    fn from_parts(parts: Parts) -> SignedObject
        ensures { result ≡ object_of (signed_fields parts) }
    {
        let (typed, cert, signer) = parts;
        let (content_type, content) = typed;
        SignedObject {
            content_type,
            content,
            cert,
            signer,
        }
    }

    // The object of the parts, where they agree; else the content is failed. That takes no memory.
    fn agreed<S: Source>(
        parts: Parts,
        cons: &mut Constructed<S>,
    ) -> Result<SignedObject, DecodeError<S::Error>>
        ensures gives { IfOk result
            (λ o. Agrees parts × (o ≡ object_of (signed_fields parts))) }
        ensures same { OnOk result (here S.rest cons.new ≡ here S.rest cons.old) }
        ensures refused { OnErr result (Agrees parts → ⊥) }
        ensures failed { OnErr result ((here S.rest cons.new).failed ≡ true) }
        ensures no_memory { IfErr result (λ e. e ≢ Memory) }
    {
        if !agrees(&parts) {
            drop(parts);
            cons.fail();
            return Err((*cons).content_err(ContentError::from_static("another type or key")));
        }
        Ok(SignedObject::from_parts(parts))
    }

    /// The signed object that is next, in the mode of the content: by the very octets that stood there, of which those that
    /// are signed are kept (RFC 5652 3, 5; RFC 6488 2). Memory is wanted only where an object begins, up to its content.
    pub fn take_from<S: Source>(
        alloc: Global,
        cons: &mut Constructed<S>,
    ) -> Result<SignedObject, DecodeError<S::Error>>
        ensures reads { ReadsOctets (λ o. o) SpellsObject
            (here S.rest cons.old) result (here S.rest cons.new) }
        ensures failed { OnErr result ((here S.rest cons.new).failed ≡ true) }
        ensures memory { IfErr result (λ e. OnMemory e (BeginsObject (here S.rest cons.old))) }
    {
        let parts = take_frame(alloc, cons)?;
        SignedObject::agreed(parts, cons)
    }

    /// The signed object that a source begins with: in DER, or where not `strict` in BER; octets after it stay unread.
    pub fn decode<I: IntoSource>(
        alloc: Global,
        source: I,
        strict: bool,
    ) -> Result<SignedObject, DecodeError<<I::Source as Source>::Error>>
        ensures decodes { DecodesObject strict (I.octets source) result }
        ensures memory { IfErr result (λ e. OnMemory e
            (BeginsObject (fresh (mode strict) (I.octets source)))) }
    {
        let rules = mode_of(strict);
        rules.decode(
            source,
            |cons|
                ensures reads { ReadsOctets (λ o. o) SpellsObject
                    (here I.Source.rest cons.old) result (here I.Source.rest cons.new) }
                ensures memory { IfErr result (λ e. OnMemory e
                    (BeginsObject (here I.Source.rest cons.old))) }
            { SignedObject::take_from(alloc, cons) },
        )
    }

    /// The type of the content (RFC 5652 5.2).
    pub fn content_type(&self) -> &Oid
        ensures { result.now.0 ≡ self.now.content_type }
    {
        &self.content_type
    }

    /// The content (RFC 5652 5.2).
    pub fn content(&self) -> &OctetString
        ensures { result.now ≡ self.now.content }
    {
        &self.content
    }

    /// The certificate with the signer's key (RFC 6488 2.1.4).
    pub fn cert(&self) -> &Cert
        ensures { result.now ≡ self.now.cert }
    {
        self.cert.as_cert()
    }

    /// The certificate with the signer's key, handed over (RFC 6488 2.1.4).
    pub fn into_cert(self) -> Cert
        ensures { result ≡ self.cert }
    {
        let SignedObject {
            content_type,
            content,
            cert,
            signer,
        } = self;
        drop(content_type);
        drop(content);
        drop(signer);
        cert.into_cert()
    }

    /// Who signed it, and what was signed of the attributes (RFC 6488 2.1.6).
    pub fn signer(&self) -> &SignerInfo
        ensures { signer_of (signer_fields result.now) ≡ self.now.signer }
    {
        &self.signer
    }

    /// When it was signed, if that is said as a text (RFC 5652 11.3).
    pub fn signing_time(&self) -> Option<Time>
        ensures { result ≡ self.now.signer.signing_time }
    {
        self.signer.attributes().attributes().signing_time
    }

    /// When it was signed, in seconds from 1970 on, if that is said as a number (RFC 6019 3).
    pub fn binary_signing_time(&self) -> Option<u64>
        ensures { result ≡ self.now.signer.binary_signing_time }
    {
        self.signer.attributes().attributes().binary_signing_time
    }

    /// Whether the object is sound, and else the first test that fails, in this order: the digest that is signed is the
    /// content's (`MessageDigest`), the signing time isn't after the certificate's validity (`SigningTime`), and the
    /// signature is good by the certificate's key over the attributes (`BadSignature`) (RFC 6488 3, RFC 5652 5.4). Who
    /// issued the certificate and what it claims isn't looked at. The verifier is asked at most once.
    pub fn verify_content<D: Digester, V: Verifier>(
        &self,
        alloc: Global,
        digester: &D,
        verifier: &mut V,
    ) -> Result<(), VerificationError>
        ensures answers { VerifiesContent
            (digests_of D.sha256_digest D.sha1_digest digester.now) (V.says verifier.old)
            self.now result }
        ensures same { V.says verifier.new ≡ V.says verifier.old }
        ensures asked { AsksOnce (V.count verifier.old) (V.count verifier.new) }
        ensures spared { IfErr result
            (λ e. e ≢ BadSignature → V.count verifier.new ≡ V.count verifier.old) }
    {
        let (signer, content, cert) = (self.signer(), self.content(), self.cert());
        verify_content(alloc, signer, content, cert, digester, verifier)
    }

    /// The type of the content, the content, the certificate and the signer, handed over.
    pub fn into_parts(self) -> (Oid, OctetString, Cert, SignerInfo)
        ensures content_type { result.0.0 ≡ self.content_type }
        ensures content { result.1 ≡ self.content }
        ensures cert { result.2 ≡ self.cert }
        ensures signer { signer_of (signer_fields result.3) ≡ self.signer }
    {
        let cert = self.cert.into_cert();
        (self.content_type, self.content, cert, self.signer)
    }
}
