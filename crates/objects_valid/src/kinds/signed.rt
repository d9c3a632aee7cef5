//! Signed objects with what their contents say, whatever the type of content.

ghost use Rattle.std.specs.Prelude.{◌≡◌, ◌≢◌, ℕ, IfErr, List};
ghost use Rattle.objects_cms.specs.bcder_tree.Tree.{Tree};
ghost use Rattle.objects_cms.specs.certs_x509.declared.errors.verification.VerificationError.TheVariants.{BadSignature};
ghost use Rattle.objects_cms.specs.Content.{AsksOnce, VerifiesContent};
ghost use Rattle.objects_cms.specs.certs_key.Digesting.{digests_of};
ghost use Rattle.objects_cms.specs.objects_payload.Contents.{ReadsAs};
ghost use Rattle.objects_cms.specs.objects_payload.Decoded.{DecodesFront};
ghost use Rattle.objects_valid.specs.Kinds.{DecodesKind};

use crate::kinds::typed::decode_typed;
use bcder::decode::{DecodeError, IntoSource, Source};
use bytes::Bytes;
use objects_cms::signed::{Cert, Digester, SignedObject, Verifier};
use objects_cms::verify::VerificationError;
use std::alloc::Global;
use std::convert::Infallible;
use std::marker::Model;

/// What the content of a signed object says, where it is of a type of its own (RFC 6488 2.1.3).
pub trait SignedContent: Sized + Drop {
    // The identifier of the type, and what a content of it says.
    ghost kind: { List ℕ };

    ghost says: { Tree → Self → Type 0 };

    /// The identifier of the type of content, by its content octets (RFC 6488 2.1.3.1).
    fn content_type() -> &'static [u8]
        ensures { result.now ≡ kind };

    /// What a content's octets say, in DER; octets after the value aren't looked at.
    fn from_content(alloc: Global, octets: Bytes) -> Result<Self, DecodeError<Infallible>>
        ensures { DecodesFront says octets result };
}

/// A signed object, and what its content says. Contracts see both.
#[derive(Drop)]
pub struct Signed<T> {
    signed: SignedObject,
    content: T,
}

impl<T> Model for Signed<T> {
    ghost use Rattle.objects_valid.specs.Kinds.{KindValue};

    ghost Value = { KindValue T };

    ghost view = { λ k. record { signed = k.signed; content = k.content } };
}

impl<T: SignedContent> Signed<T> {
    /// The object of that type of content that a source begins with, in DER, or where not `strict` in BER; octets after it
    /// stay unread. Its content is DER in both (RFC 6488 2.1.3.2). Its octets are shared where they stand in one piece.
    pub fn decode<I: IntoSource>(
        alloc: Global,
        source: I,
        strict: bool,
    ) -> Result<Self, DecodeError<<I::Source as Source>::Error>>
        ensures { DecodesKind (ReadsAs T.kind T.says) strict (I.octets source) result }
    {
        let (signed, octets) = decode_typed::<T, I>(alloc, source, strict)?;
        match T::from_content(alloc, octets) {
            Ok(content) => Ok(Signed { signed, content }),
            Err(error) => {
                drop(signed);
                Err(error.convert())
            }
        }
    }

    /// The signed object, with its signer and the octets of its content.
    pub fn signed(&self) -> &SignedObject
        ensures { result.now ≡ self.now.signed }
    {
        &self.signed
    }

    /// The certificate with the signer's key (RFC 6488 2.1.4).
    pub fn cert(&self) -> &Cert
        ensures { result.now ≡ self.now.signed.cert }
    {
        self.signed.cert()
    }

    /// What the content says.
    pub fn content(&self) -> &T
        ensures { result.now ≡ self.now.content }
    {
        &self.content
    }

    /// Whether the signed object is sound, and else the first test that fails, in this order: the digest that is signed is the
    /// content's (`MessageDigest`), the signing time isn't after the certificate's validity (`SigningTime`), and the
    /// signature is good by the certificate's key over the attributes (`BadSignature`) (RFC 6488 3, RFC 5652 5.4). Who
    /// issued the certificate and what it claims isn't looked at. The verifier is asked at most once.
    pub fn verify_content<D: Digester, V: Verifier>(
        &self,
        alloc: Global,
        digester: &D,
        verifier: &mut V,
    ) -> Result<(), VerificationError>
        ensures answers { VerifiesContent
            (digests_of D.sha256_digest D.sha1_digest digester.now) (V.says verifier.old)
            self.now.signed result }
        ensures same { V.says verifier.new ≡ V.says verifier.old }
        ensures asked { AsksOnce (V.count verifier.old) (V.count verifier.new) }
        ensures spared { IfErr result
            (λ e. e ≢ BadSignature → V.count verifier.new ≡ V.count verifier.old) }
    {
        self.signed.verify_content(alloc, digester, verifier)
    }

    /// What the content says, handed over.
    pub fn into_content(self) -> T
        ensures { result ≡ self.content }
    {
        let (signed, content) = self.into_parts();
        drop(signed);
        content
    }

    /// The signed object and what its content says, handed over.
    pub fn into_parts(self) -> (SignedObject, T)
        ensures signed { result.0 ≡ self.signed }
        ensures content { result.1 ≡ self.content }
    {
        (self.signed, self.content)
    }
}
