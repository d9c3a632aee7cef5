//! Verification of a signed object's content.

ghost use Rattle.std.specs.Prelude.{◌≡◌, ◌≢◌, ◌↔◌, ℕ, List, IfErr, IsTrue, OnOk};
ghost use Rattle.objects_cms.specs.certs_key.Digesting.{digests_of};
ghost use Rattle.objects_cms.specs.certs_x509.declared.errors.verification.VerificationError.TheVariants.{BadSignature};
ghost use Rattle.objects_cms.specs.objects_payload.ObjectText.{IsNotAfter};
ghost use Rattle.objects_cms.specs.Content.{AsksOnce, FailsSignature, IsSigned, VerifiesContent, object_with};

use crate::signed::{Cert, Digester, SignerInfo, Verifier};
use crate::verify::message::signed_message;
use certs_cert::errors::{Time, VerificationError};
use certs_cert::signed::OctetString;
use std::alloc::Global;

// Whether a digest is the SHA-256 digest of a content.
fn is_digest_of<D: Digester>(digest: &OctetString, content: &OctetString, digester: &D) -> bool
    ensures { IsTrue result ↔ (digest.now ≡ D.sha256_digest digester.now content.now) }
{
    let octets = content.as_slice().unwrap_or(&[]);
    digest.is_slice(&digester.sha256(octets))
}

// Whether a time, if there is one, isn't after a moment.
fn is_not_after(time: Option<Time>, moment: Time) -> bool
    ensures { IsTrue result ↔ IsNotAfter time moment }
{
    match time {
        Some(time) => time <= moment,
        None => true,
    }
}

// Whether the signature is good by the certificate's key, over the attributes as a SET. The verifier is asked at most once:
// not at all where there is no such message, or no memory for it.
fn verify_signature<V: Verifier>(
    alloc: Global,
    signer: &SignerInfo,
    cert: &Cert,
    verifier: &mut V,
) -> Result<(), VerificationError>
    ensures signed { OnOk result ((content_type content : List ℕ) → IsSigned (V.says verifier.old)
        (object_with content_type content cert.now signer.now)) }
    ensures fails { IfErr result (λ e. (content_type content : List ℕ) → FailsSignature
        (V.says verifier.old) (object_with content_type content cert.now signer.now) e) }
    ensures same { V.says verifier.new ≡ V.says verifier.old }
    ensures asked { AsksOnce (V.count verifier.old) (V.count verifier.new) }
    ensures spared { IfErr result
        (λ e. e ≢ BadSignature → V.count verifier.new ≡ V.count verifier.old) }
{
    let Ok(found) = signed_message(alloc, signer) else {
        return Err(VerificationError::Memory);
    };
    let Some(message) = found else {
        return Err(VerificationError::BadSignature);
    };
    let key = cert.tbs().subject_public_key_info();
    let signature = signer.signature().as_slice().unwrap_or(&[]);
    if verifier.verify(key, signer.algorithm(), message.as_slice(), signature) {
        return Ok(());
    }
    Err(VerificationError::BadSignature)
}

/// Whether the object of that content, signer and certificate is sound, and else the first test that fails, in this order:
/// the digest that is signed is the content's SHA-256 digest (`MessageDigest`), the signing time, if there is one, isn't
/// after the certificate's validity (`SigningTime`), and the signature is good by the certificate's key over the
/// attributes as a SET (`BadSignature`) (RFC 5652 5.4, 5.6; RFC 6488 3). A signing time before the validity is no fault,
/// and a binary signing time isn't looked at.
///
/// The verifier is asked at most once, and only where the digest and the time are good and there is memory for the message.
pub fn verify_content<D: Digester, V: Verifier>(
    alloc: Global,
    signer: &SignerInfo,
    content: &OctetString,
    cert: &Cert,
    digester: &D,
    verifier: &mut V,
) -> Result<(), VerificationError>
    ensures answers { (content_type : List ℕ) → VerifiesContent
        (digests_of D.sha256_digest D.sha1_digest digester.now) (V.says verifier.old)
        (object_with content_type content.now cert.now signer.now) result }
    ensures same { V.says verifier.new ≡ V.says verifier.old }
    ensures asked { AsksOnce (V.count verifier.old) (V.count verifier.new) }
    ensures spared { IfErr result
        (λ e. e ≢ BadSignature → V.count verifier.new ≡ V.count verifier.old) }
{
    let attributes = signer.attributes().attributes();
    if !is_digest_of(&attributes.message_digest, content, digester) {
        return Err(VerificationError::MessageDigest);
    }
    if !is_not_after(attributes.signing_time, cert.tbs().validity().not_after()) {
        return Err(VerificationError::SigningTime);
    }
    verify_signature(alloc, signer, cert, verifier)
}
