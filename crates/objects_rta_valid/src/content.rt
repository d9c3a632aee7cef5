//! Whether the signers signed the content (RFC 5652 5.4, RFC 6488 3).

ghost use Rattle.std.specs.Prelude.{◌≡◌, ◌↔◌, ◌+◌, ◌≤◌, ℕ, List, IfOk, IsTrue, length};
ghost use Rattle.std.specs.List.{AllZip};
ghost use Rattle.certs_verify.specs.certs_key.Digesting.{digests_of};
ghost use Rattle.certs_verify.specs.certs_x509.declared.errors.verification.VerificationError.TheVariants.{Memory};
ghost use Rattle.objects_rta.specs.objects_cms.Content.{object_with};
ghost use Rattle.objects_rta.specs.objects_cms.Signer.{signer_fields};
ghost use Rattle.objects_rta.specs.objects_payload.ObjectText.{Sound, signer_of};
ghost use Rattle.objects_rta_valid.specs.Validity.{IsSoundAt};

use crate::certs::cert_at;
use certs_verify::{Cert, Digester, VerificationError, Verifier};
use objects_rta::{MultiSignedObject, OctetString, SignerInfo, verify_content};
use std::alloc::{AllocError, Global};

// Whether memory was wanted.
fn is_memory(error: &VerificationError) -> bool
    ensures { IsTrue result ↔ (error.now ≡ Memory) }
{
    matches!(error, VerificationError::Memory)
}

// Whether the content with that signer and that certificate is sound. The verifier is asked at most once.
fn is_sound<D: Digester, V: Verifier>(
    alloc: Global,
    signer: &SignerInfo,
    content: &OctetString,
    cert: &Cert,
    digester: &D,
    verifier: &mut V,
) -> Result<bool, AllocError>
    ensures sound { IfOk result (λ yes. (content_type : List ℕ) → IsTrue yes ↔ Sound
        (digests_of D.sha256_digest D.sha1_digest digester.now) (V.says verifier.old)
        (object_with content_type content.now cert.now signer.now)) }
    ensures same { V.says verifier.new ≡ V.says verifier.old }
    ensures asked { V.count verifier.new ≤ V.count verifier.old + 1 }
{
    match verify_content(alloc, signer, content, cert, digester, verifier) {
        Ok(()) => Ok(true),
        Err(error) => {
            if is_memory(&error) {
                return Err(AllocError);
            }
            Ok(false)
        }
    }
}

// Whether the object's content with that signer is sound, with the certificate at the place. The verifier is asked at most
// once.
fn is_sound_at<D: Digester, V: Verifier>(
    alloc: Global,
    signed: &MultiSignedObject,
    signer: &SignerInfo,
    place: usize,
    digester: &D,
    verifier: &mut V,
) -> Result<bool, AllocError>
    ensures sound { IfOk result (λ yes. IsTrue yes ↔ IsSoundAt
        (digests_of D.sha256_digest D.sha1_digest digester.now) (V.says verifier.old)
        signed.now (signer_of (signer_fields signer.now)) place) }
    ensures same { V.says verifier.new ≡ V.says verifier.old }
    ensures asked { V.count verifier.new ≤ V.count verifier.old + 1 }
{
    match cert_at(signed.certificates(), place) {
        Some(cert) => is_sound(alloc, signer, signed.content(), cert, digester, verifier),
        None => Ok(false),
    }
}

/// Whether each signer signed the object's content, with the certificate at the place that goes with it. The verifier is asked
/// at most once for each.
pub(crate) fn are_sound<D: Digester, V: Verifier>(
    alloc: Global,
    signed: &MultiSignedObject,
    places: &[usize],
    digester: &D,
    verifier: &mut V,
) -> Result<bool, AllocError>
    ensures sound { IfOk result (λ yes. IsTrue yes ↔ AllZip (IsSoundAt
        (digests_of D.sha256_digest D.sha1_digest digester.now) (V.says verifier.old)
        signed.now) signed.now.signers places.now) }
    ensures same { V.says verifier.new ≡ V.says verifier.old }
    ensures asked { V.count verifier.new ≤ V.count verifier.old + length signed.now.signers }
{
    let mut rest = signed.signer_infos();
    let mut ahead = places;
    while let Some((signer, others)) = rest.split_first() {
        let Some((place, left)) = ahead.split_first() else {
            return Ok(false);
        };
        let is_good = is_sound_at(alloc, signed, signer, *place, digester, verifier)?;
        if !is_good {
            return Ok(false);
        }
        rest = others;
        ahead = left;
    }
    Ok(ahead.is_empty())
}
