//! What is tested of a signed object after its certificate's form: its content, then its certificate below an issuer.

ghost use Rattle.std.specs.Prelude.{◌≡◌, ◌+◌, ◌≤◌, Bool, IfErr, IfOk};
ghost use Rattle.objects_valid.specs.certs_extension.Verified.{HolderValue, IsSignedAt, held_by};
ghost use Rattle.objects_valid.specs.certs_extension.declared.forms.Role.{Role};
ghost use Rattle.certs_verify.specs.certs_x509.declared.errors.validation.ValidationError.TheVariants.{Verification};
ghost use Rattle.certs_verify.specs.certs_x509.declared.errors.verification.VerificationError.TheVariants.{Memory};
ghost use Rattle.certs_verify.specs.certs_key.Digesting.{digests_of};
ghost use Rattle.certs_verify.specs.Answers.{AsksOnce};
ghost use Rattle.certs_verify.specs.Validated.{Inspects, TellsNumbers};
ghost use Rattle.objects_valid.specs.Accepted.{SparesMemory, ValidatesContent, VerifiesBelow, VerifiesSigned};
ghost use Rattle.objects_valid.specs.Content.{VerifiesSound};

use crate::kinds::SignedObject;
use crate::terms::Terms;
use crate::together::join;
use certs_verify::{
    Cert, Digester, InspectionError, Refused, ResourceCert, ValidationError, VerificationError,
    Verifier, Verify,
};
use certs_x509::errors::Time;
use certs_x509::signed::OctetString;
use std::alloc::Global;

// Whether the signer signed the object's content, as a validation answers it.
fn verify_sound<D: Digester, V: Verifier>(
    alloc: Global,
    signed: &SignedObject,
    digester: &D,
    verifier: &mut V,
) -> Result<(), ValidationError>
    ensures verifies { VerifiesSound
        (digests_of D.sha256_digest D.sha1_digest digester.now) (V.says verifier.old)
        signed.now result }
    ensures outside { (issuer : HolderValue)
        → IfErr result (TellsNumbers signed.now.cert (held_by issuer)) }
    ensures spared { IfErr result
        (λ e. e ≡ Verification Memory → V.count verifier.new ≡ V.count verifier.old) }
    ensures same { V.says verifier.new ≡ V.says verifier.old }
    ensures asked { AsksOnce (V.count verifier.old) (V.count verifier.new) }
{
    match signed.verify_content(alloc, digester, verifier) {
        Ok(()) => Ok(()),
        Err(error) => Err(ValidationError::Verification(error)),
    }
}

// Whether the certificate's form is that of its role, by what was inspected, and the signer signed the content; else the
// first test that fails.
fn verify_signed<D: Digester, V: Verifier>(
    alloc: Global,
    signed: &SignedObject,
    form: Result<(), InspectionError>,
    digester: &D,
    verifier: &mut V,
) -> Result<(), ValidationError>
    ensures verifies { (strict : Bool) (role : Role)
        → Inspects (digests_of D.sha256_digest D.sha1_digest digester.now) strict role
        signed.now.cert form
        → VerifiesSigned (digests_of D.sha256_digest D.sha1_digest digester.now)
        (V.says verifier.old) strict role signed.now result }
    ensures outside { (issuer : HolderValue)
        → IfErr result (TellsNumbers signed.now.cert (held_by issuer)) }
    ensures spared { IfErr result
        (λ e. e ≡ Verification Memory → V.count verifier.new ≡ V.count verifier.old) }
    ensures same { V.says verifier.new ≡ V.says verifier.old }
    ensures asked { AsksOnce (V.count verifier.old) (V.count verifier.new) }
{
    match form {
        Ok(()) => verify_sound(alloc, signed, digester, verifier),
        Err(test) => Err(ValidationError::Inspection(test)),
    }
}

// The error with which a certificate is refused that is let go.
fn error_of(refused: Refused<VerificationError>) -> ValidationError
    ensures { result ≡ Verification refused.error }
{
    let Refused { cert, error } = refused;
    drop(cert);
    ValidationError::Verification(error)
}

// The certificate with what it holds below the issuer, or the first test that it fails.
fn verify_below<V: Verifier>(
    alloc: Global,
    cert: Cert,
    issuer: &ResourceCert,
    strict: bool,
    now: Time,
    verifier: &mut V,
) -> Result<ResourceCert, ValidationError>
    ensures verifies { VerifiesBelow (V.says verifier.old) now issuer.now.holder cert result }
    ensures tal { IfOk result (λ r. r.tal ≡ issuer.now.tal) }
    ensures outside { IfErr result (TellsNumbers cert (held_by issuer.now.holder)) }
    ensures same { V.says verifier.new ≡ V.says verifier.old }
    ensures asked { AsksOnce (V.count verifier.old) (V.count verifier.new) }
{
    match cert.verify_ee_at(alloc, issuer, strict, now, verifier) {
        Ok(holder) => Ok(holder),
        Err(refused) => Err(error_of(refused)),
    }
}

// The certificate and the content of an object.
fn split(signed: SignedObject) -> (Cert, OctetString)
    ensures cert { result.0 ≡ signed.cert }
    ensures content { result.1 ≡ signed.content }
{
    let (content_type, content, cert, signer) = signed.into_parts();
    drop(content_type);
    drop(signer);
    (cert, content)
}

/// The object's certificate with what it holds below the issuer, and its content, where it was inspected as one of its
/// role; else the first test that fails.
pub(crate) fn validate<D: Digester, V: Verifier>(
    alloc: Global,
    signed: SignedObject,
    form: Result<(), InspectionError>,
    issuer: &ResourceCert,
    terms: &mut Terms<'_, D, V>,
) -> Result<(ResourceCert, OctetString), ValidationError>
    ensures validates { (role : Role)
        → Inspects (digests_of D.sha256_digest D.sha1_digest terms.old.digester.now)
        terms.old.strict role signed.cert form
        → ValidatesContent (digests_of D.sha256_digest D.sha1_digest terms.old.digester.now)
        (V.says terms.old.verifier.now) terms.old.strict role terms.old.moment
        issuer.now.holder signed signed.content result }
    ensures tal { IfOk result (λ p. p.0.tal ≡ issuer.now.tal) }
    ensures outside { IfErr result (TellsNumbers signed.cert (held_by issuer.now.holder)) }
    ensures memory { IfErr result (SparesMemory
        (V.count terms.old.verifier.now) (V.count terms.new.verifier.now)
        (IsSignedAt (V.says terms.old.verifier.now) terms.old.moment
        issuer.now.holder.cert signed.cert)) }
    ensures same { V.says terms.new.verifier.now ≡ V.says terms.old.verifier.now }
    ensures lent { terms.new.verifier.ghost_name ≡ terms.old.verifier.ghost_name }
    ensures asked { V.count terms.new.verifier.now ≤ V.count terms.old.verifier.now + 2 }
{
    match verify_signed(alloc, &signed, form, terms.digester, terms.verifier) {
        Ok(()) => {
            let (cert, content) = split(signed);
            let (strict, moment) = (terms.strict, terms.moment);
            let validated = verify_below(alloc, cert, issuer, strict, moment, terms.verifier);
            join(content, validated)
        }
        Err(error) => {
            drop(signed);
            Err(error)
        }
    }
}
