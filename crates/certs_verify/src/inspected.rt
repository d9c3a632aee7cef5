//! Verification after an inspection.

ghost use Rattle.std.specs.Prelude.{◌≡◌, Bool, IfErr, IfOk};
ghost use Rattle.certs_x509.specs.declared.errors.validation.ValidationError.TheVariants.{Verification};
ghost use Rattle.certs_verify.specs.certs_extension.Calls.{ValidatesAnchor, ValidatesIssued};
ghost use Rattle.certs_verify.specs.certs_extension.Verified.{IsAnchorAt, IsSignedAt, held_by};
ghost use Rattle.certs_verify.specs.certs_extension.declared.forms.Role.{Role};
ghost use Rattle.certs_verify.specs.certs_extension.declared.forms.Role.TheVariants.{Router, Ta};
ghost use Rattle.certs_verify.specs.certs_basics.HandedIn.{Digests};
ghost use Rattle.certs_verify.specs.Answers.{AsksOnce};
ghost use Rattle.certs_verify.specs.Validated.{Inspects, MemoryAfterForm, MeetsValid, TellsNumbers, ValidatesRouter};

use crate::holder::ResourceCert;
use crate::inspect::Cert;
use crate::refused::Refused;
use crate::{anchor, below};
use certs_basics::time::Time;
use certs_x509::{InspectionError, TalInfo, ValidationError, VerificationError, Verifier};
use std::alloc::Global;
use std::rc::Rc;

// The refusal, as one of a validation.
fn as_validation(refused: Refused<VerificationError>) -> Refused<ValidationError>
    ensures cert { result.cert ≡ refused.cert }
    ensures error { result.error ≡ Verification refused.error }
{
    let Refused { cert, error } = refused;
    let error = ValidationError::Verification(error);
    Refused { cert, error }
}

/// The certificate as an anchor, where it was inspected as such.
pub(crate) fn validate_anchor<V: Verifier>(
    cert: Cert,
    inspected: Result<(), InspectionError>,
    tal: Rc<TalInfo>,
    now: Time,
    verifier: &mut V,
) -> Result<ResourceCert, Refused<ValidationError>>
    ensures validates { (d : Digests) (strict : Bool) → Inspects d strict Ta cert inspected
        → MeetsValid (ValidatesAnchor d (V.says verifier.old) strict now cert) result }
    ensures tal { IfOk result (λ r. r.tal ≡ tal.value) }
    ensures memory { (d : Digests) (strict : Bool) → Inspects d strict Ta cert inspected
        → IfErr result (λ r. MemoryAfterForm d strict Ta cert
        (IsAnchorAt (V.says verifier.old) now cert) r.error) }
    ensures same { V.says verifier.new ≡ V.says verifier.old }
    ensures asked { AsksOnce (V.count verifier.old) (V.count verifier.new) }
{
    if let Err(test) = inspected {
        let error = ValidationError::Inspection(test);
        return Err(Refused { cert, error });
    }
    match anchor::verify_anchor(cert, tal, now, verifier) {
        Ok(verified) => Ok(verified),
        Err(refused) => Err(as_validation(refused)),
    }
}

/// The certificate below that issuer, where it was inspected as one of its role.
pub(crate) fn validate_issued<V: Verifier>(
    alloc: Global,
    cert: Cert,
    inspected: Result<(), InspectionError>,
    issuer: &ResourceCert,
    now: Time,
    verifier: &mut V,
) -> Result<ResourceCert, Refused<ValidationError>>
    ensures validates { (d : Digests) (strict : Bool) (role : Role)
        → Inspects d strict role cert inspected → MeetsValid
        (ValidatesIssued d (V.says verifier.old) strict role now issuer.now.holder cert) result }
    ensures tal { IfOk result (λ r. r.tal ≡ issuer.now.tal) }
    ensures outside { IfErr result (λ r.
        TellsNumbers cert (held_by issuer.now.holder) r.error) }
    ensures memory { (d : Digests) (strict : Bool) (role : Role)
        → Inspects d strict role cert inspected → IfErr result (λ r.
        MemoryAfterForm d strict role cert
        (IsSignedAt (V.says verifier.old) now issuer.now.holder.cert cert) r.error) }
    ensures same { V.says verifier.new ≡ V.says verifier.old }
    ensures asked { AsksOnce (V.count verifier.old) (V.count verifier.new) }
{
    if let Err(test) = inspected {
        let error = ValidationError::Inspection(test);
        return Err(Refused { cert, error });
    }
    match below::verify_issued(alloc, cert, issuer, now, verifier) {
        Ok(verified) => Ok(verified),
        Err(refused) => Err(as_validation(refused)),
    }
}

/// Whether the certificate is one of a router below that issuer, where it was inspected as such.
pub(crate) fn validate_router<V: Verifier>(
    alloc: Global,
    cert: &Cert,
    inspected: Result<(), InspectionError>,
    issuer: &ResourceCert,
    now: Time,
    verifier: &mut V,
) -> Result<(), ValidationError>
    ensures validates { (d : Digests) (strict : Bool) → Inspects d strict Router cert.now inspected
        → ValidatesRouter d (V.says verifier.old) strict now issuer.now.holder cert.now result }
    ensures outside { IfErr result (TellsNumbers cert.now (held_by issuer.now.holder)) }
    ensures memory { (d : Digests) (strict : Bool) → Inspects d strict Router cert.now inspected
        → IfErr result (MemoryAfterForm d strict Router cert.now
        (IsSignedAt (V.says verifier.old) now issuer.now.holder.cert cert.now)) }
    ensures same { V.says verifier.new ≡ V.says verifier.old }
    ensures asked { AsksOnce (V.count verifier.old) (V.count verifier.new) }
{
    if let Err(test) = inspected {
        return Err(ValidationError::Inspection(test));
    }
    match below::verify_router(alloc, cert, issuer, now, verifier) {
        Ok(()) => Ok(()),
        Err(error) => Err(ValidationError::Verification(error)),
    }
}
