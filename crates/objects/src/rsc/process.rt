//! Which checklists are accepted below an issuer (RFC 9323 5).
//!
//! What differs from the Rust crate: the verifier, the digester and the clock are handed in, and `process_at` is given the
//! moment; what takes memory is given an allocator, and lack of memory is an error of its own; whatever a caller's test
//! refuses with is reported as one error, but for lack of memory.

ghost use Rattle.std.specs.Prelude.{◌↔◌, IsTrue};
ghost use Rattle.objects_valid.specs.certs_extension.declared.forms.Role.TheVariants.{DetachedEe};
ghost use Rattle.objects_valid.specs.Processed.{before_none};
ghost use Rattle.objects.specs.ProcessedChecklists.{CoversChecklist, FailsChecklist, PassesChecklist};

use crate::rsc::checklist::ResourceSignedChecklist;
use certs::cert::Inspect;
use objects_valid::{
    Attested, Cert, Digester, InspectionError, ResourceCert, ValidationError, VerificationError,
    caller,
};
use std::alloc::Global;

// Whether all that is stated is held by the certificate.
fn covers(alloc: Global, holder: &ResourceCert, content: &ResourceSignedChecklist) -> bool
    ensures { IsTrue result ↔ CoversChecklist content.now holder.now.holder }
{
    content.resources().is_covered(
        alloc,
        holder.as_resources(),
        holder.v4_resources(),
        holder.v6_resources(),
    )
}

// By the role of a certificate that names no place of its own (RFC 9323 2).
impl Attested for ResourceSignedChecklist {
    ghost role = { DetachedEe };

    ghost before = { before_none };

    ghost passes = { PassesChecklist };

    ghost fails = { FailsChecklist };

    fn inspect<D: Digester>(
        cert: &Cert,
        strict: bool,
        digester: &D,
    ) -> Result<(), InspectionError> {
        cert.inspect_detached_ee(strict, digester)
    }

    // The caller's test, then what is stated.
    fn test<F: FnOnce(&Cert) -> Result<(), ValidationError> + Drop>(
        &self,
        alloc: Global,
        holder: &ResourceCert,
        check_crl: F,
    ) -> Result<(), ValidationError> {
        match caller::ask(check_crl, holder.as_cert()) {
            Ok(()) => {
                if covers(alloc, holder, self) {
                    Ok(())
                } else {
                    Err(ValidationError::Verification(VerificationError::Uncovered))
                }
            }
            Err(error) => Err(error),
        }
    }
}
