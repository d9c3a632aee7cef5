//! Provider attestations (draft-ietf-sidrops-aspa-profile 4).

ghost use Rattle.std.specs.Prelude.{◌↔◌, IsTrue};
ghost use Rattle.objects_valid.specs.Processed.{CoversAspa, FailsAspa, PassesAspa};
ghost use Rattle.objects_valid.specs.certs_extension.declared.forms.Role.TheVariants.{Ee};

use crate::attested::Attested;
use crate::caller;
use crate::kinds::{AsProviderAttestation, covers_aspa};
use certs_verify::{
    Cert, Digester, Inspect, InspectionError, ResourceCert, ValidationError, VerificationError,
};
use std::alloc::Global;

// Whether the customer is held by the certificate.
fn covers(holder: &ResourceCert, content: &AsProviderAttestation) -> bool
    ensures { IsTrue result ↔ CoversAspa content.now holder.now.holder }
{
    covers_aspa(content, holder.as_resources())
}

impl Attested for AsProviderAttestation {
    ghost role = { Ee };

    ghost before = { CoversAspa };

    ghost passes = { PassesAspa };

    ghost fails = { FailsAspa };

    fn inspect<D: Digester>(
        cert: &Cert,
        strict: bool,
        digester: &D,
    ) -> Result<(), InspectionError> {
        cert.inspect_ee(strict, digester)
    }

    // The customer, then the caller's test.
    fn test<F: FnOnce(&Cert) -> Result<(), ValidationError> + Drop>(
        &self,
        _alloc: Global,
        holder: &ResourceCert,
        check_crl: F,
    ) -> Result<(), ValidationError> {
        if covers(holder, self) {
            caller::ask(check_crl, holder.as_cert())
        } else {
            Err(ValidationError::Verification(VerificationError::Uncovered))
        }
    }
}
