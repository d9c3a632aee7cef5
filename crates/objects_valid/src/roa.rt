//! Route origin attestations (RFC 9582 5).

ghost use Rattle.std.specs.Prelude.{◌≡◌, ◌↔◌, IsTrue, Some, codes};
ghost use Rattle.objects_valid.specs.Processed.{CoversRoa, FailsRoa, PassesRoa, before_none};
ghost use Rattle.objects_valid.specs.certs_extension.declared.forms.Role.TheVariants.{Ee};

use crate::attested::Attested;
use crate::caller;
use crate::kinds::{RouteOriginAttestation, covers_roa};
use certs_verify::{
    Cert, Digester, Inspect, InspectionError, ResourceCert, ValidationError, VerificationError,
};
use std::alloc::Global;
use std::error::Error;
use std::fmt;

/// A prefix that is attested isn't held by the certificate (RFC 9582 5).
#[derive(Clone, Copy, Debug, PartialEq, Eq, Hash)]
pub struct UncoveredPrefix;

impl fmt::Display for UncoveredPrefix {
    ghost output = { λ _. Some (codes "prefix not covered by certificate") };

    fn fmt<W: fmt::Write>(&self, f: &mut fmt::Formatter<W>) -> fmt::Result {
        write!(f, "prefix not covered by certificate")
    }
}

impl Error for UncoveredPrefix {}

impl From<UncoveredPrefix> for VerificationError {
    ghost use Rattle.certs_verify.specs.certs_x509.declared.errors.verification.VerificationError.TheVariants.{Uncovered};

    ghost from_gives = { λ cause e. e ≡ Uncovered };

    fn from(_: UncoveredPrefix) -> Self {
        VerificationError::Uncovered
    }
}

// Whether all prefixes are held by the certificate.
fn covers(holder: &ResourceCert, content: &RouteOriginAttestation) -> bool
    ensures { IsTrue result ↔ CoversRoa content.now holder.now.holder }
{
    covers_roa(content, holder.v4_resources(), holder.v6_resources())
}

impl Attested for RouteOriginAttestation {
    ghost role = { Ee };

    ghost before = { before_none };

    ghost passes = { PassesRoa };

    ghost fails = { FailsRoa };

    fn inspect<D: Digester>(
        cert: &Cert,
        strict: bool,
        digester: &D,
    ) -> Result<(), InspectionError> {
        cert.inspect_ee(strict, digester)
    }

    // The caller's test, then the prefixes (RFC 9582 5).
    fn test<F: FnOnce(&Cert) -> Result<(), ValidationError> + Drop>(
        &self,
        _alloc: Global,
        holder: &ResourceCert,
        check_crl: F,
    ) -> Result<(), ValidationError> {
        match caller::ask(check_crl, holder.as_cert()) {
            Ok(()) => {
                if covers(holder, self) {
                    Ok(())
                } else {
                    let error = VerificationError::from(UncoveredPrefix);
                    Err(ValidationError::Verification(error))
                }
            }
            Err(error) => Err(error),
        }
    }
}
