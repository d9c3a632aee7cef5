//! What is attested, and what is tested of it after its object (RFC 9582 5, draft-ietf-sidrops-aspa-profile 4, RFC 9323 5).

ghost use Rattle.std.specs.Fn.{FnOnceReturnsAt, FnOnceTakesAt};
ghost use Rattle.std.specs.Prelude.{IfErr};
ghost use Rattle.certs_verify.specs.certs_key.Digesting.{digests_of};
ghost use Rattle.certs_verify.specs.Validated.{Inspects, TellsNumbers};
ghost use Rattle.objects_valid.specs.certs_extension.Cert.{CertValue};
ghost use Rattle.objects_valid.specs.certs_extension.Verified.{HolderValue, held_by};
ghost use Rattle.objects_valid.specs.certs_extension.declared.forms.Role.{Role};
ghost use Rattle.objects_valid.specs.Processed.{Answers, Failing, Passing, Test};

use crate::kinds::SignedContent;
use certs_verify::{Cert, Digester, InspectionError, ResourceCert, ValidationError};
use std::alloc::Global;

/// A content by which resources are attested that the object's certificate must hold.
pub trait Attested: SignedContent {
    // The role of the object's certificate; what is tested before a caller's test is asked; which tests pass after the
    // object's own, the caller's among them; and which of them fails first.
    ghost role: { Role };

    ghost before: { Self → Passing };

    ghost passes: { Test → Self → Passing };

    ghost fails: { Test → Self → Failing };

    /// Whether the certificate's form is that of its role, and else the first test that fails.
    fn inspect<D: Digester>(cert: &Cert, strict: bool, digester: &D) -> Result<(), InspectionError>
        ensures { Inspects (digests_of D.sha256_digest D.sha1_digest digester.now) strict role
            cert.now result };

    /// Whether the caller's test passes and what is attested is held by the certificate, and else the first of these
    /// tests that fails. The caller's test is asked once at most, where the tests before it pass.
    fn test<F: FnOnce(&Cert) -> Result<(), ValidationError> + Drop>(
        &self,
        alloc: Global,
        holder: &ResourceCert,
        check_crl: F,
    ) -> Result<(), ValidationError>
        requires { before self.now holder.now.holder
            → FnOnceTakesAt F.FnOnce check_crl holder.now.holder.cert }
        ensures answers { Answers
            (passes (FnOnceReturnsAt F.FnOnce check_crl holder.now.holder.cert) self.now)
            (fails (FnOnceReturnsAt F.FnOnce check_crl holder.now.holder.cert) self.now)
            holder.now.holder result }
        ensures outside { (c : CertValue) (issuer : HolderValue)
            → IfErr result (TellsNumbers c (held_by issuer)) };
}
