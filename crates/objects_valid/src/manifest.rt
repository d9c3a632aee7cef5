//! Manifests (RFC 9286 6).

ghost use Rattle.std.specs.Prelude.{◌≡◌, ◌+◌, ◌≤◌, ℕ, IfErr, IfOk};
ghost use Rattle.objects_valid.specs.certs_extension.Verified.{IsSignedAt, held_by};
ghost use Rattle.objects_valid.specs.certs_extension.declared.forms.Role.TheVariants.{Ee};
ghost use Rattle.certs_verify.specs.certs_key.Digesting.{digests_of};
ghost use Rattle.certs_verify.specs.Validated.{TellsNumbers};
ghost use Rattle.objects_valid.specs.Accepted.{SparesMemory, ValidatesContent};

use crate::kinds::{Manifest, ManifestContent};
use crate::object::ProcessObject;
use crate::together::join;
use certs_verify::{Digester, ResourceCert, ValidationError, Verifier};
use certs_x509::errors::{Clock, Time};
use std::alloc::Global;

/// A manifest that is validated: it is let go where it is refused. A call asks the verifier at most twice: for the content,
/// then for the certificate. `strict` refuses UTF8Strings in names. `Memory` comes only where a growth of memory was
/// refused, and only after the tests before the one that takes memory: the content's signature, or what the certificate
/// claims of resources. Neither its updates nor the files that it lists are looked at, and no revocation list.
impl Manifest {
    /// The manifest's certificate with what it holds at a moment below the issuer, and what the manifest says, where its
    /// object is accepted; else the first test that fails.
    pub fn validate_at<D: Digester, V: Verifier>(
        self,
        alloc: Global,
        issuer: &ResourceCert,
        strict: bool,
        now: Time,
        digester: &D,
        verifier: &mut V,
    ) -> Result<(ResourceCert, ManifestContent), ValidationError>
        ensures validates { ValidatesContent
            (digests_of D.sha256_digest D.sha1_digest digester.now) (V.says verifier.old)
            strict Ee now issuer.now.holder self.signed self.content result }
        ensures tal { IfOk result (λ p. p.0.tal ≡ issuer.now.tal) }
        ensures outside { IfErr result
            (TellsNumbers self.signed.cert (held_by issuer.now.holder)) }
        ensures memory { IfErr result (SparesMemory
            (V.count verifier.old) (V.count verifier.new) (IsSignedAt (V.says verifier.old) now
            issuer.now.holder.cert self.signed.cert)) }
        ensures same { V.says verifier.new ≡ V.says verifier.old }
        ensures asked { V.count verifier.new ≤ V.count verifier.old + 2 }
    {
        let (signed, content) = self.into_parts();
        let validated = signed.validate_at(alloc, issuer, strict, now, digester, verifier);
        join(content, validated)
    }

    /// As `validate_at`, at the moment that the clock tells, which is asked once, first.
    pub fn validate<C: Clock, D: Digester, V: Verifier>(
        self,
        alloc: Global,
        issuer: &ResourceCert,
        strict: bool,
        clock: &C,
        digester: &D,
        verifier: &mut V,
    ) -> Result<(ResourceCert, ManifestContent), ValidationError>
        ensures validates { (moment : ℕ) × C.tells clock.now moment × ValidatesContent
            (digests_of D.sha256_digest D.sha1_digest digester.now) (V.says verifier.old)
            strict Ee moment issuer.now.holder
            self.signed self.content result
            × IfErr result (SparesMemory (V.count verifier.old) (V.count verifier.new)
            (IsSignedAt (V.says verifier.old) moment
            issuer.now.holder.cert self.signed.cert)) }
        ensures tal { IfOk result (λ p. p.0.tal ≡ issuer.now.tal) }
        ensures outside { IfErr result
            (TellsNumbers self.signed.cert (held_by issuer.now.holder)) }
        ensures same { V.says verifier.new ≡ V.says verifier.old }
        ensures asked { V.count verifier.new ≤ V.count verifier.old + 2 }
    {
        let now = clock.now();
        self.validate_at(alloc, issuer, strict, now, digester, verifier)
    }
}
