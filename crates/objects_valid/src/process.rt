//! Which objects that attest something are accepted below an issuer.

ghost use Rattle.std.specs.Prelude.{◌≡◌, ◌+◌, ◌≤◌, ℕ, IfErr, IfOk};
ghost use Rattle.std.specs.Fn.{FnOnceReturnsAt, FnOnceTakesAt};
ghost use Rattle.certs_verify.specs.certs_key.Digesting.{digests_of};
ghost use Rattle.certs_verify.specs.Validated.{TellsNumbers};
ghost use Rattle.objects_valid.specs.certs_extension.Verified.{IsSignedAt, held_by};
ghost use Rattle.objects_valid.specs.Accepted.{SparesMemory, ValidatesObject};
ghost use Rattle.objects_valid.specs.Processed.{CallableAfter, ProcessesKind};

use crate::attested::Attested;
use crate::kinds::{Signed, SignedObject};
use crate::terms::Terms;
use crate::{inspected, together};
use certs_verify::{Cert, Digester, ResourceCert, ValidationError, Verifier};
use certs_x509::errors::{Clock, Time};
use std::alloc::Global;

// The certificate of an object of that kind with what it holds below the issuer; else the first test that fails.
fn accepted<T: Attested, D: Digester, V: Verifier>(
    alloc: Global,
    signed: SignedObject,
    issuer: &ResourceCert,
    terms: &mut Terms<'_, D, V>,
) -> Result<ResourceCert, ValidationError>
    ensures validates { ValidatesObject
        (digests_of D.sha256_digest D.sha1_digest terms.old.digester.now)
        (V.says terms.old.verifier.now) terms.old.strict T.role terms.old.moment
        issuer.now.holder signed result }
    ensures tal { IfOk result (λ r. r.tal ≡ issuer.now.tal) }
    ensures outside { IfErr result (TellsNumbers signed.cert (held_by issuer.now.holder)) }
    ensures memory { IfErr result (SparesMemory
        (V.count terms.old.verifier.now) (V.count terms.new.verifier.now)
        (IsSignedAt (V.says terms.old.verifier.now) terms.old.moment
        issuer.now.holder.cert signed.cert)) }
    ensures same { V.says terms.new.verifier.now ≡ V.says terms.old.verifier.now }
    ensures lent { terms.new.verifier.ghost_name ≡ terms.old.verifier.ghost_name }
    ensures asked { V.count terms.new.verifier.now ≤ V.count terms.old.verifier.now + 2 }
{
    let form = T::inspect(signed.cert(), terms.strict, terms.digester);
    let validated = inspected::validate(alloc, signed, form, issuer, terms);
    together::part(validated)
}

/// What is processed is let go where it is refused. A call asks the verifier at most twice: for the content, then for the
/// certificate. `strict` refuses UTF8Strings in names. `Memory` comes only where a growth of memory was refused, here or in
/// `check_crl`, and only after the tests before the one that takes memory: the content's signature, what the certificate
/// claims of resources, or `check_crl`.
impl<T: Attested> Signed<T> {
    /// The certificate with what it holds at a moment below the issuer, and what is attested, where the object is accepted,
    /// `check_crl` doesn't refuse its certificate, and what is attested is held by that (RFC 9582 5,
    /// draft-ietf-sidrops-aspa-profile 4); else the first test that fails, in the order of that kind of object.
    /// `check_crl` is called once at most, of the certificate of an accepted object; so it need be callable only then, and
    /// for a provider attestation only where its customer is held.
    pub fn process_at<
        D: Digester,
        V: Verifier,
        F: FnOnce(&Cert) -> Result<(), ValidationError> + Drop,
    >(
        self,
        alloc: Global,
        issuer: &ResourceCert,
        strict: bool,
        now: Time,
        digester: &D,
        verifier: &mut V,
        check_crl: F,
    ) -> Result<(ResourceCert, T), ValidationError>
        requires { CallableAfter T.role (T.before self.content)
            (FnOnceTakesAt F.FnOnce check_crl self.signed.cert)
            (digests_of D.sha256_digest D.sha1_digest digester.now) (V.says verifier.old)
            strict now issuer.now.holder self.signed }
        ensures processes { ProcessesKind T.role T.passes T.fails
            (FnOnceReturnsAt F.FnOnce check_crl self.signed.cert)
            (digests_of D.sha256_digest D.sha1_digest digester.now) (V.says verifier.old)
            strict now issuer.now.holder self result }
        ensures tal { IfOk result (λ p. p.0.tal ≡ issuer.now.tal) }
        ensures outside { IfErr result
            (TellsNumbers self.signed.cert (held_by issuer.now.holder)) }
        ensures memory { IfErr result (SparesMemory
            (V.count verifier.old) (V.count verifier.new) (IsSignedAt (V.says verifier.old) now
            issuer.now.holder.cert self.signed.cert)) }
        ensures same { V.says verifier.new ≡ V.says verifier.old }
        ensures asked { V.count verifier.new ≤ V.count verifier.old + 2 }
    {
        let (signed, content) = self.into_parts();
        let mut terms = Terms {
            strict,
            moment: now,
            digester,
            verifier,
        };
        match accepted::<T, D, V>(alloc, signed, issuer, &mut terms) {
            Ok(holder) => {
                let tested = content.test(alloc, &holder, check_crl);
                together::join_if(holder, content, tested)
            }
            Err(error) => {
                drop(content);
                Err(error)
            }
        }
    }

    /// As `process_at`, at the moment that the clock tells, which is asked once, first.
    pub fn process<
        C: Clock,
        D: Digester,
        V: Verifier,
        F: FnOnce(&Cert) -> Result<(), ValidationError> + Drop,
    >(
        self,
        alloc: Global,
        issuer: &ResourceCert,
        strict: bool,
        clock: &C,
        digester: &D,
        verifier: &mut V,
        check_crl: F,
    ) -> Result<(ResourceCert, T), ValidationError>
        requires { (moment : ℕ) → C.tells clock.now moment
            → CallableAfter T.role (T.before self.content)
            (FnOnceTakesAt F.FnOnce check_crl self.signed.cert)
            (digests_of D.sha256_digest D.sha1_digest digester.now) (V.says verifier.old)
            strict moment issuer.now.holder self.signed }
        ensures processes { (moment : ℕ) × C.tells clock.now moment
            × ProcessesKind T.role T.passes T.fails
            (FnOnceReturnsAt F.FnOnce check_crl self.signed.cert)
            (digests_of D.sha256_digest D.sha1_digest digester.now) (V.says verifier.old)
            strict moment issuer.now.holder self result
            × IfErr result (SparesMemory (V.count verifier.old) (V.count verifier.new)
            (IsSignedAt (V.says verifier.old) moment issuer.now.holder.cert self.signed.cert)) }
        ensures tal { IfOk result (λ p. p.0.tal ≡ issuer.now.tal) }
        ensures outside { IfErr result
            (TellsNumbers self.signed.cert (held_by issuer.now.holder)) }
        ensures same { V.says verifier.new ≡ V.says verifier.old }
        ensures asked { V.count verifier.new ≤ V.count verifier.old + 2 }
    {
        let now = clock.now();
        self.process_at(alloc, issuer, strict, now, digester, verifier, check_crl)
    }
}
