//! Signed objects of any kind (RFC 6488 3).

ghost use Rattle.std.specs.Prelude.{◌≡◌, ◌+◌, ◌≤◌, ℕ, IfErr, IfOk};
ghost use Rattle.std.specs.Fn.{FnOnceReturnsAt, FnOnceTakesAt};
ghost use Rattle.objects_valid.specs.certs_extension.Verified.{IsSignedAt, held_by};
ghost use Rattle.objects_valid.specs.certs_extension.declared.forms.Role.TheVariants.{DetachedEe, Ee};
ghost use Rattle.certs_verify.specs.certs_key.Digesting.{digests_of};
ghost use Rattle.certs_verify.specs.Validated.{TellsNumbers};
ghost use Rattle.objects_valid.specs.objects_payload.ObjectText.{Object};
ghost use Rattle.objects_valid.specs.Accepted.{SparesMemory, ValidatesContent, ValidatesObject};
ghost use Rattle.objects_valid.specs.Processed.{CallableIfAccepted, ProcessesObject};

use crate::kinds::SignedObject;
use crate::terms::Terms;
use crate::{caller, inspected, together};
use certs_verify::{Cert, Digester, Inspect, ResourceCert, ValidationError, Verifier};
use certs_x509::errors::{Clock, Time};
use certs_x509::signed::OctetString;
use std::alloc::Global;

/// A signed object that is validated: it is let go where it is refused. A call asks the verifier at most twice: for the
/// content, then for the certificate. `strict` refuses UTF8Strings in names. `Memory` comes only where a growth of memory
/// was refused, and only after the tests before the one that takes memory: the content's signature, or what the certificate
/// claims of resources.
pub trait ProcessObject {
    // The object.
    ghost processed: { Self → Object };

    /// The object's certificate with what it holds at a moment below the issuer, where the object is accepted; else the
    /// first test that fails, with the numbers that the issuer doesn't hold where it is one of claims. No revocation list
    /// is looked at.
    fn validate_at<D: Digester, V: Verifier>(
        self,
        alloc: Global,
        issuer: &ResourceCert,
        strict: bool,
        now: Time,
        digester: &D,
        verifier: &mut V,
    ) -> Result<ResourceCert, ValidationError>
        ensures validates { ValidatesObject
            (digests_of D.sha256_digest D.sha1_digest digester.now) (V.says verifier.old)
            strict Ee now issuer.now.holder (processed self) result }
        ensures tal { IfOk result (λ r. r.tal ≡ issuer.now.tal) }
        ensures outside { IfErr result
            (TellsNumbers (processed self).cert (held_by issuer.now.holder)) }
        ensures memory { IfErr result (SparesMemory
            (V.count verifier.old) (V.count verifier.new) (IsSignedAt (V.says verifier.old) now
            issuer.now.holder.cert (processed self).cert)) }
        ensures same { V.says verifier.new ≡ V.says verifier.old }
        ensures asked { V.count verifier.new ≤ V.count verifier.old + 2 };

    /// As `validate_at`, of an object that stands apart from a repository, whose certificate names no place of its own.
    fn validate_detached_at<D: Digester, V: Verifier>(
        self,
        alloc: Global,
        issuer: &ResourceCert,
        strict: bool,
        now: Time,
        digester: &D,
        verifier: &mut V,
    ) -> Result<ResourceCert, ValidationError>
        ensures validates { ValidatesObject
            (digests_of D.sha256_digest D.sha1_digest digester.now) (V.says verifier.old)
            strict DetachedEe now issuer.now.holder (processed self) result }
        ensures tal { IfOk result (λ r. r.tal ≡ issuer.now.tal) }
        ensures outside { IfErr result
            (TellsNumbers (processed self).cert (held_by issuer.now.holder)) }
        ensures memory { IfErr result (SparesMemory
            (V.count verifier.old) (V.count verifier.new) (IsSignedAt (V.says verifier.old) now
            issuer.now.holder.cert (processed self).cert)) }
        ensures same { V.says verifier.new ≡ V.says verifier.old }
        ensures asked { V.count verifier.new ≤ V.count verifier.old + 2 };

    /// The object's certificate with what it holds, and the content, where the object is accepted as by `validate_at` and
    /// `check_crl` doesn't refuse its certificate; else the first test that fails. `check_crl` is called once where the
    /// object is accepted, of its certificate, and else not at all; so it need be callable only then.
    fn process_at<D: Digester, V: Verifier, F: FnOnce(&Cert) -> Result<(), ValidationError> + Drop>(
        self,
        alloc: Global,
        issuer: &ResourceCert,
        strict: bool,
        now: Time,
        digester: &D,
        verifier: &mut V,
        check_crl: F,
    ) -> Result<(ResourceCert, OctetString), ValidationError>
        requires { CallableIfAccepted
            (FnOnceTakesAt F.FnOnce check_crl (processed self).cert)
            (digests_of D.sha256_digest D.sha1_digest digester.now) (V.says verifier.old)
            strict now issuer.now.holder (processed self) }
        ensures processes { ProcessesObject
            (FnOnceReturnsAt F.FnOnce check_crl (processed self).cert)
            (digests_of D.sha256_digest D.sha1_digest digester.now) (V.says verifier.old)
            strict now issuer.now.holder (processed self) result }
        ensures tal { IfOk result (λ p. p.0.tal ≡ issuer.now.tal) }
        ensures outside { IfErr result
            (TellsNumbers (processed self).cert (held_by issuer.now.holder)) }
        ensures memory { IfErr result (SparesMemory
            (V.count verifier.old) (V.count verifier.new) (IsSignedAt (V.says verifier.old) now
            issuer.now.holder.cert (processed self).cert)) }
        ensures same { V.says verifier.new ≡ V.says verifier.old }
        ensures asked { V.count verifier.new ≤ V.count verifier.old + 2 };

    /// As `validate_at`, at the moment that the clock tells, which is asked once, first.
    fn validate<C: Clock, D: Digester, V: Verifier>(
        self,
        alloc: Global,
        issuer: &ResourceCert,
        strict: bool,
        clock: &C,
        digester: &D,
        verifier: &mut V,
    ) -> Result<ResourceCert, ValidationError>
        ensures validates { (moment : ℕ) × C.tells clock.now moment × ValidatesObject
            (digests_of D.sha256_digest D.sha1_digest digester.now) (V.says verifier.old)
            strict Ee moment issuer.now.holder (processed self) result
            × IfErr result (SparesMemory (V.count verifier.old) (V.count verifier.new)
            (IsSignedAt (V.says verifier.old) moment
            issuer.now.holder.cert (processed self).cert)) }
        ensures tal { IfOk result (λ r. r.tal ≡ issuer.now.tal) }
        ensures outside { IfErr result
            (TellsNumbers (processed self).cert (held_by issuer.now.holder)) }
        ensures same { V.says verifier.new ≡ V.says verifier.old }
        ensures asked { V.count verifier.new ≤ V.count verifier.old + 2 };

    /// As `validate_detached_at`, at the moment that the clock tells, which is asked once, first.
    fn validate_detached<C: Clock, D: Digester, V: Verifier>(
        self,
        alloc: Global,
        issuer: &ResourceCert,
        strict: bool,
        clock: &C,
        digester: &D,
        verifier: &mut V,
    ) -> Result<ResourceCert, ValidationError>
        ensures validates { (moment : ℕ) × C.tells clock.now moment × ValidatesObject
            (digests_of D.sha256_digest D.sha1_digest digester.now) (V.says verifier.old)
            strict DetachedEe moment issuer.now.holder (processed self) result
            × IfErr result (SparesMemory (V.count verifier.old) (V.count verifier.new)
            (IsSignedAt (V.says verifier.old) moment
            issuer.now.holder.cert (processed self).cert)) }
        ensures tal { IfOk result (λ r. r.tal ≡ issuer.now.tal) }
        ensures outside { IfErr result
            (TellsNumbers (processed self).cert (held_by issuer.now.holder)) }
        ensures same { V.says verifier.new ≡ V.says verifier.old }
        ensures asked { V.count verifier.new ≤ V.count verifier.old + 2 };

    /// As `process_at`, at the moment that the clock tells, which is asked once, first.
    fn process<
        C: Clock,
        D: Digester,
        V: Verifier,
        F: FnOnce(&Cert) -> Result<(), ValidationError> + Drop,
    >(
        self,
        alloc: Global,
        issuer: &ResourceCert,
        strict: bool,
        clock: &C,
        digester: &D,
        verifier: &mut V,
        check_crl: F,
    ) -> Result<(ResourceCert, OctetString), ValidationError>
        requires { (moment : ℕ) → C.tells clock.now moment → CallableIfAccepted
            (FnOnceTakesAt F.FnOnce check_crl (processed self).cert)
            (digests_of D.sha256_digest D.sha1_digest digester.now) (V.says verifier.old)
            strict moment issuer.now.holder (processed self) }
        ensures processes { (moment : ℕ) × C.tells clock.now moment × ProcessesObject
            (FnOnceReturnsAt F.FnOnce check_crl (processed self).cert)
            (digests_of D.sha256_digest D.sha1_digest digester.now) (V.says verifier.old)
            strict moment issuer.now.holder (processed self) result
            × IfErr result (SparesMemory (V.count verifier.old) (V.count verifier.new)
            (IsSignedAt (V.says verifier.old) moment
            issuer.now.holder.cert (processed self).cert)) }
        ensures tal { IfOk result (λ p. p.0.tal ≡ issuer.now.tal) }
        ensures outside { IfErr result
            (TellsNumbers (processed self).cert (held_by issuer.now.holder)) }
        ensures same { V.says verifier.new ≡ V.says verifier.old }
        ensures asked { V.count verifier.new ≤ V.count verifier.old + 2 };
}

// The certificate of an object of a repository with what it holds below the issuer, and the object's content; else the
// first test that fails.
fn accepted<D: Digester, V: Verifier>(
    alloc: Global,
    signed: SignedObject,
    issuer: &ResourceCert,
    terms: &mut Terms<'_, D, V>,
) -> Result<(ResourceCert, OctetString), ValidationError>
    ensures validates { ValidatesContent
        (digests_of D.sha256_digest D.sha1_digest terms.old.digester.now)
        (V.says terms.old.verifier.now) terms.old.strict Ee terms.old.moment
        issuer.now.holder signed signed.content result }
    ensures tal { IfOk result (λ p. p.0.tal ≡ issuer.now.tal) }
    ensures outside { IfErr result (TellsNumbers signed.cert (held_by issuer.now.holder)) }
    ensures memory { IfErr result (SparesMemory
        (V.count terms.old.verifier.now) (V.count terms.new.verifier.now)
        (IsSignedAt (V.says terms.old.verifier.now) terms.old.moment
        issuer.now.holder.cert signed.cert)) }
    ensures same { V.says terms.new.verifier.now ≡ V.says terms.old.verifier.now }
    ensures lent { terms.new.verifier.ghost_name ≡ terms.old.verifier.ghost_name }
    ensures asked { V.count terms.new.verifier.now ≤ V.count terms.old.verifier.now + 2 }
{
    let form = signed.cert().inspect_ee(terms.strict, terms.digester);
    inspected::validate(alloc, signed, form, issuer, terms)
}

impl ProcessObject for SignedObject {
    ghost processed = { λ o. o };

    fn validate_at<D: Digester, V: Verifier>(
        self,
        alloc: Global,
        issuer: &ResourceCert,
        strict: bool,
        now: Time,
        digester: &D,
        verifier: &mut V,
    ) -> Result<ResourceCert, ValidationError> {
        let mut terms = Terms {
            strict,
            moment: now,
            digester,
            verifier,
        };
        let validated = accepted(alloc, self, issuer, &mut terms);
        together::part(validated)
    }

    fn validate_detached_at<D: Digester, V: Verifier>(
        self,
        alloc: Global,
        issuer: &ResourceCert,
        strict: bool,
        now: Time,
        digester: &D,
        verifier: &mut V,
    ) -> Result<ResourceCert, ValidationError> {
        let form = self.cert().inspect_detached_ee(strict, digester);
        let mut terms = Terms {
            strict,
            moment: now,
            digester,
            verifier,
        };
        let validated = inspected::validate(alloc, self, form, issuer, &mut terms);
        together::part(validated)
    }

    fn process_at<D: Digester, V: Verifier, F: FnOnce(&Cert) -> Result<(), ValidationError> + Drop>(
        self,
        alloc: Global,
        issuer: &ResourceCert,
        strict: bool,
        now: Time,
        digester: &D,
        verifier: &mut V,
        check_crl: F,
    ) -> Result<(ResourceCert, OctetString), ValidationError> {
        let mut terms = Terms {
            strict,
            moment: now,
            digester,
            verifier,
        };
        match accepted(alloc, self, issuer, &mut terms) {
            Ok((holder, content)) => {
                let tested = caller::ask(check_crl, holder.as_cert());
                together::join_if(holder, content, tested)
            }
            Err(error) => Err(error),
        }
    }

    fn validate<C: Clock, D: Digester, V: Verifier>(
        self,
        alloc: Global,
        issuer: &ResourceCert,
        strict: bool,
        clock: &C,
        digester: &D,
        verifier: &mut V,
    ) -> Result<ResourceCert, ValidationError> {
        let now = clock.now();
        self.validate_at(alloc, issuer, strict, now, digester, verifier)
    }

    fn validate_detached<C: Clock, D: Digester, V: Verifier>(
        self,
        alloc: Global,
        issuer: &ResourceCert,
        strict: bool,
        clock: &C,
        digester: &D,
        verifier: &mut V,
    ) -> Result<ResourceCert, ValidationError> {
        let now = clock.now();
        self.validate_detached_at(alloc, issuer, strict, now, digester, verifier)
    }

    fn process<
        C: Clock,
        D: Digester,
        V: Verifier,
        F: FnOnce(&Cert) -> Result<(), ValidationError> + Drop,
    >(
        self,
        alloc: Global,
        issuer: &ResourceCert,
        strict: bool,
        clock: &C,
        digester: &D,
        verifier: &mut V,
        check_crl: F,
    ) -> Result<(ResourceCert, OctetString), ValidationError> {
        let now = clock.now();
        self.process_at(alloc, issuer, strict, now, digester, verifier, check_crl)
    }
}
