//! The calls that validate a certificate: its form, then what is vouched for.

ghost use Rattle.std.specs.Prelude.{◌≡◌, ℕ, IfErr, IfOk};
ghost use Rattle.certs_verify.specs.certs_extension.Calls.{ValidatesAnchor, ValidatesIssued};
ghost use Rattle.certs_verify.specs.certs_extension.Cert.{CertValue};
ghost use Rattle.certs_verify.specs.certs_extension.Verified.{IsAnchorAt, IsSignedAt, held_by};
ghost use Rattle.certs_verify.specs.certs_extension.declared.forms.Role.TheVariants.{Ca, DetachedEe, Ee, Router, Ta};
ghost use Rattle.certs_verify.specs.certs_key.Digesting.{digests_of};
ghost use Rattle.certs_verify.specs.Answers.{AsksOnce};
ghost use Rattle.certs_verify.specs.Validated.{MeetsValid, MemoryAfterForm, TellsNumbers, ValidatesRouter};

use crate::holder::ResourceCert;
use crate::inspect::{Cert, Inspect};
use crate::inspected;
use crate::refused::Refused;
use certs_basics::time::{Clock, Time};
use certs_x509::{Digester, TalInfo, ValidationError, Verifier};
use std::alloc::Global;
use std::rc::Rc;

/// What is validated: inspected as one of its role, then verified as one of its kind. No revocation list is looked at. A
/// call asks the verifier once or not at all. `Memory` comes only where a growth of memory was refused, or a count of
/// copies is full, and only after the tests that take none: those of the form, then of an anchor all, and below an issuer
/// those of the moment, of the claim to the issuer and of the signature.
///
/// A call that takes the certificate hands it back where it refuses. `strict` refuses UTF8Strings in names, but for the
/// subject of a router's certificate.
pub trait Validate {
    // The certificate.
    ghost validated: { Self → CertValue };

    /// The certificate as a trust anchor, with what it lists; else the first test that fails. `tal` is what the locator
    /// is called by which it was found.
    fn validate_ta_at<D: Digester, V: Verifier>(
        self,
        tal: Rc<TalInfo>,
        strict: bool,
        now: Time,
        digester: &D,
        verifier: &mut V,
    ) -> Result<ResourceCert, Refused<ValidationError>>
        ensures validates { MeetsValid (ValidatesAnchor
            (digests_of D.sha256_digest D.sha1_digest digester.now) (V.says verifier.old)
            strict now (validated self)) result }
        ensures memory { IfErr result (λ r. MemoryAfterForm
            (digests_of D.sha256_digest D.sha1_digest digester.now) strict Ta (validated self)
            (IsAnchorAt (V.says verifier.old) now (validated self)) r.error) }
        ensures tal { IfOk result (λ r. r.tal ≡ tal.value) }
        ensures same { V.says verifier.new ≡ V.says verifier.old }
        ensures asked { AsksOnce (V.count verifier.old) (V.count verifier.new) };

    /// The certificate of an authority below the issuer, with what it then holds; else the first test that fails, with
    /// the numbers that the issuer doesn't hold where it is one of claims.
    fn validate_ca_at<D: Digester, V: Verifier>(
        self,
        alloc: Global,
        issuer: &ResourceCert,
        strict: bool,
        now: Time,
        digester: &D,
        verifier: &mut V,
    ) -> Result<ResourceCert, Refused<ValidationError>>
        ensures validates { MeetsValid (ValidatesIssued
            (digests_of D.sha256_digest D.sha1_digest digester.now) (V.says verifier.old)
            strict Ca now issuer.now.holder (validated self)) result }
        ensures memory { IfErr result (λ r. MemoryAfterForm
            (digests_of D.sha256_digest D.sha1_digest digester.now) strict Ca (validated self)
            (IsSignedAt (V.says verifier.old) now issuer.now.holder.cert (validated self))
            r.error) }
        ensures tal { IfOk result (λ r. r.tal ≡ issuer.now.tal) }
        ensures outside { IfErr result (λ r.
            TellsNumbers (validated self) (held_by issuer.now.holder) r.error) }
        ensures same { V.says verifier.new ≡ V.says verifier.old }
        ensures asked { AsksOnce (V.count verifier.old) (V.count verifier.new) };

    /// The certificate of a published object below the issuer, with what it then holds; else the first test that fails.
    fn validate_ee_at<D: Digester, V: Verifier>(
        self,
        alloc: Global,
        issuer: &ResourceCert,
        strict: bool,
        now: Time,
        digester: &D,
        verifier: &mut V,
    ) -> Result<ResourceCert, Refused<ValidationError>>
        ensures validates { MeetsValid (ValidatesIssued
            (digests_of D.sha256_digest D.sha1_digest digester.now) (V.says verifier.old)
            strict Ee now issuer.now.holder (validated self)) result }
        ensures memory { IfErr result (λ r. MemoryAfterForm
            (digests_of D.sha256_digest D.sha1_digest digester.now) strict Ee (validated self)
            (IsSignedAt (V.says verifier.old) now issuer.now.holder.cert (validated self))
            r.error) }
        ensures tal { IfOk result (λ r. r.tal ≡ issuer.now.tal) }
        ensures outside { IfErr result (λ r.
            TellsNumbers (validated self) (held_by issuer.now.holder) r.error) }
        ensures same { V.says verifier.new ≡ V.says verifier.old }
        ensures asked { AsksOnce (V.count verifier.old) (V.count verifier.new) };

    /// The certificate of an object that stands apart, below the issuer, with what it then holds; else the first test
    /// that fails.
    fn validate_detached_ee_at<D: Digester, V: Verifier>(
        self,
        alloc: Global,
        issuer: &ResourceCert,
        strict: bool,
        now: Time,
        digester: &D,
        verifier: &mut V,
    ) -> Result<ResourceCert, Refused<ValidationError>>
        ensures validates { MeetsValid (ValidatesIssued
            (digests_of D.sha256_digest D.sha1_digest digester.now) (V.says verifier.old)
            strict DetachedEe now issuer.now.holder (validated self)) result }
        ensures memory { IfErr result (λ r. MemoryAfterForm
            (digests_of D.sha256_digest D.sha1_digest digester.now) strict DetachedEe
            (validated self)
            (IsSignedAt (V.says verifier.old) now issuer.now.holder.cert (validated self))
            r.error) }
        ensures tal { IfOk result (λ r. r.tal ≡ issuer.now.tal) }
        ensures outside { IfErr result (λ r.
            TellsNumbers (validated self) (held_by issuer.now.holder) r.error) }
        ensures same { V.says verifier.new ≡ V.says verifier.old }
        ensures asked { AsksOnce (V.count verifier.old) (V.count verifier.new) };

    /// Whether the certificate is one of a router below the issuer, of which AS numbers alone are claimed; else the first
    /// test that fails.
    fn validate_router_at<D: Digester, V: Verifier>(
        &self,
        alloc: Global,
        issuer: &ResourceCert,
        strict: bool,
        now: Time,
        digester: &D,
        verifier: &mut V,
    ) -> Result<(), ValidationError>
        ensures validates { ValidatesRouter
            (digests_of D.sha256_digest D.sha1_digest digester.now) (V.says verifier.old)
            strict now issuer.now.holder (validated self.now) result }
        ensures memory { IfErr result (MemoryAfterForm
            (digests_of D.sha256_digest D.sha1_digest digester.now) strict Router
            (validated self.now)
            (IsSignedAt (V.says verifier.old) now issuer.now.holder.cert (validated self.now))) }
        ensures outside { IfErr result
            (TellsNumbers (validated self.now) (held_by issuer.now.holder)) }
        ensures same { V.says verifier.new ≡ V.says verifier.old }
        ensures asked { AsksOnce (V.count verifier.old) (V.count verifier.new) };

    /// As `validate_ta_at`, at the moment that the clock tells, which is asked once, first.
    fn validate_ta<C: Clock, D: Digester, V: Verifier>(
        self,
        tal: Rc<TalInfo>,
        strict: bool,
        clock: &C,
        digester: &D,
        verifier: &mut V,
    ) -> Result<ResourceCert, Refused<ValidationError>>
        ensures validates { (moment : ℕ) × C.tells clock.now moment × MeetsValid (ValidatesAnchor
            (digests_of D.sha256_digest D.sha1_digest digester.now) (V.says verifier.old)
            strict moment (validated self)) result
            × IfErr result (λ r. MemoryAfterForm
            (digests_of D.sha256_digest D.sha1_digest digester.now) strict Ta (validated self)
            (IsAnchorAt (V.says verifier.old) moment (validated self)) r.error) }
        ensures tal { IfOk result (λ r. r.tal ≡ tal.value) }
        ensures same { V.says verifier.new ≡ V.says verifier.old }
        ensures asked { AsksOnce (V.count verifier.old) (V.count verifier.new) };

    /// As `validate_ca_at`, at the moment that the clock tells, which is asked once, first.
    fn validate_ca<C: Clock, D: Digester, V: Verifier>(
        self,
        alloc: Global,
        issuer: &ResourceCert,
        strict: bool,
        clock: &C,
        digester: &D,
        verifier: &mut V,
    ) -> Result<ResourceCert, Refused<ValidationError>>
        ensures validates { (moment : ℕ) × C.tells clock.now moment × MeetsValid (ValidatesIssued
            (digests_of D.sha256_digest D.sha1_digest digester.now) (V.says verifier.old)
            strict Ca moment issuer.now.holder (validated self)) result
            × IfErr result (λ r. MemoryAfterForm
            (digests_of D.sha256_digest D.sha1_digest digester.now) strict Ca (validated self)
            (IsSignedAt (V.says verifier.old) moment issuer.now.holder.cert (validated self))
            r.error) }
        ensures tal { IfOk result (λ r. r.tal ≡ issuer.now.tal) }
        ensures outside { IfErr result (λ r.
            TellsNumbers (validated self) (held_by issuer.now.holder) r.error) }
        ensures same { V.says verifier.new ≡ V.says verifier.old }
        ensures asked { AsksOnce (V.count verifier.old) (V.count verifier.new) };

    /// As `validate_ee_at`, at the moment that the clock tells, which is asked once, first.
    fn validate_ee<C: Clock, D: Digester, V: Verifier>(
        self,
        alloc: Global,
        issuer: &ResourceCert,
        strict: bool,
        clock: &C,
        digester: &D,
        verifier: &mut V,
    ) -> Result<ResourceCert, Refused<ValidationError>>
        ensures validates { (moment : ℕ) × C.tells clock.now moment × MeetsValid (ValidatesIssued
            (digests_of D.sha256_digest D.sha1_digest digester.now) (V.says verifier.old)
            strict Ee moment issuer.now.holder (validated self)) result
            × IfErr result (λ r. MemoryAfterForm
            (digests_of D.sha256_digest D.sha1_digest digester.now) strict Ee (validated self)
            (IsSignedAt (V.says verifier.old) moment issuer.now.holder.cert (validated self))
            r.error) }
        ensures tal { IfOk result (λ r. r.tal ≡ issuer.now.tal) }
        ensures outside { IfErr result (λ r.
            TellsNumbers (validated self) (held_by issuer.now.holder) r.error) }
        ensures same { V.says verifier.new ≡ V.says verifier.old }
        ensures asked { AsksOnce (V.count verifier.old) (V.count verifier.new) };

    /// As `validate_detached_ee_at`, at the moment that the clock tells, which is asked once, first.
    fn validate_detached_ee<C: Clock, D: Digester, V: Verifier>(
        self,
        alloc: Global,
        issuer: &ResourceCert,
        strict: bool,
        clock: &C,
        digester: &D,
        verifier: &mut V,
    ) -> Result<ResourceCert, Refused<ValidationError>>
        ensures validates { (moment : ℕ) × C.tells clock.now moment × MeetsValid (ValidatesIssued
            (digests_of D.sha256_digest D.sha1_digest digester.now) (V.says verifier.old)
            strict DetachedEe moment issuer.now.holder (validated self)) result
            × IfErr result (λ r. MemoryAfterForm
            (digests_of D.sha256_digest D.sha1_digest digester.now) strict DetachedEe
            (validated self)
            (IsSignedAt (V.says verifier.old) moment issuer.now.holder.cert (validated self))
            r.error) }
        ensures tal { IfOk result (λ r. r.tal ≡ issuer.now.tal) }
        ensures outside { IfErr result (λ r.
            TellsNumbers (validated self) (held_by issuer.now.holder) r.error) }
        ensures same { V.says verifier.new ≡ V.says verifier.old }
        ensures asked { AsksOnce (V.count verifier.old) (V.count verifier.new) };

    /// As `validate_router_at`, at the moment that the clock tells, which is asked once, first.
    fn validate_router<C: Clock, D: Digester, V: Verifier>(
        &self,
        alloc: Global,
        issuer: &ResourceCert,
        strict: bool,
        clock: &C,
        digester: &D,
        verifier: &mut V,
    ) -> Result<(), ValidationError>
        ensures validates { (moment : ℕ) × C.tells clock.now moment × ValidatesRouter
            (digests_of D.sha256_digest D.sha1_digest digester.now) (V.says verifier.old)
            strict moment issuer.now.holder (validated self.now) result
            × IfErr result (MemoryAfterForm
            (digests_of D.sha256_digest D.sha1_digest digester.now) strict Router
            (validated self.now)
            (IsSignedAt (V.says verifier.old) moment issuer.now.holder.cert
            (validated self.now))) }
        ensures outside { IfErr result
            (TellsNumbers (validated self.now) (held_by issuer.now.holder)) }
        ensures same { V.says verifier.new ≡ V.says verifier.old }
        ensures asked { AsksOnce (V.count verifier.old) (V.count verifier.new) };
}

impl Validate for Cert {
    ghost validated = { λ c. c };

    fn validate_ta_at<D: Digester, V: Verifier>(
        self,
        tal: Rc<TalInfo>,
        strict: bool,
        now: Time,
        digester: &D,
        verifier: &mut V,
    ) -> Result<ResourceCert, Refused<ValidationError>> {
        let form = self.inspect_ta(strict, digester);
        inspected::validate_anchor(self, form, tal, now, verifier)
    }

    fn validate_ca_at<D: Digester, V: Verifier>(
        self,
        alloc: Global,
        issuer: &ResourceCert,
        strict: bool,
        now: Time,
        digester: &D,
        verifier: &mut V,
    ) -> Result<ResourceCert, Refused<ValidationError>> {
        let form = self.inspect_ca(strict, digester);
        inspected::validate_issued(alloc, self, form, issuer, now, verifier)
    }

    fn validate_ee_at<D: Digester, V: Verifier>(
        self,
        alloc: Global,
        issuer: &ResourceCert,
        strict: bool,
        now: Time,
        digester: &D,
        verifier: &mut V,
    ) -> Result<ResourceCert, Refused<ValidationError>> {
        let form = self.inspect_ee(strict, digester);
        inspected::validate_issued(alloc, self, form, issuer, now, verifier)
    }

    fn validate_detached_ee_at<D: Digester, V: Verifier>(
        self,
        alloc: Global,
        issuer: &ResourceCert,
        strict: bool,
        now: Time,
        digester: &D,
        verifier: &mut V,
    ) -> Result<ResourceCert, Refused<ValidationError>> {
        let form = self.inspect_detached_ee(strict, digester);
        inspected::validate_issued(alloc, self, form, issuer, now, verifier)
    }

    fn validate_router_at<D: Digester, V: Verifier>(
        &self,
        alloc: Global,
        issuer: &ResourceCert,
        strict: bool,
        now: Time,
        digester: &D,
        verifier: &mut V,
    ) -> Result<(), ValidationError> {
        let form = self.inspect_router(strict, digester);
        inspected::validate_router(alloc, self, form, issuer, now, verifier)
    }

    fn validate_ta<C: Clock, D: Digester, V: Verifier>(
        self,
        tal: Rc<TalInfo>,
        strict: bool,
        clock: &C,
        digester: &D,
        verifier: &mut V,
    ) -> Result<ResourceCert, Refused<ValidationError>> {
        let now = clock.now();
        self.validate_ta_at(tal, strict, now, digester, verifier)
    }

    fn validate_ca<C: Clock, D: Digester, V: Verifier>(
        self,
        alloc: Global,
        issuer: &ResourceCert,
        strict: bool,
        clock: &C,
        digester: &D,
        verifier: &mut V,
    ) -> Result<ResourceCert, Refused<ValidationError>> {
        let now = clock.now();
        self.validate_ca_at(alloc, issuer, strict, now, digester, verifier)
    }

    fn validate_ee<C: Clock, D: Digester, V: Verifier>(
        self,
        alloc: Global,
        issuer: &ResourceCert,
        strict: bool,
        clock: &C,
        digester: &D,
        verifier: &mut V,
    ) -> Result<ResourceCert, Refused<ValidationError>> {
        let now = clock.now();
        self.validate_ee_at(alloc, issuer, strict, now, digester, verifier)
    }

    fn validate_detached_ee<C: Clock, D: Digester, V: Verifier>(
        self,
        alloc: Global,
        issuer: &ResourceCert,
        strict: bool,
        clock: &C,
        digester: &D,
        verifier: &mut V,
    ) -> Result<ResourceCert, Refused<ValidationError>> {
        let now = clock.now();
        self.validate_detached_ee_at(alloc, issuer, strict, now, digester, verifier)
    }

    fn validate_router<C: Clock, D: Digester, V: Verifier>(
        &self,
        alloc: Global,
        issuer: &ResourceCert,
        strict: bool,
        clock: &C,
        digester: &D,
        verifier: &mut V,
    ) -> Result<(), ValidationError> {
        let now = clock.now();
        self.validate_router_at(alloc, issuer, strict, now, digester, verifier)
    }
}
