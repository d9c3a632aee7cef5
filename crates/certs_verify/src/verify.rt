//! The calls that verify a certificate.

ghost use Rattle.std.specs.Prelude.{◌≡◌, ◌≢◌, ◌+◌, ◌-◌, ◌^◌, ◌∷◌, [], ℕ, IfErr, IfOk, min};
ghost use Rattle.certs_x509.specs.declared.errors.verification.VerificationError.TheVariants.{Memory};
ghost use Rattle.certs_verify.specs.certs_extension.Calls.{VerifiesIssued};
ghost use Rattle.certs_verify.specs.certs_extension.Cert.{CertValue};
ghost use Rattle.certs_verify.specs.certs_extension.Verified.{IsAnchorAt, IsSignedAt, PassesAt, anchor_tests, held_by, issuer_claim, nothing, router_tests, validity};
ghost use Rattle.certs_verify.specs.certs_extension.declared.forms.VerificationTest.TheVariants as test;
ghost use Rattle.certs_verify.specs.certs_basics.Verdicts.{Verdicts};
ghost use Rattle.certs_verify.specs.Answers.{Answers, AsksOnce, MemoryAfter};
ghost use Rattle.certs_verify.specs.Words.{Meets, TellsOutside, VerifiesAnchor};

use crate::holder::ResourceCert;
use crate::inspect::Cert;
use crate::refused::Refused;
use crate::{anchor, below, tests};
use certs_basics::time::{Clock, Time};
use certs_x509::{TalInfo, VerificationError, Verifier};
use std::alloc::Global;
use std::rc::Rc;

/// What is verified. A call asks the verifier once or not at all. `Memory` comes only where a growth of memory was
/// refused, or a count of copies is full, and only after the tests that take none: of an anchor all, and below an issuer
/// those of the moment, of the claim to the issuer and of the signature.
///
/// A call that takes the certificate hands it back where it refuses. `strict` is of inspection, and changes nothing here.
pub trait Verify {
    // The certificate.
    ghost verified: { Self → CertValue };

    /// Whether the moment lies in the validity, both ends included; else on which side it lies, the beginning first.
    fn verify_validity(&self, now: Time) -> Result<(), VerificationError>
        ensures answers { (good : Verdicts) (issuer : CertValue) → Answers
            (PassesAt good now issuer nothing (verified self.now)) validity result }
        ensures no_memory { IfErr result (λ e. e ≢ Memory) };

    /// Whether that issuer is claimed: there is an authority key identifier, it is the issuer's subject key identifier,
    /// and there is the URI of an issuer; else the first of these that fails. Names and that URI aren't compared
    /// (RFC 6487 4.8.3, 4.8.7).
    fn verify_issuer_claim(&self, issuer: &Cert) -> Result<(), VerificationError>
        ensures answers { (good : Verdicts) (now : ℕ) → Answers
            (PassesAt good now issuer.now nothing (verified self.now)) issuer_claim result }
        ensures no_memory { IfErr result (λ e. e ≢ Memory) };

    /// Whether the signature is good for the issuer's key, over the very octets that were read. The verifier is asked
    /// once.
    fn verify_signature<V: Verifier>(
        &self,
        issuer: &Cert,
        verifier: &mut V,
    ) -> Result<(), VerificationError>
        ensures answers { (now : ℕ) → Answers
            (PassesAt (V.says verifier.old) now issuer.now nothing (verified self.now))
            (test.BadSignature ∷ []) result }
        ensures no_memory { IfErr result (λ e. e ≢ Memory) }
        ensures same { V.says verifier.new ≡ V.says verifier.old }
        ensures counted { V.count verifier.new ≡ min (V.count verifier.old + 1) (2 ^ 64 - 1) };

    /// The certificate as an anchor, with what it lists, if it is valid at that moment, inherits nothing and is signed by
    /// its own key; else the first test that fails. `tal` is what the locator is called by which it was found.
    fn verify_ta_at<V: Verifier>(
        self,
        tal: Rc<TalInfo>,
        strict: bool,
        now: Time,
        verifier: &mut V,
    ) -> Result<ResourceCert, Refused<VerificationError>>
        ensures verifies { Meets (VerifiesAnchor (V.says verifier.old) now (verified self)) result }
        ensures memory { IfErr result (λ r. MemoryAfter
            (IsAnchorAt (V.says verifier.old) now (verified self)) r.error) }
        ensures tal { IfOk result (λ r. r.tal ≡ tal.value) }
        ensures same { V.says verifier.new ≡ V.says verifier.old }
        ensures asked { AsksOnce (V.count verifier.old) (V.count verifier.new) };

    /// Whether the certificate is one of an anchor: what `verify_ta_at` tests.
    fn verify_ta_ref_at<V: Verifier>(
        &self,
        strict: bool,
        now: Time,
        verifier: &mut V,
    ) -> Result<(), VerificationError>
        ensures answers { Answers
            (PassesAt (V.says verifier.old) now (verified self.now) nothing (verified self.now))
            anchor_tests result }
        ensures no_memory { IfErr result (λ e. e ≢ Memory) }
        ensures same { V.says verifier.new ≡ V.says verifier.old }
        ensures asked { AsksOnce (V.count verifier.old) (V.count verifier.new) };

    /// The certificate of an authority, with what it then holds, if it is valid at that moment, claims the issuer, is
    /// signed by it, and claims no number that the issuer doesn't hold, but where it is trimmed; else the first test that
    /// fails, with these numbers where it is one of claims.
    fn verify_ca_at<V: Verifier>(
        self,
        alloc: Global,
        issuer: &ResourceCert,
        strict: bool,
        now: Time,
        verifier: &mut V,
    ) -> Result<ResourceCert, Refused<VerificationError>>
        ensures verifies { Meets
            (VerifiesIssued (V.says verifier.old) now issuer.now.holder (verified self)) result }
        ensures memory { IfErr result (λ r. MemoryAfter (IsSignedAt (V.says verifier.old) now
            issuer.now.holder.cert (verified self)) r.error) }
        ensures tal { IfOk result (λ r. r.tal ≡ issuer.now.tal) }
        ensures outside { IfErr result (λ r.
            TellsOutside (verified self) (held_by issuer.now.holder) r.error) }
        ensures same { V.says verifier.new ≡ V.says verifier.old }
        ensures asked { AsksOnce (V.count verifier.old) (V.count verifier.new) };

    /// The certificate of an object, with what it then holds: what `verify_ca_at` tests.
    fn verify_ee_at<V: Verifier>(
        self,
        alloc: Global,
        issuer: &ResourceCert,
        strict: bool,
        now: Time,
        verifier: &mut V,
    ) -> Result<ResourceCert, Refused<VerificationError>>
        ensures verifies { Meets
            (VerifiesIssued (V.says verifier.old) now issuer.now.holder (verified self)) result }
        ensures memory { IfErr result (λ r. MemoryAfter (IsSignedAt (V.says verifier.old) now
            issuer.now.holder.cert (verified self)) r.error) }
        ensures tal { IfOk result (λ r. r.tal ≡ issuer.now.tal) }
        ensures outside { IfErr result (λ r.
            TellsOutside (verified self) (held_by issuer.now.holder) r.error) }
        ensures same { V.says verifier.new ≡ V.says verifier.old }
        ensures asked { AsksOnce (V.count verifier.old) (V.count verifier.new) };

    /// Whether the certificate is one of a router below the issuer: what `verify_ca_at` tests, of resources AS numbers
    /// alone.
    fn verify_router_at<V: Verifier>(
        &self,
        alloc: Global,
        issuer: &ResourceCert,
        strict: bool,
        now: Time,
        verifier: &mut V,
    ) -> Result<(), VerificationError>
        ensures answers { Answers (PassesAt (V.says verifier.old) now issuer.now.holder.cert
            (held_by issuer.now.holder) (verified self.now)) router_tests result }
        ensures memory { IfErr result (MemoryAfter
            (IsSignedAt (V.says verifier.old) now issuer.now.holder.cert (verified self.now))) }
        ensures outside { IfErr result
            (TellsOutside (verified self.now) (held_by issuer.now.holder)) }
        ensures same { V.says verifier.new ≡ V.says verifier.old }
        ensures asked { AsksOnce (V.count verifier.old) (V.count verifier.new) };

    /// As `verify_ta_at`, at the moment that the clock tells, which is asked once, first.
    fn verify_ta<C: Clock, V: Verifier>(
        self,
        tal: Rc<TalInfo>,
        strict: bool,
        clock: &C,
        verifier: &mut V,
    ) -> Result<ResourceCert, Refused<VerificationError>>
        ensures verifies { (moment : ℕ) × C.tells clock.now moment
            × Meets (VerifiesAnchor (V.says verifier.old) moment (verified self)) result
            × IfErr result (λ r. MemoryAfter
            (IsAnchorAt (V.says verifier.old) moment (verified self)) r.error) }
        ensures tal { IfOk result (λ r. r.tal ≡ tal.value) }
        ensures same { V.says verifier.new ≡ V.says verifier.old }
        ensures asked { AsksOnce (V.count verifier.old) (V.count verifier.new) };

    /// As `verify_ta_ref_at`, at the moment that the clock tells, which is asked once, first.
    fn verify_ta_ref<C: Clock, V: Verifier>(
        &self,
        strict: bool,
        clock: &C,
        verifier: &mut V,
    ) -> Result<(), VerificationError>
        ensures answers { (moment : ℕ) × C.tells clock.now moment × Answers
            (PassesAt (V.says verifier.old) moment (verified self.now) nothing (verified self.now))
            anchor_tests result }
        ensures no_memory { IfErr result (λ e. e ≢ Memory) }
        ensures same { V.says verifier.new ≡ V.says verifier.old }
        ensures asked { AsksOnce (V.count verifier.old) (V.count verifier.new) };

    /// As `verify_ca_at`, at the moment that the clock tells, which is asked once, first.
    fn verify_ca<C: Clock, V: Verifier>(
        self,
        alloc: Global,
        issuer: &ResourceCert,
        strict: bool,
        clock: &C,
        verifier: &mut V,
    ) -> Result<ResourceCert, Refused<VerificationError>>
        ensures verifies { (moment : ℕ) × C.tells clock.now moment × Meets
            (VerifiesIssued (V.says verifier.old) moment issuer.now.holder (verified self)) result
            × IfErr result (λ r. MemoryAfter (IsSignedAt (V.says verifier.old) moment
            issuer.now.holder.cert (verified self)) r.error) }
        ensures tal { IfOk result (λ r. r.tal ≡ issuer.now.tal) }
        ensures outside { IfErr result (λ r.
            TellsOutside (verified self) (held_by issuer.now.holder) r.error) }
        ensures same { V.says verifier.new ≡ V.says verifier.old }
        ensures asked { AsksOnce (V.count verifier.old) (V.count verifier.new) };

    /// As `verify_ee_at`, at the moment that the clock tells, which is asked once, first.
    fn verify_ee<C: Clock, V: Verifier>(
        self,
        alloc: Global,
        issuer: &ResourceCert,
        strict: bool,
        clock: &C,
        verifier: &mut V,
    ) -> Result<ResourceCert, Refused<VerificationError>>
        ensures verifies { (moment : ℕ) × C.tells clock.now moment × Meets
            (VerifiesIssued (V.says verifier.old) moment issuer.now.holder (verified self)) result
            × IfErr result (λ r. MemoryAfter (IsSignedAt (V.says verifier.old) moment
            issuer.now.holder.cert (verified self)) r.error) }
        ensures tal { IfOk result (λ r. r.tal ≡ issuer.now.tal) }
        ensures outside { IfErr result (λ r.
            TellsOutside (verified self) (held_by issuer.now.holder) r.error) }
        ensures same { V.says verifier.new ≡ V.says verifier.old }
        ensures asked { AsksOnce (V.count verifier.old) (V.count verifier.new) };

    /// As `verify_router_at`, at the moment that the clock tells, which is asked once, first.
    fn verify_router<C: Clock, V: Verifier>(
        &self,
        alloc: Global,
        issuer: &ResourceCert,
        strict: bool,
        clock: &C,
        verifier: &mut V,
    ) -> Result<(), VerificationError>
        ensures answers { (moment : ℕ) × C.tells clock.now moment × Answers
            (PassesAt (V.says verifier.old) moment issuer.now.holder.cert
            (held_by issuer.now.holder) (verified self.now)) router_tests result
            × IfErr result (MemoryAfter (IsSignedAt (V.says verifier.old) moment
            issuer.now.holder.cert (verified self.now))) }
        ensures outside { IfErr result
            (TellsOutside (verified self.now) (held_by issuer.now.holder)) }
        ensures same { V.says verifier.new ≡ V.says verifier.old }
        ensures asked { AsksOnce (V.count verifier.old) (V.count verifier.new) };
}

impl Verify for Cert {
    ghost verified = { λ c. c };

    fn verify_validity(&self, now: Time) -> Result<(), VerificationError> {
        tests::verify_validity(self, now)
    }

    fn verify_issuer_claim(&self, issuer: &Cert) -> Result<(), VerificationError> {
        tests::verify_issuer_claim(self, issuer)
    }

    fn verify_signature<V: Verifier>(
        &self,
        issuer: &Cert,
        verifier: &mut V,
    ) -> Result<(), VerificationError> {
        tests::verify_signature(self, issuer, verifier)
    }

    fn verify_ta_at<V: Verifier>(
        self,
        tal: Rc<TalInfo>,
        _strict: bool,
        now: Time,
        verifier: &mut V,
    ) -> Result<ResourceCert, Refused<VerificationError>> {
        anchor::verify_anchor(self, tal, now, verifier)
    }

    fn verify_ta_ref_at<V: Verifier>(
        &self,
        _strict: bool,
        now: Time,
        verifier: &mut V,
    ) -> Result<(), VerificationError> {
        anchor::verify_anchor_ref(self, now, verifier)
    }

    fn verify_ca_at<V: Verifier>(
        self,
        alloc: Global,
        issuer: &ResourceCert,
        _strict: bool,
        now: Time,
        verifier: &mut V,
    ) -> Result<ResourceCert, Refused<VerificationError>> {
        below::verify_issued(alloc, self, issuer, now, verifier)
    }

    fn verify_ee_at<V: Verifier>(
        self,
        alloc: Global,
        issuer: &ResourceCert,
        _strict: bool,
        now: Time,
        verifier: &mut V,
    ) -> Result<ResourceCert, Refused<VerificationError>> {
        below::verify_issued(alloc, self, issuer, now, verifier)
    }

    fn verify_router_at<V: Verifier>(
        &self,
        alloc: Global,
        issuer: &ResourceCert,
        _strict: bool,
        now: Time,
        verifier: &mut V,
    ) -> Result<(), VerificationError> {
        below::verify_router(alloc, self, issuer, now, verifier)
    }

    fn verify_ta<C: Clock, V: Verifier>(
        self,
        tal: Rc<TalInfo>,
        _strict: bool,
        clock: &C,
        verifier: &mut V,
    ) -> Result<ResourceCert, Refused<VerificationError>> {
        let now = clock.now();
        anchor::verify_anchor(self, tal, now, verifier)
    }

    fn verify_ta_ref<C: Clock, V: Verifier>(
        &self,
        _strict: bool,
        clock: &C,
        verifier: &mut V,
    ) -> Result<(), VerificationError> {
        let now = clock.now();
        anchor::verify_anchor_ref(self, now, verifier)
    }

    fn verify_ca<C: Clock, V: Verifier>(
        self,
        alloc: Global,
        issuer: &ResourceCert,
        _strict: bool,
        clock: &C,
        verifier: &mut V,
    ) -> Result<ResourceCert, Refused<VerificationError>> {
        let now = clock.now();
        below::verify_issued(alloc, self, issuer, now, verifier)
    }

    fn verify_ee<C: Clock, V: Verifier>(
        self,
        alloc: Global,
        issuer: &ResourceCert,
        _strict: bool,
        clock: &C,
        verifier: &mut V,
    ) -> Result<ResourceCert, Refused<VerificationError>> {
        let now = clock.now();
        below::verify_issued(alloc, self, issuer, now, verifier)
    }

    fn verify_router<C: Clock, V: Verifier>(
        &self,
        alloc: Global,
        issuer: &ResourceCert,
        _strict: bool,
        clock: &C,
        verifier: &mut V,
    ) -> Result<(), VerificationError> {
        let now = clock.now();
        below::verify_router(alloc, self, issuer, now, verifier)
    }
}
