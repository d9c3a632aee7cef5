//! The tests of an attestation whose paths are known, one by one.

ghost use Rattle.std.specs.Prelude.{◌≡◌, ◌↔◌, ◌+◌, ◌≤◌, ℕ, Bool, IfOk, IsTrue, length, map};
ghost use Rattle.certs_verify.specs.certs_basics.HandedIn.{Digests};
ghost use Rattle.certs_verify.specs.certs_basics.Verdicts.{Verdicts};
ghost use Rattle.certs_verify.specs.certs_key.Digesting.{digests_of};
ghost use Rattle.objects_rta.specs.objects_cms.Signer.{signer_fields};
ghost use Rattle.objects_rta.specs.objects_payload.ObjectText.{signer_of};
ghost use Rattle.objects_rta_valid.specs.declared.errors.RtaTest.TheVariants.{Content, Forms, Lists, Revocation, Signatures, Validity};
ghost use Rattle.objects_rta_valid.specs.Places.{AreFunctional, BeginBelow, pairs};
ghost use Rattle.objects_rta_valid.specs.Validity.{HaveForms, Passes};
ghost use Rattle.objects_rta_valid.specs.Answered.{HasWalked, Validates};

use crate::certs::are_vouched;
use crate::content::are_sound;
use crate::errors::{RtaError, RtaTest};
use crate::forms::{are_current, are_issuers, are_signers};
use crate::lists::{are_served, are_used, good_lists};
use crate::paths::Paths;
use crate::places::{first_places, links, neighbours};
use crate::terms::Terms;
use certs_verify::{Cert, Digester, Verifier};
use objects_rta::{Crl, Rta, SignerInfo, Time};
use std::alloc::{AllocError, Global};

/// The certificates that are carried.
pub(crate) fn certs_of(rta: &Rta) -> &[Cert]
    ensures { result.now ≡ rta.now.signed.certs }
{
    rta.signed().certificates()
}

// The lists that are carried.
fn crls_of(rta: &Rta) -> &[Crl]
    ensures { result.now ≡ rta.now.signed.crls }
{
    rta.signed().crls()
}

/// The signers.
pub(crate) fn signers_of(rta: &Rta) -> &[SignerInfo]
    ensures { map signer_of (map signer_fields result.now) ≡ rta.now.signed.signers }
{
    rta.signed().signer_infos()
}

// Whether each signer signed the content. The verifier is asked at most once for each.
fn passes_content<D: Digester, V: Verifier>(
    alloc: Global,
    rta: &Rta,
    paths: &Paths,
    digester: &D,
    verifier: &mut V,
) -> Result<bool, AllocError>
    requires { HasWalked rta.now paths.now }
    ensures passes { IfOk result (λ yes. (strict : Bool) (now : ℕ) → IsTrue yes ↔ Passes
        (digests_of D.sha256_digest D.sha1_digest digester.now) (V.says verifier.old)
        strict now rta.now Content) }
    ensures same { V.says verifier.new ≡ V.says verifier.old }
    ensures asked { V.count verifier.new
        ≤ V.count verifier.old + length rta.now.signed.signers }
{
    let firsts = first_places(alloc, paths)?;
    are_sound(alloc, rta.signed(), firsts.as_slice(), digester, verifier)
}

// Whether the certificates have their forms along paths.
fn have_forms<D: Digester>(
    alloc: Global,
    certs: &[Cert],
    paths: &Paths,
    strict: bool,
    digester: &D,
) -> Result<bool, AllocError>
    requires inside { BeginBelow paths.now.count (pairs paths.now.paths) }
    requires functional { AreFunctional (pairs paths.now.paths) }
    ensures { IfOk result (λ yes. IsTrue yes ↔ HaveForms
        (digests_of D.sha256_digest D.sha1_digest digester.now) strict certs.now paths.now.paths) }
{
    let firsts = first_places(alloc, paths)?;
    if !are_signers(certs, firsts.as_slice(), strict, digester) {
        return Ok(false);
    }
    let pairs = neighbours(alloc, paths)?;
    Ok(are_issuers(certs, pairs.as_slice(), strict, digester))
}

// Whether the certificates have their forms.
fn passes_forms<D: Digester>(
    alloc: Global,
    rta: &Rta,
    paths: &Paths,
    strict: bool,
    digester: &D,
) -> Result<bool, AllocError>
    requires { HasWalked rta.now paths.now }
    ensures { IfOk result (λ yes. (good : Verdicts) (now : ℕ) → IsTrue yes ↔ Passes
        (digests_of D.sha256_digest D.sha1_digest digester.now) good strict now rta.now Forms) }
{
    have_forms(alloc, certs_of(rta), paths, strict, digester)
}

// Whether each certificate is valid at the moment.
fn passes_validity(rta: &Rta, now: Time) -> bool
    ensures { (d : Digests) (good : Verdicts) (strict : Bool)
        → IsTrue result ↔ Passes d good strict now rta.now Validity }
{
    are_current(certs_of(rta), now)
}

// Whether the certificates are signed. The verifier is asked at most once for each.
fn passes_signatures<V: Verifier>(
    alloc: Global,
    rta: &Rta,
    paths: &Paths,
    now: Time,
    verifier: &mut V,
) -> Result<bool, AllocError>
    requires { HasWalked rta.now paths.now }
    ensures passes { IfOk result (λ yes. (d : Digests) (strict : Bool)
        → IsTrue yes ↔ Passes d (V.says verifier.old) strict now rta.now Signatures) }
    ensures same { V.says verifier.new ≡ V.says verifier.old }
    ensures asked { V.count verifier.new ≤ V.count verifier.old + length rta.now.signed.certs }
{
    let behind = links(alloc, paths)?;
    Ok(are_vouched(certs_of(rta), behind.as_slice(), now, verifier))
}

// Whether each list is of an issuer that follows another certificate.
fn passes_lists(alloc: Global, rta: &Rta, paths: &Paths) -> Result<bool, AllocError>
    requires { HasWalked rta.now paths.now }
    ensures { IfOk result (λ yes. (d : Digests) (good : Verdicts) (strict : Bool) (now : ℕ)
        → IsTrue yes ↔ Passes d good strict now rta.now Lists) }
{
    let pairs = neighbours(alloc, paths)?;
    are_used(alloc, certs_of(rta), pairs.as_slice(), crls_of(rta))
}

// Whether no certificate that another follows is revoked. The verifier is asked at most once for each list.
fn passes_revocation<V: Verifier>(
    alloc: Global,
    rta: &Rta,
    paths: &Paths,
    now: Time,
    verifier: &mut V,
) -> Result<bool, AllocError>
    requires { HasWalked rta.now paths.now }
    ensures passes { IfOk result (λ yes. (d : Digests) (strict : Bool)
        → IsTrue yes ↔ Passes d (V.says verifier.old) strict now rta.now Revocation) }
    ensures same { V.says verifier.new ≡ V.says verifier.old }
    ensures asked { V.count verifier.new ≤ V.count verifier.old + length rta.now.signed.crls }
{
    let certs = certs_of(rta);
    let pairs = neighbours(alloc, paths)?;
    let lists = good_lists(alloc, certs, crls_of(rta), now, verifier)?;
    are_served(alloc, certs, pairs.as_slice(), lists.as_slice())
}

/// Whether an attestation passes all tests, of which it passes those of its paths; else the first that it doesn't pass. The
/// verifier is asked at most once for each signer, certificate and list.
pub(crate) fn judge<D: Digester, V: Verifier>(
    alloc: Global,
    rta: &Rta,
    paths: &Paths,
    terms: &Terms<'_, D>,
    verifier: &mut V,
) -> Result<(), RtaError>
    requires { HasWalked rta.now paths.now }
    ensures validates { Validates
        (digests_of D.sha256_digest D.sha1_digest terms.now.digester.now)
        (V.says verifier.old) terms.now.strict terms.now.moment rta.now result }
    ensures same { V.says verifier.new ≡ V.says verifier.old }
    ensures asked { V.count verifier.new ≤ V.count verifier.old
        + length rta.now.signed.signers + length rta.now.signed.certs
        + length rta.now.signed.crls }
{
    let has_content = passes_content(alloc, rta, paths, terms.digester, verifier)?;
    if !has_content {
        return Err(RtaError::Test(RtaTest::Content));
    }
    let has_forms = passes_forms(alloc, rta, paths, terms.strict, terms.digester)?;
    if !has_forms {
        return Err(RtaError::Test(RtaTest::Forms));
    }
    let is_current = passes_validity(rta, terms.moment);
    if !is_current {
        return Err(RtaError::Test(RtaTest::Validity));
    }
    let has_signatures = passes_signatures(alloc, rta, paths, terms.moment, verifier)?;
    if !has_signatures {
        return Err(RtaError::Test(RtaTest::Signatures));
    }
    let has_lists = passes_lists(alloc, rta, paths)?;
    if !has_lists {
        return Err(RtaError::Test(RtaTest::Lists));
    }
    let is_unrevoked = passes_revocation(alloc, rta, paths, terms.moment, verifier)?;
    if !is_unrevoked {
        return Err(RtaError::Test(RtaTest::Revocation));
    }
    Ok(())
}
