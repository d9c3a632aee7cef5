//! What is asked of the revocation lists that are carried (RFC 6487 5).

ghost use Rattle.std.specs.Prelude.{◌≡◌, ◌↔◌, ◌+◌, ◌≤◌, IfOk, IfSome, IfNone, IsTrue, MatchOption, None, OnOk, Some, length, map, slice_get};
ghost use Rattle.certs_verify.specs.certs_basics.Lists.{Each, Mem};
ghost use Rattle.certs_verify.specs.certs_extension.Cert.{CertValue};
ghost use Rattle.certs_verify.specs.certs_extension.CrlText.{IsOn};
ghost use Rattle.objects_rta_valid.specs.Apart.{AreApart};
ghost use Rattle.objects_rta_valid.specs.Places.{Stands};
ghost use Rattle.objects_rta_valid.specs.Keyed.{HasPlace, IsKeyed, last_place};
ghost use Rattle.objects_rta_valid.specs.Certs.{IsGoodList, IsUsed, node_of};
ghost use Rattle.objects_rta_valid.specs.Vouched.{AreGoodOf, Has, IsGoodCarried, IsKept, Serves, authority_of, kept_aside, subject_of};

use crate::certs::cert_at;
use crate::keyed::{KeyPlaces, places_of};
use crate::keys::{authorities_of, lend_keys, subjects_of, uppers_of};
use certs_verify::{Cert, Verifier};
use objects_rta::{Crl, Time};
use std::alloc::{AllocError, Global};

// Whether the list is the certificate's by its authority key identifier.
fn is_of(crl: &Crl, issuer: &Cert) -> bool
    ensures { IsTrue result ↔ (crl.now.tbs.authority_key_identifier
        ≡ issuer.now.tbs.subject_key_identifier) }
{
    *crl.as_cert_list().authority_key_identifier() == issuer.tbs().subject_key_identifier()
}

// Whether the list is the issuer's, signed by its key, and not stale. The verifier is asked once, at most.
fn is_good<V: Verifier>(crl: &Crl, issuer: &Cert, now: Time, verifier: &mut V) -> bool
    ensures good_list { IsTrue result ↔ IsGoodList (V.says verifier.old) now issuer.now crl.now }
    ensures same { V.says verifier.new ≡ V.says verifier.old }
    ensures asked { V.count verifier.new ≤ V.count verifier.old + 1 }
{
    if !is_of(crl, issuer) || crl.as_cert_list().is_stale(now) {
        return false;
    }
    crl.verify_signature(issuer.tbs().subject_public_key_info(), verifier)
        .is_ok()
}

// The last place of the key of the list's issuer.
fn place_of_list(places: &KeyPlaces<'_>, crl: &Crl) -> Option<usize>
    ensures { result ≡ last_place places.now (authority_of crl.now) }
{
    places.last(crl.as_cert_list().authority_key_identifier().as_slice())
}

// The last place of the certificate's key.
fn place_of_key(places: &KeyPlaces<'_>, cert: &Cert) -> Option<usize>
    ensures { result ≡ last_place places.now (subject_of cert.now) }
{
    let key = cert.tbs().subject_key_identifier();
    places.last(key.as_slice())
}

// Certificates that may have issued lists, with the places of their keys.
#[derive(Drop)]
struct Issuers<'a, 'k> {
    certs: &'a [Cert],
    places: KeyPlaces<'k>,
}

// The certificate whose list it is, by key identifiers.
fn issuer_of<'a>(issuers: &Issuers<'a, '_>, crl: &Crl) -> Option<&'a Cert>
    requires { IsKeyed (map subject_of issuers.now.certs.now) issuers.now.places }
    ensures there { IfSome result (λ p. Mem issuers.now.certs.now p.now) }
    ensures of_issuer { IfSome result (λ p. crl.now.tbs.authority_key_identifier
        ≡ p.now.tbs.subject_key_identifier) }
    ensures none { IfNone result ((p : CertValue) → Mem issuers.now.certs.now p
        → crl.now.tbs.authority_key_identifier ≡ p.tbs.subject_key_identifier → ⊥) }
{
    match place_of_list(&issuers.places, crl) {
        Some(place) => cert_at(issuers.certs, place),
        None => None,
    }
}

// Whether the list is a good one of the certificate whose it is. The verifier is asked once, at most.
fn is_good_carried<V: Verifier>(
    issuers: &Issuers<'_, '_>,
    crl: &Crl,
    now: Time,
    verifier: &mut V,
) -> bool
    requires apart { AreApart (map node_of issuers.now.certs.now) }
    requires keyed { IsKeyed (map subject_of issuers.now.certs.now) issuers.now.places }
    ensures good_list { IsTrue result
        ↔ IsGoodCarried (V.says verifier.old) now issuers.now.certs.now crl.now }
    ensures same { V.says verifier.new ≡ V.says verifier.old }
    ensures asked { V.count verifier.new ≤ V.count verifier.old + 1 }
{
    match issuer_of(issuers, crl) {
        Some(issuer) => is_good(crl, issuer, now, verifier),
        None => false,
    }
}

// A copy of the list, which shares its octets, with its serial numbers kept aside.
fn with_serials(alloc: Global, crl: &Crl) -> Result<Crl, AllocError>
    ensures { IfOk result (λ copy. copy ≡ kept_aside crl.now) }
{
    let mut copy = crl.clone()?;
    copy.cache_serials(alloc)?;
    Ok(copy)
}

// Keeps a copy of the list, with its serial numbers aside, if it is a good one of some carried issuer. The verifier is asked
// once, at most.
fn keep_if_good<V: Verifier>(
    alloc: Global,
    lists: &mut Vec<Crl>,
    issuers: &Issuers<'_, '_>,
    crl: &Crl,
    now: Time,
    verifier: &mut V,
) -> Result<(), AllocError>
    requires apart { AreApart (map node_of issuers.now.certs.now) }
    requires keyed { IsKeyed (map subject_of issuers.now.certs.now) issuers.now.places }
    ensures kept { OnOk result (IsKept
        (IsGoodCarried (V.says verifier.old) now issuers.now.certs.now crl.now)
        (kept_aside crl.now) lists.old.items lists.new.items) }
    ensures same { V.says verifier.new ≡ V.says verifier.old }
    ensures asked { V.count verifier.new ≤ V.count verifier.old + 1 }
{
    if !is_good_carried(issuers, crl, now, verifier) {
        return Ok(());
    }
    let copy = with_serials(alloc, crl)?;
    lists.push(copy)?;
    Ok(())
}

// The good lists, of all that are carried, by the places of certificates' keys. The verifier is asked at most once for each.
fn good_among<V: Verifier>(
    alloc: Global,
    issuers: &Issuers<'_, '_>,
    crls: &[Crl],
    now: Time,
    verifier: &mut V,
) -> Result<Vec<Crl>, AllocError>
    requires apart { AreApart (map node_of issuers.now.certs.now) }
    requires keyed { IsKeyed (map subject_of issuers.now.certs.now) issuers.now.places }
    ensures lists { IfOk result (λ v. AreGoodOf (V.says verifier.old) now
        issuers.now.certs.now crls.now v.items) }
    ensures same { V.says verifier.new ≡ V.says verifier.old }
    ensures asked { V.count verifier.new ≤ V.count verifier.old + length crls.now }
{
    let mut lists = Vec::new(alloc);
    let mut rest = crls;
    while let Some((crl, others)) = rest.split_first() {
        keep_if_good(alloc, &mut lists, issuers, crl, now, verifier)?;
        rest = others;
    }
    Ok(lists)
}

/// The good lists, of all that are carried, with their serial numbers kept aside. The verifier is asked at most once for each.
pub(crate) fn good_lists<V: Verifier>(
    alloc: Global,
    certs: &[Cert],
    crls: &[Crl],
    now: Time,
    verifier: &mut V,
) -> Result<Vec<Crl>, AllocError>
    requires { AreApart (map node_of certs.now) }
    ensures lists { IfOk result (λ v. AreGoodOf (V.says verifier.old) now certs.now crls.now
        v.items) }
    ensures same { V.says verifier.new ≡ V.says verifier.old }
    ensures asked { V.count verifier.new ≤ V.count verifier.old + length crls.now }
{
    let subjects = subjects_of(alloc, certs)?;
    let keys = lend_keys(alloc, subjects.as_slice())?;
    let places = places_of(alloc, keys.as_slice())?;
    let issuers = Issuers { certs, places };
    good_among(alloc, &issuers, crls, now, verifier)
}

// The list at that place, if there is one.
fn list_at(lists: &[Crl], place: usize) -> Option<&Crl>
    ensures { MatchOption result (slice_get lists.now place ≡ None)
        (λ crl. slice_get lists.now place ≡ Some crl.now) }
{
    lists.get(place)
}

// Whether the certificate isn't on the list.
fn is_off(crl: &Crl, cert: &Cert) -> bool
    ensures { IsTrue result ↔ (IsOn crl.now cert.now.tbs.serial → ⊥) }
{
    !crl.contains(cert.tbs().serial_number())
}

// Whether a list stands at the place, and the certificate isn't on it.
fn is_off_at(lists: &[Crl], place: usize, cert: &Cert) -> bool
    ensures { IsTrue result
        ↔ Stands lists.now place (λ crl. IsOn crl cert.now.tbs.serial → ⊥) }
{
    match list_at(lists, place) {
        Some(crl) => is_off(crl, cert),
        None => false,
    }
}

// Whether some list is the issuer's, without the certificate on it: of the issuer's lists each is looked at, from the last one
// on, until one lacks the certificate.
fn is_served(lists: &[Crl], places: &KeyPlaces<'_>, issuer: &Cert, cert: &Cert) -> bool
    requires { IsKeyed (map authority_of lists.now) places.now }
    ensures { IsTrue result ↔ Has (Serves issuer.now cert.now) lists.now }
{
    let mut next = place_of_key(places, issuer);
    while let Some(place) = next {
        if is_off_at(lists, place, cert) {
            return true;
        }
        let prior = places.earlier(place);
        next = prior;
    }
    false
}

// Whether that holds of two neighbours.
fn is_pair_served(
    certs: &[Cert],
    pair: (usize, usize),
    lists: &[Crl],
    places: &KeyPlaces<'_>,
) -> bool
    requires { IsKeyed (map authority_of lists.now) places.now }
    ensures { IsTrue result ↔ Stands certs.now pair.0 (λ c. Stands certs.now pair.1
        (λ p. Has (Serves p c) lists.now)) }
{
    let Some(cert) = cert_at(certs, pair.0) else {
        return false;
    };
    let Some(issuer) = cert_at(certs, pair.1) else {
        return false;
    };
    is_served(lists, places, issuer, cert)
}

// Whether that holds of each of the neighbours.
fn are_pairs_served(
    certs: &[Cert],
    pairs: &[(usize, usize)],
    lists: &[Crl],
    places: &KeyPlaces<'_>,
) -> bool
    requires { IsKeyed (map authority_of lists.now) places.now }
    ensures { IsTrue result ↔ Each (λ q. Stands certs.now q.0 (λ c. Stands certs.now q.1
        (λ p. Has (Serves p c) lists.now))) pairs.now }
{
    let mut rest = pairs;
    while let Some((pair, others)) = rest.split_first() {
        if !is_pair_served(certs, *pair, lists, places) {
            return false;
        }
        rest = others;
    }
    true
}

/// Whether of each of the neighbours some list is the upper's, without the lower on it.
pub(crate) fn are_served(
    alloc: Global,
    certs: &[Cert],
    pairs: &[(usize, usize)],
    lists: &[Crl],
) -> Result<bool, AllocError>
    ensures { IfOk result (λ yes. IsTrue yes ↔ Each (λ q. Stands certs.now q.0 (λ c.
        Stands certs.now q.1 (λ p. Has (Serves p c) lists.now))) pairs.now) }
{
    let authorities = authorities_of(alloc, lists)?;
    let keys = lend_keys(alloc, authorities.as_slice())?;
    let places = places_of(alloc, keys.as_slice())?;
    Ok(are_pairs_served(certs, pairs, lists, &places))
}

// Whether the list's key has a place.
fn has_place(places: &KeyPlaces<'_>, crl: &Crl) -> bool
    ensures { IsTrue result ↔ HasPlace places.now (authority_of crl.now) }
{
    match place_of_list(places, crl) {
        Some(_place) => true,
        None => false,
    }
}

// Whether each list's key has a place.
fn have_places(places: &KeyPlaces<'_>, crls: &[Crl]) -> bool
    ensures { IsTrue result
        ↔ Each (λ crl. HasPlace places.now (authority_of crl)) crls.now }
{
    let mut rest = crls;
    while let Some((crl, others)) = rest.split_first() {
        if !has_place(places, crl) {
            return false;
        }
        rest = others;
    }
    true
}

/// Whether each list is of the upper certificate of some neighbours.
pub(crate) fn are_used(
    alloc: Global,
    certs: &[Cert],
    pairs: &[(usize, usize)],
    crls: &[Crl],
) -> Result<bool, AllocError>
    ensures { IfOk result (λ yes. IsTrue yes ↔ Each (IsUsed certs.now pairs.now) crls.now) }
{
    let uppers = uppers_of(alloc, certs, pairs)?;
    let keys = lend_keys(alloc, uppers.as_slice())?;
    let places = places_of(alloc, keys.as_slice())?;
    Ok(have_places(&places, crls))
}
