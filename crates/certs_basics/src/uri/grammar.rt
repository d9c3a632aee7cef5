//! Which texts are rsync and https URIs, and the keys under which they are looked up.

ghost use Rattle.std.specs.Prelude.{◌≡◌, ◌+◌, ◌≤◌, ◌==◌, ◌++◌, map, take, drop, length, min, All, ◌↔◌, IsTrue, IfOk, MatchOption};
ghost use Rattle.std.specs.Cmp.Lexicographic.{slice_cmp};
ghost use Rattle.std.specs.List.{position_or_len};
ghost use Rattle.std.specs.Ordering.{nat_cmp};
ghost use Rattle.certs_basics.specs.Uris.{lower, IsUriOctet, HasScheme, IsModulePath, IsRsync, IsHttps, IsUri, IsLookupKey, lookup_key as key_of};

use std::alloc::{AllocError, Global};
use std::cmp::Ordering;

/// How many octets stand before the first slash, or at all where there is none.
pub(crate) fn segment_len(text: &[u8]) -> usize
    ensures bound { result ≤ length text.now }
    ensures place { result ≡ position_or_len (λ c. c == 47) text.now }
{
    text.iter()
        .position(|octet| *octet == b'/')
        .unwrap_or(text.len())
}

/// Whether the text is written in URI octets alone.
pub fn is_plain(text: &[u8]) -> bool
    ensures { IsTrue result ↔ All IsUriOctet text.now }
{
    text.iter().all(|octet| (0x21..=0x7E).contains(octet))
}

/// What comes after the scheme, where the text has that scheme in any case and URI octets alone.
fn after_scheme<'a>(text: &'a [u8], scheme: &[u8; 8]) -> Option<&'a [u8]>
    ensures { MatchOption result (¬ HasScheme (map lower scheme.now) text.now)
        (λ rest. HasScheme (map lower scheme.now) text.now × (rest.now ≡ drop 8 text.now)) }
{
    let (front, rest) = text.split_at_checked(8)?;
    if is_plain(text) && front.eq_ignore_ascii_case(scheme) {
        Some(rest)
    } else {
        None
    }
}

/// Whether the text is a host, a slash and a module, and then nothing or a slash and a path.
fn is_module_path(text: &[u8]) -> bool
    ensures { IsTrue result ↔ IsModulePath text.now }
{
    let host = segment_len(text);
    host > 0 && host < text.len() && segment_len(&text[host + 1..]) > 0
}

/// Whether the text is an rsync URI with a host and a module; the scheme may be in any case.
pub fn is_rsync(text: &[u8]) -> bool
    ensures { IsTrue result ↔ IsRsync text.now }
{
    match after_scheme(text, b"rsync://") {
        Some(rest) => is_module_path(rest),
        None => false,
    }
}

/// Whether the text is an https URI with a host; the scheme may be in any case.
pub fn is_https(text: &[u8]) -> bool
    ensures { IsTrue result ↔ IsHttps text.now }
{
    match after_scheme(text, b"https://") {
        Some(rest) => segment_len(rest) > 0,
        None => false,
    }
}

/// Whether the text is an rsync or an https URI.
pub fn is_uri(text: &[u8]) -> bool
    ensures { IsTrue result ↔ IsUri text.now }
{
    is_rsync(text) || is_https(text)
}

/// How many octets of the URI stand in lower case in its lookup key: the scheme and the host.
pub fn folded_len(uri: &[u8]) -> usize
    ensures bound { result ≤ length uri.now }
    // The scheme has 8 octets with its `://`, and the host stands before the next slash.
    ensures host { result
        ≡ min (length uri.now) (8 + position_or_len (λ c. c == 47) (drop 8 uri.now)) }
    ensures key { key_of uri.now ≡ map lower (take result uri.now) ++ drop result uri.now }
{
    match uri.split_at_checked(8) {
        Some((_, rest)) => 8 + segment_len(rest),
        None => uri.len(),
    }
}

/// Whether no octet of the text is a capital letter.
fn has_no_capital(text: &[u8]) -> bool
    ensures { IsTrue result ↔ (map lower text.now ≡ text.now) }
{
    !text.iter().any(|octet| octet.is_ascii_uppercase())
}

/// Whether the text is a URI that is its own lookup key: scheme and host in lower case.
pub fn is_lookup_key(text: &[u8]) -> bool
    ensures { IsTrue result ↔ IsLookupKey text.now }
{
    is_uri(text) && has_no_capital(&text[..folded_len(text)])
}

/// The order of a key against the lookup key of a URI, octet by octet, with no memory taken.
pub fn cmp_lookup_key(key: &[u8], uri: &[u8]) -> Ordering
    ensures { result ≡ slice_cmp nat_cmp key.now (key_of uri.now) }
{
    let (folded, rest) = uri.split_at(folded_len(uri));
    let lowered = folded.iter().map(|octet| octet.to_ascii_lowercase());
    key.iter().copied().cmp(lowered.chain(rest.iter().copied()))
}

/// The URI with its scheme and its host in lower case, under which it is looked up.
pub fn lookup_key(alloc: Global, uri: &[u8]) -> Result<Vec<u8>, AllocError>
    ensures { IfOk result (λ key. key.items ≡ key_of uri.now) }
{
    let (folded, rest) = uri.split_at(folded_len(uri));
    folded
        .iter()
        .map(|octet| octet.to_ascii_lowercase())
        .chain(rest.iter().copied())
        .collect(alloc)
}
