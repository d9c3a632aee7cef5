//! Paths of URIs: folders, names joined to them, and which texts name the same place.

ghost use Rattle.std.specs.Prelude.{◌≡◌, ◌↔◌, IsTrue, IfOk, option_copied};
ghost use Rattle.certs_basics.specs.Paths.{behind_slashes as behind, IsIdenticalTo, join as joined, parent as parent_of, to_last_slash as folder_of, without_slash as trimmed};

use crate::uri::grammar::{folded_len, segment_len};
use std::alloc::{AllocError, Global};

/// The text less one slash at its end, where it has one.
pub fn without_slash(text: &[u8]) -> &[u8]
    ensures { result.now ≡ trimmed text.now }
{
    match text.strip_suffix(b"/") {
        Some(front) => front,
        None => text,
    }
}

// What comes after the first slash, nothing where there is none.
fn behind_slash(text: &[u8]) -> &[u8]
    ensures { result.now ≡ behind 1 text.now }
{
    let len = segment_len(text);
    if len < text.len() {
        &text[len + 1..]
    } else {
        &[]
    }
}

// What comes after so many slashes, nothing where there are fewer.
fn behind_slashes(count: usize, text: &[u8]) -> &[u8]
    ensures { result.now ≡ behind count text.now }
{
    let mut rest = text;
    for _ in 0..count {
        rest = behind_slash(rest);
    }
    rest
}

// The text to its last slash, that slash included.
fn to_last_slash(text: &[u8]) -> &[u8]
    ensures { result.now ≡ folder_of text.now }
{
    match text.iter().rposition(|octet| *octet == b'/') {
        Some(place) => &text[..place + 1],
        None => &[],
    }
}

/// The folder of an rsync URI: less one slash at the end and the last segment; none where no path comes after the
/// module.
pub fn parent(uri: &[u8]) -> Option<&[u8]>
    ensures { option_copied result ≡ parent_of uri.now }
{
    if behind_slashes(4, uri).is_empty() {
        return None;
    }
    Some(to_last_slash(without_slash(uri)))
}

/// The URI with one slash at its end, where it has none yet, and the name after it.
pub fn join(alloc: Global, uri: &[u8], name: &[u8]) -> Result<Vec<u8>, AllocError>
    ensures { IfOk result (λ text. text.items ≡ joined uri.now name.now) }
{
    let folder = without_slash(uri);
    let mut text = Vec::with_capacity(alloc, folder.len() + 1 + name.len())?;
    text.extend_from_slice(folder)?;
    text.extend_from_slice(b"/")?;
    text.extend_from_slice(name)?;
    Ok(text)
}

/// Whether the texts are the same but for case in scheme and host, and for one slash at the end of each.
pub fn is_identical(a: &[u8], b: &[u8]) -> bool
    ensures { IsTrue result ↔ IsIdenticalTo a.now b.now }
{
    let (a, b) = (without_slash(a), without_slash(b));
    let (host, path) = a.split_at(folded_len(a));
    let (other_host, other_path) = b.split_at(folded_len(b));
    host.eq_ignore_ascii_case(other_host) && path == other_path
}
