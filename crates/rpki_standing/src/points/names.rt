//! Whether the files of a manifest differ by name (RFC 9286 6.4).

ghost use Rattle.std.specs.Prelude.{◌≡◌, ◌↔◌, IfOk, IsTrue, map};
ghost use Rattle.std.specs.declared.cmp.Ordering.TheVariants.{Less};
ghost use Rattle.std.specs.Ordering.{nat_cmp};
ghost use Rattle.std.specs.Cmp.Lexicographic.{slice_cmp};
ghost use Rattle.std.specs.List.Sorted.{IsStrictlySortedBy};
ghost use Rattle.rpki_rules.specs.Words.{NoRepeat};

use objects_cms::manifest::ManifestContent;
use std::alloc::{AllocError, Global};

// The names of the files that a manifest lists, in its order.
fn names_of<'a>(alloc: Global, manifest: &'a ManifestContent) -> Result<Vec<&'a [u8]>, AllocError>
    ensures { IfOk result (λ names. map (λ n. n.now) names.items
        ≡ map (λ f. f.name) manifest.now.files) }
{
    let mut names = Vec::new(alloc);
    let mut left = manifest.iter();
    while let Some(file) = left.next() {
        names.push(file.file())?;
    }
    Ok(names)
}

// Whether one row of octets stands before another, compared octet by octet.
fn is_before(row: &[u8], other: &[u8]) -> bool
    ensures { IsTrue result ↔ (slice_cmp nat_cmp row.now other.now ≡ Less) }
{
    row.cmp(&other).is_lt()
}

// Whether each name stands before the next.
fn ascend(names: &[&[u8]]) -> bool
    ensures { IsTrue result
        ↔ IsStrictlySortedBy (slice_cmp nat_cmp) (map (λ n. n.now) names.now) }
{
    for i in 1..names.len() {
        if !is_before(names[i - 1], names[i]) {
            return false;
        }
    }
    true
}

/// Whether no two of the files that a manifest lists have one name. The names are sorted, so that only neighbours are
/// compared.
pub fn differ_by_name(alloc: Global, manifest: &ManifestContent) -> Result<bool, AllocError>
    ensures { IfOk result (λ yes. IsTrue yes
        ↔ NoRepeat (map (λ f. f.name) manifest.now.files)) }
{
    let mut names = names_of(alloc, manifest)?;
    names.sort_unstable();
    Ok(ascend(&names))
}
