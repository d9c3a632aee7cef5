//! Lists of key identifiers.

ghost use Rattle.std.specs.Prelude.{◌↔◌, All, IfOk, IsTrue, MatchOption};
ghost use Rattle.objects_rta_valid.specs.Keys.{AreSame, IsOnceEach};
ghost use Rattle.objects_rta_valid.specs.Nodes.{each_octets};
ghost use Rattle.objects_rta_valid.specs.Tables.{IsSetOf, holds};

use std::alloc::{AllocError, Global};
use std::collections::BTreeSet;

// The set of the identifiers; none where one occurs twice.
fn set_of<'a>(alloc: Global, keys: &[&'a [u8]]) -> Result<Option<BTreeSet<&'a [u8]>>, AllocError>
    ensures { IfOk result (λ set. MatchOption set (IsOnceEach (each_octets keys.now) → ⊥)
        (IsSetOf (each_octets keys.now))) }
{
    let mut set = BTreeSet::new(alloc);
    for key in keys {
        if !set.insert(*key)? {
            return Ok(None);
        }
    }
    Ok(Some(set))
}

// Whether each of the identifiers is in the set.
fn are_in(keys: &[&[u8]], set: &BTreeSet<&[u8]>) -> bool
    ensures { IsTrue result ↔ All (λ key. IsTrue (holds set.now key)) (each_octets keys.now) }
{
    for key in keys {
        if !set.contains(*key) {
            return false;
        }
    }
    true
}

/// Whether both lists have the same identifiers, in any order, and neither has one twice.
pub fn are_same_keys(alloc: Global, signers: &[&[u8]], keys: &[&[u8]]) -> Result<bool, AllocError>
    ensures { IfOk result (λ same.
        IsTrue same ↔ AreSame (each_octets signers.now) (each_octets keys.now)) }
{
    let Some(of_signers) = set_of(alloc, signers)? else {
        return Ok(false);
    };
    let Some(of_keys) = set_of(alloc, keys)? else {
        return Ok(false);
    };
    Ok(are_in(keys, &of_signers) && are_in(signers, &of_keys))
}
