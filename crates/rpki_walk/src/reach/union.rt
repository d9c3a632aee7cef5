//! The union of many sets.

ghost use Rattle.std.specs.Prelude.{IfOk};
ghost use Rattle.rpki_walk.specs.Gathered.{AreUnionOf};

use resources::set::ResourceSet;
use std::alloc::{AllocError, Global};

/// The numbers of all the sets, half of them joined to half, so that no set is walked over more often than their number
/// has binary digits.
pub(crate) fn union_of(alloc: Global, sets: &[ResourceSet]) -> Result<ResourceSet, AllocError>
    ensures { IfOk result (AreUnionOf sets.now) }
{
    match sets {
        [] => {
            let none = ResourceSet::empty();
            none.union(alloc, &none)
        }
        [one] => one.union(alloc, one),
        _ => {
            let (front, rest) = sets.split_at(sets.len() / 2);
            let one = union_of(alloc, front)?;
            let other = union_of(alloc, rest)?;
            one.union(alloc, &other)
        }
    }
}
