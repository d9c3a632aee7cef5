//! Claims against what is held.

ghost use Rattle.std.specs.Prelude.{IfOk, IfNone, IfSome};
ghost use Rattle.example_resources.specs.resources.Resources.{AreInside, Combines};
ghost use Rattle.example_resources.specs.resources_chain.Sets.{InFirstOnly};

use resources::ResourceSet;
use std::alloc::{AllocError, Global};

/// The numbers that are claimed and not held; none where all that are claimed are held.
pub fn outside(
    alloc: Global,
    held: &ResourceSet,
    claimed: &ResourceSet,
) -> Result<Option<ResourceSet>, AllocError>
    ensures inside { IfOk result (λ found. IfNone found (AreInside claimed.now held.now)) }
    ensures outside { IfOk result
        (λ found. IfSome found (λ set. AreInside claimed.now held.now → ⊥)) }
    ensures set { IfOk result
        (λ found. IfSome found (λ set. Combines InFirstOnly claimed.now held.now set)) }
{
    if held.contains(claimed) {
        return Ok(None);
    }
    let changes = claimed.difference(alloc, held)?;
    Ok(Some(changes.added().clone()?))
}
