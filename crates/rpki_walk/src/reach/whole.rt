//! What is reached from some URIs.

ghost use Rattle.std.specs.Prelude.{◌≡◌, IfOk};
ghost use Rattle.rpki_rules.specs.Reach.{IsReach};
ghost use Rattle.rpki_walk.specs.Naming.{answer_of};

use crate::reach::answer::Reach;
use crate::reach::gather::Gatherer;
use crate::reach::keys::Wanted;
use crate::reach::locators::some_locator_names;
use crate::reach::naming::Naming;
use crate::reach::union::union_of;
use crate::walk_all;
use bytes::Bytes;
use std::alloc::{AllocError, Global};

/// `Locator` exactly where a locator that reads names one of the URIs, held or not; else the union of what the accepted
/// chains hold whose last certificate names one. URIs are compared by lookup key, so a text that is no URI names nothing.
pub fn reach<S: Naming>(
    alloc: Global,
    repository: &mut S,
    uris: &[Bytes],
) -> Result<Reach, AllocError>
    ensures reach { IfOk result (λ r. IsReach uris.now (S.world repository.old) (answer_of r)) }
    ensures same { S.world repository.new ≡ S.world repository.old }
    ensures lender { S.lender repository.new ≡ S.lender repository.old }
{
    let wanted = Wanted::new(alloc, uris)?;
    if some_locator_names(alloc, repository, &wanted)? {
        return Ok(Reach::Locator);
    }
    let mut found = Gatherer {
        wanted: &wanted,
        sets: Vec::new(alloc),
    };
    walk_all(alloc, repository, &mut found)?;
    let union = union_of(alloc, &found.sets)?;
    Ok(Reach::Held(union))
}
