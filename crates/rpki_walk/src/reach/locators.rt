//! Whether locators name one of the URIs.

ghost use Rattle.std.specs.Prelude.{◌↔◌, ◌<◌, IsTrue, IfOk, length};
ghost use Rattle.rpki_rules.specs.Reach.{SomeLocatorNames};
ghost use Rattle.rpki_walk.specs.Repository.{locator_at};
ghost use Rattle.rpki_walk.specs.Naming.{LocatorNames};

use crate::reach::keys::{Wanted, names_any};
use crate::reach::naming::Naming;
use std::alloc::{AllocError, Global};

// Whether the locator at that place reads and names one of the URIs.
fn locator_names<S: Naming>(
    alloc: Global,
    repository: &S,
    wanted: &Wanted<'_>,
    at: usize,
) -> Result<bool, AllocError>
    requires { at < length (S.world repository.now).locators }
    ensures { IfOk result
        (λ b. IsTrue b ↔ LocatorNames wanted.now (locator_at (S.world repository.now) at)) }
{
    match repository.locator_keys(alloc, at)? {
        Some(keys) => Ok(names_any(wanted, &keys)),
        None => Ok(false),
    }
}

/// Whether a locator that reads names one of the URIs.
pub(crate) fn some_locator_names<S: Naming>(
    alloc: Global,
    repository: &S,
    wanted: &Wanted<'_>,
) -> Result<bool, AllocError>
    ensures { IfOk result (λ b. IsTrue b ↔ SomeLocatorNames wanted.now (S.world repository.now)) }
{
    for at in 0..repository.locator_count() {
        if locator_names(alloc, repository, wanted, at)? {
            return Ok(true);
        }
    }
    Ok(false)
}
