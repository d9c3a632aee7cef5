//! Values that are kept only where something else is found.

ghost use Rattle.std.specs.Prelude.{◌≡◌, IfOk, MatchOption, None, Ok, Some};

use std::alloc::AllocError;

/// The value with what was found, if something was.
pub(crate) fn keep_with<T: Drop, U: Drop>(
    value: T,
    found: Result<Option<U>, AllocError>,
) -> Result<Option<(T, U)>, AllocError>
    ensures { IfOk result (λ kept. MatchOption kept (found ≡ Ok None)
        (λ p. (p.0 ≡ value) × (found ≡ Ok (Some p.1)))) }
{
    match found? {
        Some(other) => Ok(Some((value, other))),
        None => Ok(None),
    }
}
