//! Values that are held while another one is read.

ghost use Rattle.std.specs.Prelude.{◌≡◌, Err, IfErr, IfOk, Ok};

/// The value with what was read after it. Where that was refused the value is dropped here, so that
/// `let (a, b) = beside(a, take_b(cons))?;` holds none when it leaves.
pub fn with_value<T: Drop, R, E>(value: T, read: Result<R, E>) -> Result<(T, R), E>
    ensures ok { IfOk result (λ both. (both.0 ≡ value) × (read ≡ Ok both.1)) }
    ensures err { IfErr result (λ error. read ≡ Err error) }
{
    match read {
        Ok(next) => Ok((value, next)),
        Err(error) => {
            drop(value);
            Err(error)
        }
    }
}
