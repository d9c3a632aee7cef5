//! What was validated, together with its content or alone.

ghost use Rattle.std.specs.Prelude.{◌≡◌};
ghost use Rattle.objects_valid.specs.Together.{joined, joined_if, parted};

use certs_verify::{ResourceCert, ValidationError};

/// The certificate with the content; else the error.
pub(crate) fn join<T: Drop>(
    content: T,
    validated: Result<ResourceCert, ValidationError>,
) -> Result<(ResourceCert, T), ValidationError>
    ensures { result ≡ joined content validated }
{
    match validated {
        Ok(holder) => Ok((holder, content)),
        Err(error) => {
            drop(content);
            Err(error)
        }
    }
}

/// The certificate with the content, where a test after passed; else that test's error.
pub(crate) fn join_if<T: Drop>(
    holder: ResourceCert,
    content: T,
    tested: Result<(), ValidationError>,
) -> Result<(ResourceCert, T), ValidationError>
    ensures { result ≡ joined_if holder content tested }
{
    match tested {
        Ok(()) => Ok((holder, content)),
        Err(error) => {
            drop(holder);
            drop(content);
            Err(error)
        }
    }
}

/// The certificate, with the content let go; else the error.
pub(crate) fn part<T: Drop>(
    validated: Result<(ResourceCert, T), ValidationError>,
) -> Result<ResourceCert, ValidationError>
    ensures { result ≡ parted validated }
{
    match validated {
        Ok((holder, content)) => {
            drop(content);
            Ok(holder)
        }
        Err(error) => Err(error),
    }
}
