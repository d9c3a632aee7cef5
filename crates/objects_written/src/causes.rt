//! Why nothing is signed, where something can't be written.

ghost use Rattle.std.specs.Prelude.{◌≡◌};
ghost use Rattle.objects_written.specs.Refusing.{told_as};

use certs_key::SigningError;
use certs_key::encode::EncodeError;

/// What a refusal to write is to whoever signs: lack of memory, and else `TooLong`.
pub fn unwritten<E>(error: EncodeError) -> SigningError<E>
    ensures { result ≡ told_as error }
{
    match error {
        EncodeError::Memory => SigningError::Memory,
        _ => SigningError::TooLong,
    }
}
