//! The algorithms of keys.

ghost use Rattle.std.specs.Prelude.{◌≡◌, OnErr, true};
ghost use Rattle.certs_key.specs.bcder_content.Exact.{ReadsAs};
ghost use Rattle.certs_key.specs.bcder_content.Here.{here};
ghost use Rattle.certs_key.specs.bcder_content.InMode.{ReadsFields};
ghost use Rattle.certs_key.specs.certs_basics.Keys.{IsFormat, IsFormatBody};

use crate::algorithm::decode::{Constructed, ContentError, DecodeError, Source};
use crate::algorithm::{Oid, PublicKeyFormat};
use certs_name::oid::{EC_PUBLIC_KEY, RSA_ENCRYPTION, SECP256R1};
use std::alloc::Global;

// The fields of an algorithm's identifier: rsaEncryption with NULL or nothing after it, or ecPublicKey with secp256r1.
fn take_format_fields<S: Source>(
    alloc: Global,
    cons: &mut Constructed<S>,
) -> Result<PublicKeyFormat, DecodeError<S::Error>>
    ensures { ReadsFields (λ f. f) (λ m. IsFormatBody)
        (here S.rest cons.old) result (here S.rest cons.new) }
{
    let kind = Oid::take_from(alloc, cons)?;
    if kind.equals(&RSA_ENCRYPTION) {
        let _null = cons.take_opt_null()?;
        return Ok(PublicKeyFormat::Rsa);
    }
    if kind.equals(&EC_PUBLIC_KEY) {
        let _curve = SECP256R1.skip_if(cons)?;
        return Ok(PublicKeyFormat::Ecdsa);
    }
    Err(cons.content_err(ContentError::from_static("another key algorithm")))
}

/// The next value, the algorithm of a key; another is refused.
pub(crate) fn take_format<S: Source>(
    alloc: Global,
    cons: &mut Constructed<S>,
) -> Result<PublicKeyFormat, DecodeError<S::Error>>
    ensures reads { ReadsAs (λ f. f) IsFormat
        (here S.rest cons.old) result (here S.rest cons.new) }
    ensures failed { OnErr result ((here S.rest cons.new).failed ≡ true) }
{
    cons.take_sequence(
        |cons|
            ensures { ReadsFields (λ f. f) (λ m. IsFormatBody)
                (here S.rest cons.old) result (here S.rest cons.new) }
        { take_format_fields(alloc, cons) },
    )
}
