//! Identifiers of keys in extensions (RFC 6487 4.8.2, 4.8.3).

ghost use Rattle.std.specs.Prelude.{◌≡◌, true, OnErr};
ghost use Rattle.certs_extension.specs.bcder_tree.Tags.{context};
ghost use Rattle.certs_extension.specs.bcder_content.Exact.{ReadsAs};
ghost use Rattle.certs_extension.specs.bcder_content.Here.{here};
ghost use Rattle.certs_extension.specs.bcder_content.InMode.{ReadsFields};
ghost use Rattle.certs_extension.specs.bcder_content.Tagged.{ReadsTagged};
ghost use Rattle.certs_extension.specs.certs_basics.Basics.{IsKeyIdentifier};
ghost use Rattle.certs_extension.specs.Values.{IsAuthority, IsAuthorityBody, alone};

use certs_key::decode::{Constructed, DecodeError, Source};
use certs_key::{KeyIdentifier, Tag};
use std::alloc::Global;

// The identifier of the issuer's key, with the tag [0].
fn take_tagged<S: Source>(
    alloc: Global,
    cons: &mut Constructed<S>,
) -> Result<KeyIdentifier, DecodeError<S::Error>>
    ensures { ReadsAs (λ v. v) (IsKeyIdentifier (here S.rest cons.old).mode (context 0))
        (here S.rest cons.old) result (here S.rest cons.new) }
{
    cons.take_value_if(
        Tag::CTX_0,
        |content|
            ensures { ReadsTagged S.rest (λ v. v) IsKeyIdentifier content.old result content.new }
        { KeyIdentifier::from_content(alloc, content) },
    )
}

// The only field of an authority key identifier.
fn take_fields<S: Source>(
    alloc: Global,
    cons: &mut Constructed<S>,
) -> Result<KeyIdentifier, DecodeError<S::Error>>
    ensures { ReadsFields alone IsAuthorityBody
        (here S.rest cons.old) result (here S.rest cons.new) }
{
    let identifier = take_tagged(alloc, cons)?;
    Ok(identifier)
}

/// The identifier of the issuer's key: `SEQUENCE { keyIdentifier [0] IMPLICIT KeyIdentifier }`, 20 octets and no other
/// field (RFC 6487 4.8.3). A subject key identifier is read by `KeyIdentifier::take_from` (4.8.2).
pub fn take_authority_key_identifier<S: Source>(
    alloc: Global,
    cons: &mut Constructed<S>,
) -> Result<KeyIdentifier, DecodeError<S::Error>>
    ensures reads { ReadsAs (λ v. v) (IsAuthority (here S.rest cons.old).mode)
        (here S.rest cons.old) result (here S.rest cons.new) }
    ensures failed { OnErr result ((here S.rest cons.new).failed ≡ true) }
{
    cons.take_sequence(
        |cons|
            ensures { ReadsFields alone IsAuthorityBody
                (here S.rest cons.old) result (here S.rest cons.new) }
        { take_fields(alloc, cons) },
    )
}
