//! Where the issuer's certificate is found (RFC 6487 4.8.7).

ghost use Rattle.std.specs.Prelude.{◌≡◌, OnErr, true};
ghost use Rattle.certs_extension.specs.bcder_content.Exact.{ReadsAs};
ghost use Rattle.certs_extension.specs.bcder_content.Grammar.{End, Then};
ghost use Rattle.certs_extension.specs.bcder_content.Here.{here};
ghost use Rattle.certs_extension.specs.bcder_content.InMode.{ReadsFields};
ghost use Rattle.certs_extension.specs.Grammars.{IsAuthority, IsIssuer, IsIssuerBody, issuer_fields, one_field};

use crate::access::names::take_one_rsync;
use certs_basics::decode::{Constructed, DecodeError, Source};
use certs_basics::oid::AD_CA_ISSUERS;
use certs_basics::uri::Rsync;
use std::alloc::Global;

// The fields of an access description.
fn take_issuer<S: Source>(
    alloc: Global,
    cons: &mut Constructed<S>,
) -> Result<Rsync, DecodeError<S::Error>>
    ensures { ReadsFields issuer_fields IsIssuerBody (here S.rest cons.old) result
        (here S.rest cons.new) }
{
    AD_CA_ISSUERS.skip_if(cons)?;
    let uri = take_one_rsync(alloc, cons)?;
    Ok(uri)
}

// All access descriptions, of which there is one.
fn take_issuers<S: Source>(
    alloc: Global,
    cons: &mut Constructed<S>,
) -> Result<Rsync, DecodeError<S::Error>>
    ensures { ReadsFields one_field (λ m. Then (IsIssuer m) End)
        (here S.rest cons.old) result (here S.rest cons.new) }
{
    let uri = cons.take_sequence(
        |cons|
            ensures { ReadsFields issuer_fields IsIssuerBody
                (here S.rest cons.old) result (here S.rest cons.new) }
        { take_issuer(alloc, cons) },
    )?;
    Ok(uri)
}

/// The rsync URI of authorityInfoAccess: one access description, of caIssuers, with names of which one, and one alone,
/// is an rsync URI (RFC 6487 4.8.7).
pub fn take_authority_access<S: Source>(
    alloc: Global,
    cons: &mut Constructed<S>,
) -> Result<Rsync, DecodeError<S::Error>>
    ensures reads { ReadsAs (λ uri. uri) (IsAuthority (here S.rest cons.old).mode)
        (here S.rest cons.old) result (here S.rest cons.new) }
    ensures failed { OnErr result ((here S.rest cons.new).failed ≡ true) }
{
    cons.take_sequence(
        |cons|
            ensures { ReadsFields one_field (λ m. Then (IsIssuer m) End)
                (here S.rest cons.old) result (here S.rest cons.new) }
        { take_issuers(alloc, cons) },
    )
}
