//! Where the revocation list is found (RFC 6487 4.8.6).

ghost use Rattle.std.specs.Prelude.{◌≡◌, OnErr, true};
ghost use Rattle.certs_extension.specs.bcder_content.Exact.{ReadsAs};
ghost use Rattle.certs_extension.specs.bcder_content.Grammar.{End, Then};
ghost use Rattle.certs_extension.specs.bcder_content.Here.{here};
ghost use Rattle.certs_extension.specs.bcder_content.InMode.{ReadsFields};
ghost use Rattle.certs_extension.specs.Grammars.{HaveOneRsync, IsDistribution, IsFullName, IsPoint, IsPointName, one_field};

use crate::access::names::take_one_rsync;
use certs_basics::Tag;
use certs_basics::decode::{Constructed, DecodeError, Source};
use certs_basics::uri::Rsync;
use std::alloc::Global;

// The full name of a distribution point.
fn take_full_name<S: Source>(
    alloc: Global,
    cons: &mut Constructed<S>,
) -> Result<Rsync, DecodeError<S::Error>>
    ensures { ReadsFields one_field (λ m. Then (IsFullName m) End)
        (here S.rest cons.old) result (here S.rest cons.new) }
{
    let uri = cons.take_constructed_if(
        Tag::CTX_0,
        |cons|
            ensures { ReadsFields (λ uri. uri) HaveOneRsync (here S.rest cons.old) result
                (here S.rest cons.new) }
        { take_one_rsync(alloc, cons) },
    )?;
    Ok(uri)
}

// The fields of a distribution point.
fn take_point<S: Source>(
    alloc: Global,
    cons: &mut Constructed<S>,
) -> Result<Rsync, DecodeError<S::Error>>
    ensures { ReadsFields one_field (λ m. Then (IsPointName m) End)
        (here S.rest cons.old) result (here S.rest cons.new) }
{
    let uri = cons.take_constructed_if(
        Tag::CTX_0,
        |cons|
            ensures { ReadsFields one_field (λ m. Then (IsFullName m) End)
                (here S.rest cons.old) result (here S.rest cons.new) }
        { take_full_name(alloc, cons) },
    )?;
    Ok(uri)
}

// All distribution points, of which there is one.
fn take_points<S: Source>(
    alloc: Global,
    cons: &mut Constructed<S>,
) -> Result<Rsync, DecodeError<S::Error>>
    ensures { ReadsFields one_field (λ m. Then (IsPoint m) End)
        (here S.rest cons.old) result (here S.rest cons.new) }
{
    let uri = cons.take_sequence(
        |cons|
            ensures { ReadsFields one_field (λ m. Then (IsPointName m) End)
                (here S.rest cons.old) result (here S.rest cons.new) }
        { take_point(alloc, cons) },
    )?;
    Ok(uri)
}

/// The rsync URI of cRLDistributionPoints: one distribution point, with a full name of which one, and one alone, is an
/// rsync URI (RFC 6487 4.8.6).
pub fn take_crl_distribution<S: Source>(
    alloc: Global,
    cons: &mut Constructed<S>,
) -> Result<Rsync, DecodeError<S::Error>>
    ensures reads { ReadsAs (λ uri. uri) (IsDistribution (here S.rest cons.old).mode)
        (here S.rest cons.old) result (here S.rest cons.new) }
    ensures failed { OnErr result ((here S.rest cons.new).failed ≡ true) }
{
    cons.take_sequence(
        |cons|
            ensures { ReadsFields one_field (λ m. Then (IsPoint m) End)
                (here S.rest cons.old) result (here S.rest cons.new) }
        { take_points(alloc, cons) },
    )
}
