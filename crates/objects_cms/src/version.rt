//! Versions of contents that have a default (RFC 9286 4.2, RFC 9323 4).

ghost use Rattle.std.specs.Prelude.{◌≡◌, ◌≢◌, IfErr, OnErr, true};
ghost use Rattle.objects_cms.specs.bcder_tree.Tags.{context};
ghost use Rattle.objects_cms.specs.bcder_source.declared.error.DecodeError.TheVariants.{Memory};
ghost use Rattle.objects_cms.specs.bcder_content.Exact.{ReadsOptAs};
ghost use Rattle.objects_cms.specs.bcder_content.Here.{here};
ghost use Rattle.objects_cms.specs.bcder_content.InMode.{ReadsFields};
ghost use Rattle.objects_payload.specs.Contents.{IsVersion};
ghost use Rattle.objects_cms.specs.Said.{alone};
ghost use Rattle.objects_cms.specs.Versions.{IsNumber};

use certs_key::Tag;
use certs_key::decode::{Constructed, DecodeError, Source};

// The number of the version.
fn take_number<S: Source>(
    cons: &mut Constructed<S>,
    version: u8,
) -> Result<(), DecodeError<S::Error>>
    ensures reads { ReadsFields alone (IsNumber version)
        (here S.rest cons.old) result (here S.rest cons.new) }
    ensures no_memory { IfErr result (λ e. e ≢ Memory) }
{
    let number = cons.skip_u8_if(version)?;
    Ok(number)
}

/// The version, if it is written out: `[0] EXPLICIT INTEGER` of that number. Where a value with that tag is next, it is the
/// version, or it is refused.
pub fn take_opt_version<S: Source>(
    cons: &mut Constructed<S>,
    version: u8,
) -> Result<Option<()>, DecodeError<S::Error>>
    ensures reads { ReadsOptAs alone (context 0) (IsVersion version)
        (here S.rest cons.old) result (here S.rest cons.new) }
    ensures failed { OnErr result ((here S.rest cons.new).failed ≡ true) }
    ensures no_memory { IfErr result (λ e. e ≢ Memory) }
{
    cons.take_opt_constructed_if(
        Tag::CTX_0,
        |cons|
            ensures reads { ReadsFields alone (IsNumber version)
                (here S.rest cons.old) result (here S.rest cons.new) }
            ensures no_memory { IfErr result (λ e. e ≢ Memory) }
        { take_number(cons, version) },
    )
}
