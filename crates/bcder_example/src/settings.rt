//! A field that is tested, one with a default, and a rest that is passed over.

ghost use Rattle.std.specs.Prelude.{◌≡◌, OnErr, true};
ghost use Rattle.bcder_example.specs.bcder_tree.Tags.{sequence_tag};
ghost use Rattle.bcder_example.specs.bcder_content.Exact.{ReadsAs};
ghost use Rattle.bcder_example.specs.bcder_content.Grammar.{Inside};
ghost use Rattle.bcder_example.specs.bcder_content.Here.{here};
ghost use Rattle.bcder_example.specs.bcder_content.InMode.{ReadsFields};
ghost use Rattle.bcder_example.specs.Settings.{IsSettingsBody, settings_fields};

use bcder::decode::{Constructed, ContentError, DecodeError, Source};
use std::alloc::Global;

/// `Settings ::= SEQUENCE { format INTEGER (0), level INTEGER DEFAULT 3, ... }`
#[derive(Debug, Drop)]
pub struct Settings {
    /// The format, which is 0.
    pub format: u8,
    /// A number up to 255.
    pub level: u8,
}

// The fields of settings, and anything after them.
fn take_settings_fields<S: Source>(
    alloc: Global,
    cons: &mut Constructed<S>,
) -> Result<Settings, DecodeError<S::Error>>
    ensures { ReadsFields settings_fields IsSettingsBody
        (here S.rest cons.old) result (here S.rest cons.new) }
{
    let format = cons.take_u8()?;
    if format != 0 {
        return Err(cons.content_err(ContentError::from_static("a format other than 0")));
    }
    let level = cons.take_opt_u8()?.unwrap_or(3);
    cons.skip_all(alloc)?;
    Ok(Settings { format, level })
}

/// A field that is tested, one with a default, and anything after them.
pub fn take_settings<S: Source>(
    alloc: Global,
    cons: &mut Constructed<S>,
) -> Result<Settings, DecodeError<S::Error>>
    ensures reads { ReadsAs settings_fields
        (Inside sequence_tag (IsSettingsBody (here S.rest cons.old).mode)) (here S.rest cons.old)
        result (here S.rest cons.new) }
    ensures failed { OnErr result ((here S.rest cons.new).failed ≡ true) }
{
    cons.take_sequence(
        |cons|
            ensures { ReadsFields settings_fields IsSettingsBody
                (here S.rest cons.old) result (here S.rest cons.new) }
        { take_settings_fields(alloc, cons) },
    )
}
