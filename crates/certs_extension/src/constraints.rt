//! Basic constraints (RFC 6487 4.8.1).

ghost use Rattle.std.specs.Prelude.{◌≡◌, ◌≢◌, true, IfErr, OnErr};
ghost use Rattle.certs_extension.specs.bcder_source.declared.error.DecodeError.TheVariants.{Memory};
ghost use Rattle.certs_extension.specs.bcder_content.Exact.{ReadsAs};
ghost use Rattle.certs_extension.specs.bcder_content.Here.{here};
ghost use Rattle.certs_extension.specs.bcder_content.InMode.{ReadsFields};
ghost use Rattle.certs_extension.specs.Values.{AreConstraints, IsConstraintsBody, alone};

use certs_key::decode::{Constructed, DecodeError, Source};

// The field of basic constraints. FALSE may be written out.
fn take_fields<S: Source>(cons: &mut Constructed<S>) -> Result<bool, DecodeError<S::Error>>
    ensures reads { ReadsFields alone IsConstraintsBody
        (here S.rest cons.old) result (here S.rest cons.new) }
    ensures no_memory { IfErr result (λ e. e ≢ Memory) }
{
    let ca = cons.take_opt_bool()?.unwrap_or(false);
    Ok(ca)
}

/// Whether the subject is an authority: `SEQUENCE { cA BOOLEAN DEFAULT FALSE }`, without a path length
/// (RFC 6487 4.8.1). It takes no memory.
pub fn take_basic_constraints<S: Source>(
    cons: &mut Constructed<S>,
) -> Result<bool, DecodeError<S::Error>>
    ensures reads { ReadsAs (λ b. b) (AreConstraints (here S.rest cons.old).mode)
        (here S.rest cons.old) result (here S.rest cons.new) }
    ensures failed { OnErr result ((here S.rest cons.new).failed ≡ true) }
    ensures no_memory { IfErr result (λ e. e ≢ Memory) }
{
    cons.take_sequence(
        |cons|
            ensures reads { ReadsFields alone IsConstraintsBody
                (here S.rest cons.old) result (here S.rest cons.new) }
            ensures no_memory { IfErr result (λ e. e ≢ Memory) }
        { take_fields(cons) },
    )
}
