//! Primitive values, written.

ghost use Rattle.bcder_values.specs.bcder_primitive.Encoded.{IsPlain, WritesPlain};
ghost use Rattle.bcder_values.specs.Plains.{plain_spelled, plain_one};
ghost use Rattle.bcder_values.specs.bcder_primitive.Writing.{HasLength, Wrote, CannotWrite, WriteRefused};
ghost use Rattle.bcder_values.specs.bcder_primitive.declared.written.error.EncodeError.TheVariants.{CerUnsupported as cer_unsupported};
ghost use Rattle.bcder_values.specs.bcder_tree.declared.mode.Mode.TheVariants.{Cer};
ghost use Rattle.std.specs.Prelude.{◌≡◌, IfOk, IfErr, OnOk};

use crate::Values;
use crate::bcder_tree::Mode;
use bcder_content::bcder_primitive::written::header::{header_len, put_header};
use bcder_content::bcder_primitive::written::{EncodeError, Primitive, PrimitiveContent};
use std::io::Write;

/// A primitive value is refused as `CerUnsupported` in CER alone.
impl<P: PrimitiveContent> Values for Primitive<P> {
    ghost trees = { λ x m. IsPlain x.tag (P.content x.content m) };

    ghost writes = { λ x m. WritesPlain m x.tag (P.content x.content m) };

    fn encoded_len(&self, mode: Mode) -> Result<usize, EncodeError>
        ensures len { IfOk result
            (HasLength (WritesPlain mode self.now.tag (P.content self.now.content mode))) }
        ensures refused { IfErr result
            (CannotWrite (IsPlain self.now.tag (P.content self.now.content mode))
            (WritesPlain mode self.now.tag (P.content self.now.content mode))) }
        ensures in_cer_alone { IfErr result (λ e. e ≡ cer_unsupported → mode ≡ Cer) }
    {
        let content = self.content.encoded_len(mode)?;
        Ok(header_len(self.tag, false, content) + content)
    }

    fn write_encoded<W: Write>(&self, mode: Mode, target: &mut W) -> Result<(), EncodeError>
        ensures written { OnOk result
            (Wrote (WritesPlain mode self.now.tag (P.content self.now.content mode))
            (W.contents target.old) (W.contents target.new)) }
        ensures refused { IfErr result
            (WriteRefused (IsPlain self.now.tag (P.content self.now.content mode))
            (WritesPlain mode self.now.tag (P.content self.now.content mode))
            (target.new ≡ target.old) (W.contents target.old) (W.contents target.new)) }
        ensures in_cer_alone { IfErr result (λ e. e ≡ cer_unsupported → mode ≡ Cer) }
    {
        let content = self.content.encoded_len(mode)?;
        put_header(target, self.tag, false, content)?;
        self.content.write_encoded(mode, target)
    }

    ghost spelled = { λ x m text w. plain_spelled m text w };

    ghost one_text = { λ x m a b. plain_one m (P.one_content x.content m) a b };
}
