//! Strings whose content is what other values are written as.

ghost use Rattle.std.specs.Prelude.{◌≡◌, ◌≢◌, ◌^◌, ◌<◌, IfOk, IfErr, OnOk, IsErrAnd};
ghost use Rattle.bcder_octets.specs.bcder_tree.declared.mode.Mode.TheVariants.{Cer};
ghost use Rattle.bcder_octets.specs.bcder_tree.Tags.{IsTag};
ghost use Rattle.bcder_octets.specs.bcder_tree.Strings.{octet_string_tag};
ghost use Rattle.bcder_octets.specs.Wrapping.{IsAround, WritesAround, around_spelled, around_one};
ghost use Rattle.bcder_octets.specs.bcder_primitive.Writing.{HasLength, Wrote, CannotWrite, WriteRefused};
ghost use Rattle.bcder_octets.specs.bcder_primitive.declared.written.error.EncodeError.TheVariants.{CerUnsupported as cer_unsupported};

use crate::bcder_source::{Mode, Tag};
use crate::string::OctetString;
use bcder_values::header::{MAX_LEN, header_len, put_header};
use bcder_values::{EncodeError, Values};
use std::io::Write;

/// An OCTET STRING whose content is what values are written as, in a mode of their own (X.690 8.7).
///
/// In BER and DER it is primitive. In CER it is refused as `CerUnsupported`, whatever it holds, since it isn't cut
/// into segments (9.2). Where the values are refused in their mode, so is the string. `TooLong` where its content has
/// more than 2^32 - 1 octets.
#[derive(Drop)]
pub struct WrappingOctetStringEncoder<V> {
    /// The mode of the values.
    pub mode: Mode,
    /// The values in the string.
    pub values: V,
    /// The tag of the string.
    pub tag: Tag,
    ghost is_tag: { IsTag tag },
}

impl<V: Values> WrappingOctetStringEncoder<V> {
    // How many octets the content has, where the string is written in that mode.
    fn content_len(&self, mode: Mode) -> Result<usize, EncodeError>
        ensures len { IfOk result (HasLength (V.writes self.now.values self.now.mode)) }
        ensures few { IfOk result (λ n. n < 2 ^ 32) }
        ensures not_cer { IfOk result (λ n. mode ≢ Cer) }
        ensures refused { IfErr result
            (CannotWrite (IsAround mode self.now.tag (V.writes self.now.values self.now.mode))
            (WritesAround mode self.now.tag (V.writes self.now.values self.now.mode))) }
        ensures in_cer { mode ≡ Cer → IsErrAnd result (λ e. e ≡ cer_unsupported) }
    {
        if mode == Mode::Cer {
            return Err(EncodeError::CerUnsupported);
        }
        let content = self.values.encoded_len(self.mode)?;
        if content > MAX_LEN {
            return Err(EncodeError::TooLong);
        }
        Ok(content)
    }
}

impl<V: Values> Values for WrappingOctetStringEncoder<V> {
    ghost trees = { λ x m. IsAround m x.tag (V.writes x.values x.mode) };

    ghost writes = { λ x m. WritesAround m x.tag (V.writes x.values x.mode) };

    fn encoded_len(&self, mode: Mode) -> Result<usize, EncodeError>
        ensures len { IfOk result
            (HasLength (WritesAround mode self.now.tag (V.writes self.now.values self.now.mode))) }
        ensures refused { IfErr result
            (CannotWrite (IsAround mode self.now.tag (V.writes self.now.values self.now.mode))
            (WritesAround mode self.now.tag (V.writes self.now.values self.now.mode))) }
        ensures in_cer { mode ≡ Cer → IsErrAnd result (λ e. e ≡ cer_unsupported) }
    {
        let content = self.content_len(mode)?;
        Ok(header_len(self.tag, false, content) + content)
    }

    fn write_encoded<W: Write>(&self, mode: Mode, target: &mut W) -> Result<(), EncodeError>
        ensures written { OnOk result
            (Wrote (WritesAround mode self.now.tag (V.writes self.now.values self.now.mode))
            (W.contents target.old) (W.contents target.new)) }
        ensures refused { IfErr result
            (WriteRefused (IsAround mode self.now.tag (V.writes self.now.values self.now.mode))
            (WritesAround mode self.now.tag (V.writes self.now.values self.now.mode))
            (target.new ≡ target.old) (W.contents target.old) (W.contents target.new)) }
        ensures in_cer { mode ≡ Cer → IsErrAnd result (λ e. e ≡ cer_unsupported) }
    {
        let content = self.content_len(mode)?;
        put_header(target, self.tag, false, content)?;
        self.values.write_encoded(self.mode, target)
    }

    ghost spelled = { λ x m text w. around_spelled m text w };

    ghost one_text = { λ x m a b. around_one m (V.one_text x.values x.mode) a b };
}

/// Strings around values.
impl OctetString {
    /// An OCTET STRING whose content is the values, written in that mode.
    pub fn encode_wrapped<V>(mode: Mode, values: V) -> WrappingOctetStringEncoder<V>
        ensures mode { result.mode ≡ mode }
        ensures values { result.values ≡ values }
        ensures tag { result.tag ≡ octet_string_tag }
    {
        WrappingOctetStringEncoder {
            mode,
            values,
            tag: Tag::OCTET_STRING,
        }
    }

    /// Wraps values under an implicit tag (X.690 8.14).
    pub fn encode_wrapped_as<V>(mode: Mode, values: V, tag: Tag) -> WrappingOctetStringEncoder<V>
        requires { IsTag tag }
        ensures mode { result.mode ≡ mode }
        ensures values { result.values ≡ values }
        ensures tag { result.tag ≡ tag }
    {
        WrappingOctetStringEncoder { mode, values, tag }
    }
}
