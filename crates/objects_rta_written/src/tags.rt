//! The tag [1], around values that are written.

ghost use Rattle.objects_written.specs.bcder_tree.Tags.{context};
ghost use Rattle.objects_written.specs.bcder_values.Wraps.{wrapped_one, wrapped_spelled};
ghost use Rattle.objects_written.specs.bcder_primitive.Encoded.{IsWrapped, WritesWrapped};

use certs::written::{EncodeError, Mode, Values};
use certs_key::Tag;
use certs_key::encode::Constructed;
use std::io::Write;

/// The values in a constructed value with the tag [1].
#[derive(Drop)]
pub struct Context1<V>(pub V);

impl<V: Values> Values for Context1<V> {
    ghost trees = { λ x m. IsWrapped (context 1) (V.trees x.0 m) };

    ghost writes = { λ x m. WritesWrapped m (context 1) (V.writes x.0 m) };

    fn encoded_len(&self, mode: Mode) -> Result<usize, EncodeError> {
        let value = Constructed {
            tag: Tag::CTX_1,
            inner: &self.0,
        };
        value.encoded_len(mode)
    }

    fn write_encoded<W: Write>(&self, mode: Mode, target: &mut W) -> Result<(), EncodeError> {
        let value = Constructed {
            tag: Tag::CTX_1,
            inner: &self.0,
        };
        value.write_encoded(mode, target)
    }

    ghost spelled = { λ x m. wrapped_spelled m (V.spelled x.0 m) };

    ghost one_text = { λ x m. wrapped_one m (V.one_text x.0 m) };
}
