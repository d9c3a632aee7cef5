//! Constructed values.

ghost use Rattle.bcder_values.specs.bcder_tree.Tags.{IsTag};
ghost use Rattle.bcder_values.specs.bcder_tree.Sequences.{sequence_tag};
ghost use Rattle.bcder_values.specs.bcder_tree.Tags.{set_tag};
ghost use Rattle.bcder_values.specs.bcder_primitive.Encoded.{IsWrapped, WritesWrapped};
ghost use Rattle.bcder_values.specs.Wraps.{wrapped_spelled, wrapped_one};
ghost use Rattle.std.specs.Prelude.{◌≡◌};

use crate::Values;
use crate::bcder_tree::{Mode, Tag};
use crate::frame::{closing_len, opening_len, put_closing, put_opening};
use bcder_content::bcder_primitive::written::EncodeError;
use bcder_content::bcder_primitive::written::header::MAX_LEN;
use std::io::Write;

/// A constructed value (X.690 8.1.2.5) around values: in BER and DER of definite length, in CER of indefinite.
#[derive(Drop)]
pub struct Constructed<V> {
    /// The tag of the value.
    pub tag: Tag,
    /// The values in it.
    pub inner: V,
    ghost is_tag: { IsTag tag },
}

impl<V> Constructed<V> {
    /// A constructed value with that tag, around those values.
    pub fn new(tag: Tag, inner: V) -> Constructed<V>
        requires { IsTag tag }
        ensures tag { result.tag ≡ tag }
        ensures inner { result.inner ≡ inner }
    {
        Constructed { tag, inner }
    }
}

/// A SEQUENCE (X.690 8.9, 8.10).
pub fn sequence<V>(inner: V) -> Constructed<V>
    ensures tag { result.tag ≡ sequence_tag }
    ensures inner { result.inner ≡ inner }
{
    Constructed {
        tag: Tag::SEQUENCE,
        inner,
    }
}

/// A SEQUENCE with an implicit tag (8.14).
pub fn sequence_as<V>(tag: Tag, inner: V) -> Constructed<V>
    requires { IsTag tag }
    ensures tag { result.tag ≡ tag }
    ensures inner { result.inner ≡ inner }
{
    Constructed { tag, inner }
}

/// A SET (X.690 8.11, 8.12), whose values are written in their order.
pub fn set<V>(inner: V) -> Constructed<V>
    ensures tag { result.tag ≡ set_tag }
    ensures inner { result.inner ≡ inner }
{
    Constructed {
        tag: Tag::SET,
        inner,
    }
}

/// A SET with an implicit tag (8.14), whose values are written in their order.
pub fn set_as<V>(tag: Tag, inner: V) -> Constructed<V>
    requires { IsTag tag }
    ensures tag { result.tag ≡ tag }
    ensures inner { result.inner ≡ inner }
{
    Constructed { tag, inner }
}

impl<V: Values> Values for Constructed<V> {
    ghost trees = { λ x m. IsWrapped x.tag (V.trees x.inner m) };

    ghost writes = { λ x m. WritesWrapped m x.tag (V.writes x.inner m) };

    fn encoded_len(&self, mode: Mode) -> Result<usize, EncodeError> {
        let content = self.inner.encoded_len(mode)?;
        if content > MAX_LEN {
            return Err(EncodeError::TooLong);
        }
        Ok(opening_len(mode, self.tag, content) + content + closing_len(mode))
    }

    fn write_encoded<W: Write>(&self, mode: Mode, target: &mut W) -> Result<(), EncodeError> {
        let content = self.inner.encoded_len(mode)?;
        if content > MAX_LEN {
            return Err(EncodeError::TooLong);
        }
        put_opening(target, mode, self.tag, content)?;
        self.inner.write_known(mode, target)?;
        put_closing(target, mode)
    }

    ghost spelled = { λ x m text w. wrapped_spelled m (V.spelled x.inner m) text w };

    ghost one_text = { λ x m a b. wrapped_one m (V.one_text x.inner m) a b };
}
