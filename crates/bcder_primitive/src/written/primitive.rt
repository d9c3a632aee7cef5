//! Primitive values.

ghost use Rattle.std.specs.Prelude.{◌≡◌, ◌^◌, ◌<◌, ◌≤◌, ℕ, List, IfOk, IfErr, OnOk};
ghost use Rattle.bcder_primitive.specs.bcder_tree.declared.mode.Mode.{Mode as ModeValue};
ghost use Rattle.bcder_primitive.specs.bcder_tree.Tags.{TagValue, IsTag};
ghost use Rattle.bcder_primitive.specs.Contents.{NoContent, ContentRefused, BytesRefused};
ghost use Rattle.bcder_primitive.specs.Writing.{HasLength, Wrote};
ghost use Rattle.bcder_primitive.specs.declared.written.error.EncodeError.TheVariants.{Memory as no_memory};

use crate::bcder_tree::{Mode, Tag};
use crate::written::EncodeError;
use bytes::Bytes;
use std::alloc::Global;
use std::io::Write;

/// The content of primitive values.
///
/// `type_tag` is the tag of its type, and `content` are the content octets in a mode, always the same.
pub trait PrimitiveContent {
    ghost type_tag: { TagValue };

    ghost content: { Self → ModeValue → List ℕ → Type 0 };

    /// The tag of its type.
    fn tag() -> Tag
        ensures { result ≡ type_tag };

    /// How many content octets it has.
    ///
    /// `CerUnsupported` where it has no primitive form in CER, and `TooLong` where it has more than 2^32 - 1.
    fn encoded_len(&self, mode: Mode) -> Result<usize, EncodeError>
        ensures len { IfOk result (HasLength (content self.now mode)) }
        ensures few { IfOk result (λ n. n < 2 ^ 32) }
        ensures refused { IfErr result (NoContent mode (content self.now mode)) };

    /// Writes the content octets.
    ///
    /// Where `encoded_len` refuses, nothing is written. `Write` where the writer refuses, which then has
    /// taken a front of the octets, and not all of them.
    fn write_encoded<W: Write>(&self, mode: Mode, target: &mut W) -> Result<(), EncodeError>
        ensures written { OnOk result
            (Wrote (content self.now mode) (W.contents target.old) (W.contents target.new)) }
        ensures refused { IfErr result
            (ContentRefused mode (content self.now mode) (target.new ≡ target.old)
            (W.contents target.old) (W.contents target.new)) };

    /// The primitive value with its type's tag.
    final fn encode(self) -> Primitive<Self>
    where
        Self: Sized,
        ensures tag { result.tag ≡ type_tag }
        ensures content { result.content ≡ self }
    {
        Primitive {
            tag: Self::tag(),
            content: self,
        }
    }

    /// The primitive value with an implicit tag (X.690 8.14).
    final fn encode_as(self, tag: Tag) -> Primitive<Self>
    where
        Self: Sized,
        requires { IsTag tag }
        ensures tag { result.tag ≡ tag }
        ensures content { result.content ≡ self }
    {
        Primitive { tag, content: self }
    }

    /// Encodes the borrowed value, as `encode` does.
    final fn encode_ref(&self) -> Primitive<&Self>
    where
        Self: Sized,
        ensures tag { result.tag ≡ type_tag }
        ensures content { result.content.now ≡ self.now }
    {
        Primitive {
            tag: Self::tag(),
            content: self,
        }
    }

    /// Encodes the borrowed value under a tag, as `encode_as` does.
    final fn encode_ref_as(&self, tag: Tag) -> Primitive<&Self>
    where
        Self: Sized,
        requires { IsTag tag }
        ensures tag { result.tag ≡ tag }
        ensures content { result.content.now ≡ self.now }
    {
        Primitive { tag, content: self }
    }

    /// The content octets, in bytes of their own. Memory is wanted only where there are such octets.
    final fn to_encoded_bytes(&self, alloc: Global, mode: Mode) -> Result<Bytes, EncodeError>
    where
        Self: Sized,
        ensures encoded { IfOk result (content self.now mode) }
        ensures refused { IfErr result (BytesRefused mode (content self.now mode)) }
        ensures memory { IfErr result
            (λ e. e ≡ no_memory → (n : ℕ) × HasLength (content self.now mode) n × (n < 2 ^ 32)) }
        ensures some { IfErr result
            (λ e. e ≡ no_memory → (n : ℕ) × HasLength (content self.now mode) n × (1 ≤ n)) }
    {
        let len = self.encoded_len(mode)?;
        let Ok(mut octets) = Vec::with_capacity(alloc, len) else {
            return Err(EncodeError::Memory);
        };
        match self.write_encoded(mode, &mut octets) {
            Ok(()) => {}
            Err(error) => return Err(error.of_memory()),
        }
        match Bytes::from_vec(octets) {
            Ok(bytes) => Ok(bytes),
            Err(_) => Err(EncodeError::Memory),
        }
    }

    // A tag that values have.
    ghost is_tag: { IsTag type_tag };

    // The content is always the same.
    ghost one_content: { (x : Self) (m : ModeValue) (a b : List ℕ)
        → content x m a → content x m b → a ≡ b };
}

/// What is borrowed has the tag and the content octets of what it leads to.
impl<P: PrimitiveContent> PrimitiveContent for &P {
    ghost type_tag = { P.type_tag };

    ghost content = { λ x m. P.content x.now m };

    fn tag() -> Tag {
        P::tag()
    }

    fn encoded_len(&self, mode: Mode) -> Result<usize, EncodeError> {
        (**self).encoded_len(mode)
    }

    fn write_encoded<W: Write>(&self, mode: Mode, target: &mut W) -> Result<(), EncodeError> {
        (**self).write_encoded(mode, target)
    }

    ghost is_tag = { P.is_tag };

    ghost one_content = { λ x m. P.one_content x.now m };
}

/// A primitive value (X.690 8.1.2.5).
#[derive(Drop)]
pub struct Primitive<P> {
    /// The tag of the value.
    pub tag: Tag,
    /// Of what its content octets are written.
    pub content: P,
    ghost is_tag: { IsTag tag },
}
