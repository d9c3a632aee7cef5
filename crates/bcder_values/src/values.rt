//! Values that can be written.

ghost use Rattle.std.specs.Prelude.{◌≡◌, ◌≤◌, ℕ, List, IfOk, IfErr, OnOk};
ghost use Rattle.bcder_values.specs.bcder_tree.declared.mode.Mode.{Mode as ModeValue};
ghost use Rattle.bcder_values.specs.bcder_tree.Tree.{Trees};
ghost use Rattle.bcder_values.specs.bcder_tree.Tags.{IsTag};
ghost use Rattle.bcder_values.specs.bcder_primitive.Encoded.{SpellsSome};
ghost use Rattle.bcder_values.specs.bcder_primitive.declared.written.error.EncodeError.TheVariants.{Memory as memory_refused};
ghost use Rattle.bcder_values.specs.Gathered.{ExtendRefused};
ghost use Rattle.bcder_values.specs.Writable.{Writable};
ghost use Rattle.bcder_values.specs.bcder_primitive.Writing.{HasLength, Wrote, TookFront, CannotWrite, WriteRefused};
ghost use Rattle.bcder_values.specs.bcder_primitive.declared.written.error.EncodeError.TheVariants.{Write as refusal};

use crate::bcder_tree::{Mode, Tag};
use crate::{CapturedBuilder, Constructed, EncodeError};
use bcder_content::Captured;
use std::alloc::Global;
use std::io::Write;

/// Values that can be written, one after the other.
///
/// `trees` are the values that it stands for in a mode, and `writes` is what is written of it: a spelling of
/// them, and always the same.
pub trait Values {
    ghost trees: { Self → ModeValue → Trees → Type 0 };

    ghost writes: { Self → ModeValue → List ℕ → Type 0 };

    /// How many octets are written.
    ///
    /// `CerUnsupported` where they have no form in the mode, as some in CER, and `TooLong` where a content has more
    /// than 2^32 - 1 octets, or all octets are more than can be counted.
    fn encoded_len(&self, mode: Mode) -> Result<usize, EncodeError>
        ensures len { IfOk result (HasLength (writes self.now mode)) }
        ensures refused { IfErr result (CannotWrite (trees self.now mode) (writes self.now mode)) };

    /// Writes the values.
    ///
    /// Where `encoded_len` refuses, nothing is written. `Write` where the writer refuses, which then has
    /// taken a front of the octets.
    fn write_encoded<W: Write>(&self, mode: Mode, target: &mut W) -> Result<(), EncodeError>
        ensures written { OnOk result
            (Wrote (writes self.now mode) (W.contents target.old) (W.contents target.new)) }
        ensures refused { IfErr result
            (WriteRefused (trees self.now mode) (writes self.now mode) (target.new ≡ target.old)
            (W.contents target.old) (W.contents target.new)) };

    /// Writes values that `encoded_len` is known not to refuse, so that it needn't be asked before the first of them.
    ///
    /// `Write` where the writer refuses, which then has taken a front of the octets.
    fn write_known<W: Write>(&self, mode: Mode, target: &mut W) -> Result<(), EncodeError>
        requires { Writable (writes self.now mode) }
        ensures written { OnOk result
            (Wrote (writes self.now mode) (W.contents target.old) (W.contents target.new)) }
        ensures refused { IfErr result (λ e. (e ≡ refusal)
            × TookFront (writes self.now mode) (W.contents target.old) (W.contents target.new)) }
    {
        self.write_encoded(mode, target)
    }

    /// The values within a constructed value of that tag: an explicit tag (X.690 8.14).
    final fn explicit(self, tag: Tag) -> Constructed<Self>
    where
        Self: Sized,
        requires { IsTag tag }
        ensures tag { result.tag ≡ tag }
        ensures inner { result.inner ≡ self }
    {
        Constructed { tag, inner: self }
    }

    /// The octets that are written, captured. Memory is wanted only where something is written.
    final fn to_captured(&self, alloc: Global, mode: Mode) -> Result<Captured, EncodeError>
    where
        Self: Sized,
        ensures captured { IfOk result (λ c. writes self.now mode c.octets) }
        ensures mode { IfOk result (λ c. c.mode ≡ mode) }
        ensures refused { IfErr result
            (ExtendRefused (trees self.now mode) (writes self.now mode)) }
        ensures memory { IfErr result
            (λ e. e ≡ memory_refused → (n : ℕ) × HasLength (writes self.now mode) n × (1 ≤ n)) }
    {
        let len = self.encoded_len(mode)?;
        let mut builder = CapturedBuilder::with_capacity(alloc, len, mode)?;
        builder.extend(self)?;
        builder.freeze()
    }

    // What is written spells the values.
    ghost spelled: { (x : Self) (m : ModeValue) (text : List ℕ)
        → writes x m text → SpellsSome m (trees x m) text };

    // It is always the same.
    ghost one_text: { (x : Self) (m : ModeValue) (a b : List ℕ)
        → writes x m a → writes x m b → a ≡ b };
}

impl<V: Values> Values for &V {
    ghost trees = { λ x m. V.trees x.now m };

    ghost writes = { λ x m. V.writes x.now m };

    fn encoded_len(&self, mode: Mode) -> Result<usize, EncodeError> {
        (**self).encoded_len(mode)
    }

    fn write_encoded<W: Write>(&self, mode: Mode, target: &mut W) -> Result<(), EncodeError> {
        (**self).write_encoded(mode, target)
    }

    fn write_known<W: Write>(&self, mode: Mode, target: &mut W) -> Result<(), EncodeError> {
        (**self).write_known(mode, target)
    }

    ghost spelled = { λ x m. V.spelled x.now m };

    ghost one_text = { λ x m. V.one_text x.now m };
}
