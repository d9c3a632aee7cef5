//! Laws of what is written: the contracts of functions that do nothing.

ghost use Rattle.std.specs.Prelude.{◌≢◌, List, ℕ};
ghost use Rattle.bcder_values.specs.bcder_tree.declared.mode.Mode.{Mode as ModeValue};
ghost use Rattle.bcder_values.specs.bcder_tree.declared.mode.Mode.TheVariants.{Ber};
ghost use Rattle.bcder_values.specs.bcder_tree.Tree.{Trees};
ghost use Rattle.bcder_values.specs.bcder_primitive.Writing.{CannotWrite};
ghost use Rattle.bcder_values.specs.bcder_primitive.declared.written.error.EncodeError.TheVariants.{CerUnsupported as cer_unsupported};
ghost use Rattle.bcder_values.specs.Returns.{ReadAgain, WrittenAlone};

use crate::Values;

/// What is written of values is read again: a source that is read from the beginning of the octets has just
/// these values, and then ends.
pub fn what_is_written_is_read<V: Values>()
    ensures { (x : V) (m : ModeValue) (text : List ℕ) → V.writes x m text
        → ReadAgain m (V.trees x m) text }
{}

/// In CER and in DER nothing else spells them.
pub fn only_spelling<V: Values>()
    ensures { (x : V) (m : ModeValue) (text : List ℕ) → m ≢ Ber → V.writes x m text
        → WrittenAlone m (V.trees x m) text }
{}

/// Values that have a form in a mode aren't refused there as `CerUnsupported`: in BER just where they hold what has
/// none in a mode of its own.
pub fn refused_without_a_form<V: Values>()
    ensures { (x : V) (m : ModeValue) (ts : Trees) → V.trees x m ts
        → CannotWrite (V.trees x m) (V.writes x m) cer_unsupported → ⊥ }
{}
