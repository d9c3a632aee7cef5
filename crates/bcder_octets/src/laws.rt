//! Laws of strings: the contracts of functions that do nothing.
ghost use Rattle.std.specs.Prelude.{ℕ, List};
ghost use Rattle.bcder_octets.specs.bcder_tree.declared.mode.Mode.{Mode};
ghost use Rattle.bcder_octets.specs.bcder_tree.Tags.{TagValue};
ghost use Rattle.bcder_octets.specs.bcder_tree.Tree.{Trees};
ghost use Rattle.bcder_octets.specs.bcder_tree.Strings.{IsString};
ghost use Rattle.bcder_octets.specs.bcder_content.Grammar.{One};
ghost use Rattle.bcder_octets.specs.Segments.{StringTrees};
ghost use Rattle.bcder_octets.specs.Wrapping.{IsAround, WrapsAgain};
ghost use Rattle.bcder_octets.specs.Written.{WrittenString};

use bcder_values::Values;

/// What is written of a string is one value, a string of these octets in the mode (X.690 8.7, 9.2, 10.2).
pub fn a_string_is_written()
    ensures { (m : Mode) (tag : TagValue) (octets : List ℕ) (ts : Trees)
        → StringTrees m tag octets ts → WrittenString m tag octets ts }
{}

/// A value is one string at most.
pub fn one_string()
    ensures { (m : Mode) (tag : TagValue) → One (IsString m tag) }
{}

/// What is written of a string around values is one string in the mode, whose octets are read again, in the
/// values' own mode, as these values.
pub fn wrapped_values_are_read<V: Values>()
    ensures { (x : V) (m inner : Mode) (tag : TagValue) (ts : Trees)
        → IsAround m tag (V.writes x inner) ts → WrapsAgain m tag inner (V.trees x inner) ts }
{}
