//! Laws of restricted strings: the contracts of functions that do nothing.
ghost use Rattle.std.specs.Prelude.{ℕ, List};
ghost use Rattle.bcder.specs.bcder_tree.declared.mode.Mode.{Mode};
ghost use Rattle.bcder.specs.bcder_tree.Tags.{TagValue};
ghost use Rattle.bcder.specs.bcder_tree.Tree.{Trees};
ghost use Rattle.bcder.specs.Texts.{IsText};
ghost use Rattle.bcder.specs.bcder_content.Grammar.{One};
ghost use Rattle.bcder_octets.specs.Segments.{StringTrees};
ghost use Rattle.bcder.specs.Restricted.{IsRestricted, WrittenText};

use crate::string::CharSet;

/// What is written of a text is one value, the restricted string of these octets in the mode (X.690 8.23, 9.2, 10.2).
pub fn a_text_is_written<L: CharSet>()
    ensures { (m : Mode) (tag : TagValue) (octets : List ℕ) (ts : Trees)
        → IsText L.has L.spell octets → StringTrees m tag octets ts
        → WrittenText L.has L.spell m tag octets ts }
{}

/// A value is one restricted string at most.
pub fn one_string<L: CharSet>()
    ensures { (m : Mode) (tag : TagValue) → One (IsRestricted L.has L.spell m tag) }
{}
