//! Laws of reading, with those of spellings: the contracts of functions that do nothing.

ghost use Rattle.std.specs.Prelude.{◌≡◌, List, ℕ, ◌++◌, None};
ghost use Rattle.bcder_source.specs.Views.{View, Moved, left};

pub use bcder_tree::laws::{
    each_spelling_is_ber, no_proper_front, one_spelling, one_tree_in_front,
};

/// What is read stood in front of what might be read, and what may still be read comes after it.
pub fn reading_takes_a_front()
    ensures { (old new : View) (text : List ℕ) → Moved old text new → left old ≡ text ++ left new }
{}

/// Two readings, one after the other, are one.
pub fn readings_join()
    ensures { (a b c : View) (x y : List ℕ) → Moved a x b → Moved b y c → Moved a (x ++ y) c }
{}

/// Reading from a slice is reading from a source with no limit.
pub fn slices_are_read_alike()
    ensures { (octets text rest : List ℕ) → octets ≡ text ++ rest
        → Moved (record { rest = octets; limit = None }) text
        (record { rest = rest; limit = None }) }
{}
