//! Laws of sets of numbers: the contracts of functions that do nothing.

ghost use Rattle.std.specs.Prelude.{◌≡◌, ◌↔◌, ◌⊎◌, ℕ, List};
ghost use Rattle.resources_chain.specs.Sets.{Run, InRuns, AreMaximal, InBoth, InFirstOnly, IsInside};

/// Lists of maximal runs are equal exactly where their sets are.
pub fn equal_lists_are_equal_sets()
    ensures { (a b : List Run) → AreMaximal a → AreMaximal b → (a ≡ b)
        ↔ ((n : ℕ) → InRuns a n ↔ InRuns b n) }
{}

/// One set is inside another exactly where its difference with the other is empty.
pub fn inside_is_no_difference()
    ensures { (a b : List Run) → IsInside a b ↔ ((n : ℕ) → ¬ (InFirstOnly a b n)) }
{}

/// A set is its intersection with another and its difference with it, together.
pub fn intersection_and_difference()
    ensures { (a b : List Run) (n : ℕ) → InRuns a n ↔ (InBoth a b n ⊎ InFirstOnly a b n) }
{}
