//! Laws of sets of AS numbers: the contracts of functions that do nothing.

ghost use Rattle.std.specs.Prelude.{◌≡◌, ℕ, List, length};
ghost use Rattle.resources_asn.specs.bcder_tree.Tree.{Tree};
ghost use Rattle.resources_asn.specs.resources_chain.Sets.{Run, InRuns, AreMaximal};
ghost use Rattle.resources_asn.specs.Listed.{IsListOf};
ghost use Rattle.resources_asn.specs.Counted.{runs_count, runs_numbers};
ghost use Rattle.resources_asn.specs.BlockEncodings.{IsAsBlock};

pub use crate::laws::one_list_of_a_set;

/// A value has one meaning: as a block of AS numbers, one number or a range (RFC 3779 section 3.2.3.5).
pub fn one_meaning()
    ensures block { (t : Tree) (one other : Run) → IsAsBlock t one → IsAsBlock t other
        → one ≡ other }
{}

/// The numbers of maximal runs, run by run, are the list of their set.
pub fn runs_are_listed()
    ensures { (runs : List Run) → AreMaximal runs → IsListOf (InRuns runs) (runs_numbers runs) }
{}

/// The count of maximal runs is how many numbers are in their set.
pub fn runs_are_counted()
    ensures { (runs : List Run) (numbers : List ℕ) → AreMaximal runs
        → IsListOf (InRuns runs) numbers → length numbers ≡ runs_count runs }
{}
