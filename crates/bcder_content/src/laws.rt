//! Laws of reading: the contracts of functions that do nothing.
//!
//! Whether a value is skipped, captured or taken by a closure that walks through it, in each mode and
//! over each source: it is the value that stands in front of what may be read, and after it the
//! content stands at one place (`Took` and `Ahead` in the contracts of `skip_one`, `capture_one`,
//! `take_constructed_if` and the others).
ghost use Rattle.std.specs.Prelude.{◌≡◌, ◌↔◌, ℕ, List, true, false};
ghost use Rattle.bcder_content.specs.bcder_tree.Tags.{TagValue};
ghost use Rattle.bcder_content.specs.bcder_tree.Tree.{Tree, Trees, constructed};
ghost use Rattle.bcder_content.specs.bcder_tree.Front.{Front};
ghost use Rattle.bcder_content.specs.bcder_source.Views.{left};
ghost use Rattle.bcder_content.specs.Contents.{ValuesLeft, octets, Took, TookAll, Ahead, Ended, Whole};
ghost use Rattle.bcder_content.specs.ClosureReads.{Enters, Leaves};
ghost use Rattle.bcder_content.specs.declared.ending.Span.{Span};

/// A value is next exactly where it stands in front of what may be read of a content that hasn't
/// failed.
pub fn next_stands_in_front()
    ensures { (v : ValuesLeft) (t : Tree) → Ahead v t
        ↔ ((v.failed ≡ false) × ((rest : List ℕ) × Front v.mode (left (octets v)) t rest)) }
{}

/// A constructed value that was walked through was taken: reading went into it, took these values
/// there, and left it after them.
pub fn walking_takes()
    ensures { (old inner end new : ValuesLeft) (tag : TagValue) (span : Span) (ts : Trees)
        → Enters old true tag span inner → TookAll inner ts end → Leaves old span end new
        → Took old (constructed tag ts) new }
{}

/// Whoever goes into a constructed value that can be taken finds its values there, and leaves it after
/// them where taking it ends.
pub fn taking_walks()
    ensures { (old inner new : ValuesLeft) (tag : TagValue) (span : Span) (ts : Trees)
        → Enters old true tag span inner → Took old (constructed tag ts) new
        → (end : ValuesLeft) × TookAll inner ts end × Leaves old span end new }
{}

/// One value at most is next, and reading it ends at one place.
pub fn one_next()
    ensures { (v w x : ValuesLeft) (t u : Tree) → Took v t w → Took v u x → (t ≡ u) × (w ≡ x) }
{}

/// Where a content has ended no value is next.
pub fn ended_or_next()
    ensures { (v : ValuesLeft) (t : Tree) → Ended v → Ahead v t → ⊥ }
{}

/// The values of a content to its end are one list.
pub fn one_content()
    ensures { (v : ValuesLeft) (ts us : Trees) → Whole v ts → Whole v us → ts ≡ us }
{}
