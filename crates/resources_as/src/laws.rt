//! Laws of AS resources: the contracts of functions that do nothing.

ghost use Rattle.std.specs.Prelude.{◌≡◌, ℕ, List};
ghost use Rattle.resources_as.specs.bcder_tree.Tags.{sequence_tag};
ghost use Rattle.resources_as.specs.bcder_tree.Tree.{Tree, Trees};
ghost use Rattle.resources_as.specs.bcder_primitive.Encoded.{IsWrapped};
ghost use Rattle.resources_as.specs.resources_chain.Claims.{Choice};
ghost use Rattle.resources_as.specs.resources_chain.Sets.{Run, AreMaximal};
ghost use Rattle.resources_as.specs.resources_chain.declared.choice.ResourcesChoice.TheVariants.{Missing};
ghost use Rattle.resources_as.specs.Encodings.{IsAsResources, IsAsSet};
ghost use Rattle.resources_as.specs.Texts.{IsAsSetText};
ghost use Rattle.resources_as.specs.Written.{AreAsBlocks, AreAsResources, HasMaximal, MeansJust, ReadsSet};

pub use resources_asn::as_block::laws::{
    one_list_of_a_set, one_meaning as one_block, runs_are_counted, runs_are_listed,
};

/// What is written of AS resources that aren't missing is one value, which a reader takes for just these.
pub fn what_is_written_means_just_these()
    ensures { (choice : Choice) (ts : Trees) → HasMaximal choice → ¬ (choice ≡ Missing)
        → AreAsResources choice ts → MeansJust choice ts }
{}

/// A SEQUENCE of what is written of a set is one value, which is read as the same set (RFC 3779 section 3.2.3.4).
pub fn a_set_is_read_again()
    ensures { (runs : List Run) (ts : Trees) → AreMaximal runs
        → IsWrapped sequence_tag (AreAsBlocks runs) ts → ReadsSet runs ts }
{}

/// What is read of AS resources, or as a set of them, is by maximal runs: so it can be written, and is read again.
pub fn resources_that_are_read_fit()
    ensures resources { (t : Tree) (choice : Choice) → IsAsResources t choice → HasMaximal choice }
    ensures set { (t : Tree) (runs : List Run) → IsAsSet t runs → AreMaximal runs }
{}

/// A value has one meaning: as AS resources (RFC 3779 section 3.2.3.1), and as a set of AS numbers (3.2.3.4).
pub fn one_meaning()
    ensures set { (t : Tree) (one other : List Run) → IsAsSet t one → IsAsSet t other
        → one ≡ other }
    ensures resources { (t : Tree) (one other : Choice) → IsAsResources t one
        → IsAsResources t other → one ≡ other }
{}

/// A text is that of one set of AS numbers at most.
pub fn a_text_writes_one_set()
    ensures { (text : List ℕ) (one other : List Run) → IsAsSetText text one
        → IsAsSetText text other → one ≡ other }
{}
