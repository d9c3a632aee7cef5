//! Laws of paths: the contracts of functions that do nothing.

ghost use Rattle.std.specs.Prelude.{◌≡◌, ◌≢◌, ◌<◌, ℕ, List, [], All, length};
ghost use Rattle.objects_rta_valid.specs.Nodes.{Node};
ghost use Rattle.objects_rta_valid.specs.Paths.{AreSteps, At, IsOnlyPath, IsPath};

/// A path has a place, and its places are those of certificates.
pub fn places_are_inside()
    ensures some { (nodes : List Node) (sid : List ℕ) (places : List ℕ) →
        IsPath nodes sid places → places ≢ [] }
    ensures inside { (nodes : List Node) (sid : List ℕ) (places : List ℕ) →
        IsPath nodes sid places → All (λ place. place < length nodes) places }
{}

/// On a path each certificate but the last isn't self-signed, and is below the next, which is an authority's.
pub fn neighbours_are_below()
    ensures { (nodes : List Node) (sid : List ℕ) (places : List ℕ) →
        IsPath nodes sid places → AreSteps nodes places }
{}

/// A signer has one only path at most.
pub fn one_only_path()
    ensures { (nodes : List Node) (sid : List ℕ) (a b : List ℕ) →
        IsOnlyPath nodes sid a → IsOnlyPath nodes sid b → a ≡ b }
{}

/// A signer whose certificate is carried has a path.
pub fn some_path()
    ensures { (nodes : List Node) (sid : List ℕ) (place : ℕ) (c : Node) →
        At nodes place c → c.subject ≡ sid → (places : List ℕ) × IsPath nodes sid places }
{}
