//! Laws of URIs and their lookup keys: the contracts of functions that do nothing.

ghost use Rattle.std.specs.Prelude.{◌≡◌, ◌↔◌, List, ℕ, IsTrue};
ghost use Rattle.std.specs.declared.cmp.Ordering.TheVariants.{Equal};
ghost use Rattle.certs_basics.specs.bcder_tree.declared.mode.Mode.{Mode};
ghost use Rattle.certs_basics.specs.bcder_tree.Strings.{IsIa5};
ghost use Rattle.certs_basics.specs.bcder_tree.Tags.{context};
ghost use Rattle.certs_basics.specs.bcder_tree.Tree.{Trees};
ghost use Rattle.certs_basics.specs.bcder.Sets.{alone};
ghost use Rattle.certs_basics.specs.bcder_octets.Segments.{StringTrees};
ghost use Rattle.certs_basics.specs.bcder.Restricted.{WrittenText};
ghost use Rattle.certs_basics.specs.Uris.{IsUri, IsLookupKey, lookup_key as key_of};

use crate::uri::https::Https;
use crate::uri::rsync::Rsync;
use std::hash::Hash;

/// The lookup key of a URI is a URI, and its own lookup key.
pub fn lookup_key_of_uri()
    ensures { (uri : List ℕ) → IsUri uri → IsLookupKey (key_of uri) }
{}

/// The lookup key of a lookup key is that key.
pub fn lookup_key_twice()
    ensures { (uri : List ℕ) → key_of (key_of uri) ≡ key_of uri }
{}

/// rsync URIs are equal where their texts are; order and hash agree with that.
pub fn rsync_equality()
    ensures texts { (a b : List ℕ) → IsTrue (⟦<Rsync as PartialEq>⟧.eq a b) ↔ (a ≡ b) }
    ensures order { (a b : List ℕ) → (⟦<Rsync as Ord>⟧.cmp a b ≡ Equal) ↔ (a ≡ b) }
    ensures hash { (a b : List ℕ) → IsTrue (⟦<Rsync as PartialEq>⟧.eq a b)
        → ⟦<Rsync as Hash>⟧.hash_input a ≡ ⟦<Rsync as Hash>⟧.hash_input b }
{}

/// https URIs are equal where their texts are; order and hash agree with that.
pub fn https_equality()
    ensures texts { (a b : List ℕ) → IsTrue (⟦<Https as PartialEq>⟧.eq a b) ↔ (a ≡ b) }
    ensures order { (a b : List ℕ) → (⟦<Https as Ord>⟧.cmp a b ≡ Equal) ↔ (a ≡ b) }
    ensures hash { (a b : List ℕ) → IsTrue (⟦<Https as PartialEq>⟧.eq a b)
        → ⟦<Https as Hash>⟧.hash_input a ≡ ⟦<Https as Hash>⟧.hash_input b }
{}

/// What is written of a URI as a general name is one value, the IA5String of its text with tag [6] (RFC 5280 4.2.1.6).
pub fn general_names_are_read()
    ensures { (m : Mode) (uri : List ℕ) (ts : Trees) → IsUri uri → StringTrees m (context 6) uri ts
        → WrittenText IsIa5 alone m (context 6) uri ts }
{}
