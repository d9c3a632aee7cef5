//! Laws of moments and validity: the contracts of functions that do nothing.

ghost use Rattle.std.specs.Prelude.{◌≡◌, ◌↔◌, ℕ, IsTrue, List};
ghost use Rattle.std.specs.declared.cmp.Ordering.TheVariants.{Equal};
ghost use Rattle.certs_basics.specs.bcder_tree.declared.mode.Mode.{Mode as ModeValue};
ghost use Rattle.certs_basics.specs.bcder_tree.Tags.{TagValue, sequence_tag};
ghost use Rattle.certs_basics.specs.bcder_tree.Tree.{Tree, primitive};
ghost use Rattle.certs_basics.specs.bcder_primitive.Values.{AnyOctets};
ghost use Rattle.certs_basics.specs.bcder_content.Grammar.{End, One, Then};
ghost use Rattle.certs_basics.specs.bcder_primitive.Encoded.{WritesBoth, WritesPlain, WritesWrapped};
ghost use Rattle.certs_basics.specs.bcder_values.Returns.{ReadAgain};
ghost use Rattle.certs_basics.specs.Forms.{IsTime, IsValidity, WritesTime};

use crate::time::time::Time;
use std::hash::Hash;

/// The order of moments agrees with their equality, and so do hashes.
pub fn order_agrees_with_equality()
    ensures order { (a b : ℕ) → (⟦<Time as Ord>⟧.cmp a b ≡ Equal) ↔ (a ≡ b) }
    ensures hash { (a b : ℕ) → IsTrue (⟦<Time as PartialEq>⟧.eq a b)
        → ⟦<Time as Hash>⟧.hash_input a ≡ ⟦<Time as Hash>⟧.hash_input b }
{}

/// A value states one moment at most, or one validity.
pub fn one_meaning()
    ensures time { One IsTime }
    ensures validity { One IsValidity }
{}

/// What is written of a moment is always the same value.
pub fn one_time_is_written()
    ensures { (moment : ℕ) (t u : Tree) → WritesTime moment t → WritesTime moment u → t ≡ u }
{}

/// What is written of a moment is read again as that moment.
pub fn times_are_read_again()
    ensures value { (moment : ℕ) (t : Tree) → WritesTime moment t → IsTime t moment }
    ensures octets { (moment : ℕ) (tag : TagValue) (content : List ℕ) (m : ModeValue)
        (text : List ℕ) → WritesTime moment (primitive tag content)
        → WritesPlain m tag (λ octets. AnyOctets octets content) text
        → ReadAgain m (λ ts. Then IsTime End ts (moment, tt)) text }
{}

/// What is written of a validity is read again as that validity.
pub fn validity_is_read_again()
    ensures { (not_before not_after : ℕ) (tag other : TagValue) (first second : List ℕ)
        (m : ModeValue) (text : List ℕ) → WritesTime not_before (primitive tag first)
        → WritesTime not_after (primitive other second)
        → WritesWrapped m sequence_tag
        (WritesBoth (WritesPlain m tag (λ octets. AnyOctets octets first))
        (WritesPlain m other (λ octets. AnyOctets octets second))) text
        → ReadAgain m (λ ts. Then IsValidity End ts ((not_before, (not_after, tt)), tt)) text }
{}
