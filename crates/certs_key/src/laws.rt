//! Laws of keys: the contracts of functions that do nothing.

ghost use Rattle.std.specs.Prelude.{◌≡◌, ◌↔◌, ℕ, List, IsTrue};
ghost use Rattle.std.specs.declared.cmp.Ordering.TheVariants.{Equal};
ghost use Rattle.certs_key.specs.bcder_tree.declared.mode.Mode.{Mode as ModeValue};
ghost use Rattle.certs_key.specs.bcder_tree.declared.mode.Mode.TheVariants.{Der};
ghost use Rattle.certs_key.specs.bcder_content.Grammar.{End, One, Then};
ghost use Rattle.certs_key.specs.bcder_octets.BitContents.{IsPadded};
ghost use Rattle.certs_key.specs.bcder_values.Returns.{ReadAgain};
ghost use Rattle.certs_key.specs.certs_basics.Keys.{Encodes, HasEncoding, IsKey, KeyValue, encoded};
ghost use Rattle.certs_key.specs.Forms.{key};

use crate::identifier::KeyIdentifier;
use crate::key::PublicKey;
pub use certs_name::laws::{
    key_names_pass_inspection, name_equality, names_are_read_again, one_serial,
    order_and_hash_agree_with_equality, serials_are_read_again, serials_are_small,
};
use std::hash::Hash;

/// Identifiers are equal where their octets are; order and hash agree with that.
pub fn identifier_equality()
    ensures octets { (a b : List ℕ) → IsTrue (⟦<KeyIdentifier as PartialEq>⟧.eq a b) ↔ (a ≡ b) }
    ensures order { (a b : List ℕ) → (⟦<KeyIdentifier as Ord>⟧.cmp a b ≡ Equal) ↔ (a ≡ b) }
    ensures hash { (a b : List ℕ) → IsTrue (⟦<KeyIdentifier as PartialEq>⟧.eq a b)
        → ⟦<KeyIdentifier as Hash>⟧.hash_input a ≡ ⟦<KeyIdentifier as Hash>⟧.hash_input b }
{}

/// A value is one key at most.
pub fn one_meaning()
    ensures { (m : ModeValue) → One (IsKey m) }
{}

/// A key that is written is read again, as the only value, with the padding that the mode has.
pub fn what_is_written_is_read()
    ensures { (k : KeyValue) (m : ModeValue) (text : List ℕ) → HasEncoding k
        → key.writes k m text
        → ReadAgain m (λ ts. Then (IsKey m) End ts (key.again m k, tt)) text }
{}

/// A key whose unused bits are zero is read again in DER as this key.
pub fn padded_keys_stay()
    ensures { (k : KeyValue) → IsPadded Der k.bits → key.again Der k ≡ k }
{}

/// The encoded octets are the DER of the key, and no others are; they are what is written of the key in DER.
pub fn encoded_is_der()
    ensures is { (k : KeyValue) → HasEncoding k → Encodes k (encoded k) }
    ensures alone { (k : KeyValue) (octets : List ℕ) → Encodes k octets → octets ≡ encoded k }
    ensures written { (k : KeyValue) (octets : List ℕ)
        → key.writes k Der octets → octets ≡ encoded k }
{}

/// Keys are equal where their algorithms and bits are, and have equal encoded octets then. Keys whose encoded octets are
/// equal are equal but for what stands in unused bits.
pub fn key_equality()
    ensures values { (a b : KeyValue) → IsTrue (⟦<PublicKey as PartialEq>⟧.eq a b) ↔ (a ≡ b) }
    ensures encoded { (a b : KeyValue) → IsTrue (⟦<PublicKey as PartialEq>⟧.eq a b)
        → encoded a ≡ encoded b }
    ensures unused { (a b : KeyValue) → HasEncoding a → HasEncoding b → encoded a ≡ encoded b
        → key.again Der a ≡ key.again Der b }
{}
