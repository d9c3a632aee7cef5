//! Laws of prefixes: the contracts of functions that do nothing.

ghost use Rattle.std.specs.Prelude.{◌≡◌, ◌↔◌, ◌≤◌, ◌<◌, ◌/◌, ◌^◌, ℕ, List, IsTrue};
ghost use Rattle.std.specs.Cmp.{IsTotalOrder};
ghost use Rattle.std.specs.Ordering.{is_lt};
ghost use Rattle.std.specs.declared.cmp.Ordering.TheVariants.{Equal, Greater};
ghost use Rattle.resources_ip_prefix.specs.AddrPrefixes.{Family, PrefixValue, IsPrefix, width, span, prefix_around, Has, Covers, prefix_cmp};
ghost use Rattle.resources_ip_prefix.specs.MaxLens.{MaxLenValue, IsMaxLen};
ghost use Rattle.resources_ip_prefix.specs.Orders.{prefix_eq, max_len_eq};
ghost use Rattle.resources_ip_prefix.specs.Starts.{start_cmp};
ghost use Rattle.resources_ip_prefix.specs.PrefixTexts.{IsPrefixText, prefix_text};
ghost use Rattle.resources_ip_prefix.specs.MaxLenTexts.{IsMaxLenText, max_len_text};

use super::max_len::MaxLenPrefix;
use super::prefix::Prefix;
use std::hash::Hash;

/// A prefix has the addresses whose first bits, as many as its length, are those of its first address.
pub fn addresses_share_bits()
    ensures { (p : PrefixValue) (n : ℕ) → IsPrefix p →
        Has p n ↔ (n / span p.family p.len ≡ p.first / span p.family p.len) }
{}

/// The prefix around an address is one, and has the address.
pub fn prefix_around_has_address()
    ensures whole { (f : Family) (bits len : ℕ) → len ≤ width f → bits < 2 ^ width f →
        IsPrefix (prefix_around f bits len) }
    ensures has { (f : Family) (bits len : ℕ) → Has (prefix_around f bits len) bits }
{}

/// A prefix isn't before one that it covers.
pub fn covering_is_not_before()
    ensures { (p q : PrefixValue) → IsPrefix p → IsPrefix q → Covers p q
        → ¬ (IsTrue (is_lt (prefix_cmp p q))) }
{}

/// The order in which prefixes are listed is total, and tells all prefixes apart; one that covers another isn't after
/// it.
#[tactic(auto, using(crate::specs::Starts::start_total, crate::specs::Starts::start_same, crate::proofs::PrefixLaws::not_behind))]
pub fn start_order_is_total()
    ensures total { IsTotalOrder start_cmp }
    ensures equal { (p q : PrefixValue) → (start_cmp p q ≡ Equal) ↔ (p ≡ q) }
    ensures covering { (p q : PrefixValue) → IsPrefix p → IsPrefix q → Covers p q
        → ¬ (start_cmp p q ≡ Greater) }
{}

/// The test `==` decides equality.
pub fn equality_is_tested()
    ensures prefixes { (p q : PrefixValue) → IsTrue (prefix_eq p q) ↔ (p ≡ q) }
    ensures max_lens { (m n : MaxLenValue) → IsTrue (max_len_eq m n) ↔ (m ≡ n) }
{}

/// The orders of prefixes, and of prefixes with a greatest length, agree with their equality, and so do hashes.
pub fn order_and_hash_agree_with_equality()
    ensures prefix_order { (p q : PrefixValue) → (⟦<Prefix as Ord>⟧.cmp p q ≡ Equal) ↔ (p ≡ q) }
    ensures max_len_order { (m n : MaxLenValue)
        → (⟦<MaxLenPrefix as Ord>⟧.cmp m n ≡ Equal) ↔ (m ≡ n) }
    ensures prefix_hash { (p q : PrefixValue) → IsTrue (⟦<Prefix as PartialEq>⟧.eq p q)
        → ⟦<Prefix as Hash>⟧.hash_input p ≡ ⟦<Prefix as Hash>⟧.hash_input q }
    ensures max_len_hash { (m n : MaxLenValue) → IsTrue (⟦<MaxLenPrefix as PartialEq>⟧.eq m n)
        → ⟦<MaxLenPrefix as Hash>⟧.hash_input m ≡ ⟦<MaxLenPrefix as Hash>⟧.hash_input n }
{}

/// A text writes one prefix at most, and one prefix with a greatest length at most.
pub fn texts_write_one()
    ensures prefixes { (text : List ℕ) (p q : PrefixValue) → IsPrefixText text p
        → IsPrefixText text q → p ≡ q }
    ensures max_lens { (text : List ℕ) (m n : MaxLenValue) → IsMaxLenText text m
        → IsMaxLenText text n → m ≡ n }
{}

/// What is printed of a prefix, and of a prefix with a greatest length, writes it.
pub fn printed_texts_are_read()
    ensures prefixes { (p : PrefixValue) → IsPrefix p → IsPrefixText (prefix_text p) p }
    ensures max_lens { (m : MaxLenValue) → IsMaxLen m → IsMaxLenText (max_len_text m) m }
{}
