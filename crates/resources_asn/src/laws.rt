//! Laws of sets of AS numbers as lists, and of origins: the contracts of functions that do nothing.

ghost use Rattle.std.specs.Prelude.{◌≡◌, ◌↔◌, ℕ, List, IsTrue};
ghost use Rattle.std.specs.Cmp.{IsTotalOrder};
ghost use Rattle.std.specs.declared.cmp.Ordering.TheVariants.{Equal};
ghost use Rattle.resources_asn.specs.Numbers.{Number, last_number};
ghost use Rattle.resources_asn.specs.Listed.{InList, IsAscending};
ghost use Rattle.resources_asn.specs.Origins.{OriginValue, origin_cmp};

use crate::asn::Asn;
use std::hash::Hash;

/// The smallest AS number and the largest, `Asn::MIN` and `Asn::MAX`: of 32 bits (RFC 6793 section 3).
pub fn least_and_greatest() -> (Asn, Asn)
    ensures least { result.0.value ≡ 0 }
    ensures greatest { result.1.value ≡ last_number }
{
    (Asn::MIN, Asn::MAX)
}

/// The order of AS numbers agrees with their equality, and so do hashes.
pub fn order_and_hash_agree_with_equality()
    ensures order { (a b : Number) → (⟦<Asn as Ord>⟧.cmp a b ≡ Equal) ↔ (a ≡ b) }
    ensures hash { (a b : Number) → IsTrue (⟦<Asn as PartialEq>⟧.eq a b)
        → ⟦<Asn as Hash>⟧.hash_input a ≡ ⟦<Asn as Hash>⟧.hash_input b }
{}

/// A set has one list.
pub fn one_list_of_a_set()
    ensures { (xs ys : List ℕ) → IsAscending xs → IsAscending ys
        → ((n : ℕ) → InList xs n ↔ InList ys n) → xs ≡ ys }
{}

/// The order in which origins are listed is total, and tells all origins apart.
pub fn origins_are_ordered()
    ensures total { IsTotalOrder origin_cmp }
    ensures equal { (x y : OriginValue) → (origin_cmp x y ≡ Equal) ↔ (x ≡ y) }
{}
