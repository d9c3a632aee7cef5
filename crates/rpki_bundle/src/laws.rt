//! Laws of bundles and their octets: the contracts of functions that do nothing.

ghost use Rattle.std.specs.Prelude.{◌≡◌, ◌+◌, ◌^◌, ◌≤◌, List, ℕ, length};
ghost use Rattle.rpki_bundle.specs.Bundle.{BundleValue, BundleText};
ghost use Rattle.rpki_bundle.specs.Lawful.{IsLawful};

/// Octets spell at most one bundle.
pub fn one_bundle()
    ensures { (octets : List ℕ) (b c : BundleValue) → BundleText octets b → BundleText octets c
        → b ≡ c }
{}

/// A bundle has at most one text: two bundles are equal in content exactly if they are equal in octets.
pub fn one_text()
    ensures { (octets others : List ℕ) (b : BundleValue) → BundleText octets b → BundleText others b
        → octets ≡ others }
{}

/// A bundle's text has at most 2^32 + 5 octets.
pub fn bundle_length()
    ensures { (octets : List ℕ) (b : BundleValue) → BundleText octets b
        → length octets ≤ 2 ^ 32 + 5 }
{}

/// Each bundle has a depth from `MIN_DEPTH` to `MAX_DEPTH`, names that are printable, not empty and without a space, URIs
/// that are their own lookup keys, digests of 32 octets, and lists that ascend strictly.
pub fn lawful_parts()
    ensures { (octets : List ℕ) (b : BundleValue) → BundleText octets b → IsLawful b }
{}

/// A bundle has a depth from 1 to 32.
pub fn depths()
    ensures least { (octets : List ℕ) (b : BundleValue) → BundleText octets b → 1 ≤ b.depth }
    ensures greatest { (octets : List ℕ) (b : BundleValue) → BundleText octets b → b.depth ≤ 32 }
{}
