//! Laws of INTEGERs: the contracts of functions that do nothing.
ghost use Rattle.std.specs.Prelude.{◌≡◌, ℤ, ℕ, List};
ghost use Rattle.bcder_number.specs.Integers.{IsInteger};

/// Each whole number has content octets, and no others (X.690 8.3.2).
pub fn one_content()
    ensures some { (x : ℤ) → (octets : List ℕ) × IsInteger octets x }
    ensures one { (x : ℤ) (a b : List ℕ) → IsInteger a x → IsInteger b x → a ≡ b }
{}

/// Octets are the content of one number at most (X.690 8.3.3).
pub fn one_number()
    ensures { (octets : List ℕ) (x y : ℤ) → IsInteger octets x → IsInteger octets y → x ≡ y }
{}
