//! Numbers are compared as whole numbers.

ghost use Rattle.std.proofs.Common.{rules};
ghost use Rattle.std.specs.Cmp.{partial_equiv_from_equiv, int_cmp_total, int_eq_equiv, signed_po, nat_cmp_total, nat_eq_equiv, unsigned_po};
ghost use Rattle.std.specs.Cmp.Rules.{comparing};
ghost use Rattle.std.specs.Ordering.{int_cmp, int_eq, nat_cmp};
ghost use Rattle.std.specs.Prelude.{Some, pos, nat_eq};
ghost use Rattle.bcder_number.specs.Hashed.{hash_of, same_hash, same_unsigned};

use crate::integer::Integer;
use crate::octets;
use crate::unsigned::Unsigned;
use std::cmp::Ordering;
use std::hash::{Hash, Hasher};

/// The numbers are equal.
impl PartialEq for Integer {
    ghost eq = { int_eq };

    fn eq(&self, other: &Integer) -> bool {
        self.as_slice() == other.as_slice()
    }

    ghost laws = { partial_equiv_from_equiv int_eq_equiv };
}

impl Eq for Integer {
    ghost laws = { int_eq_equiv };
}

/// The order of the numbers.
impl Ord for Integer {
    ghost cmp = { int_cmp };

    fn cmp(&self, other: &Integer) -> Ordering {
        octets::order(self.as_slice(), other.as_slice())
    }

    ghost total = { int_cmp_total };

    ghost matches_partial_cmp = { Prim.search (comparing, rules) };

    ghost matches_eq = { Prim.search (comparing, rules) };
}

/// The order of the numbers.
impl PartialOrd for Integer {
    ghost partial_cmp = { λ x y. Some (int_cmp x y) };

    fn partial_cmp(&self, other: &Integer) -> Option<Ordering> {
        Some(self.cmp(other))
    }

    ghost laws = { signed_po };
}

/// Equal numbers are hashed alike: by their content octets, of which each number has one list.
impl Hash for Integer {
    ghost hash_input = { hash_of };

    fn hash<H: Hasher>(&self, state: &mut H) {
        self.as_slice().hash(state);
    }

    ghost respects_eq = { same_hash };
}

/// The numbers are equal.
impl PartialEq for Unsigned {
    ghost eq = { nat_eq };

    fn eq(&self, other: &Unsigned) -> bool {
        self.as_integer() == other.as_integer()
    }

    ghost laws = { partial_equiv_from_equiv nat_eq_equiv };
}

impl Eq for Unsigned {
    ghost laws = { nat_eq_equiv };
}

/// The order of the numbers.
impl Ord for Unsigned {
    ghost cmp = { nat_cmp };

    fn cmp(&self, other: &Unsigned) -> Ordering {
        self.as_integer().cmp(other.as_integer())
    }

    ghost total = { nat_cmp_total };

    ghost matches_partial_cmp = { Prim.search (comparing, rules) };

    ghost matches_eq = { Prim.search (comparing, rules) };
}

/// The order of the numbers.
impl PartialOrd for Unsigned {
    ghost partial_cmp = { λ x y. Some (nat_cmp x y) };

    fn partial_cmp(&self, other: &Unsigned) -> Option<Ordering> {
        Some(self.cmp(other))
    }

    ghost laws = { unsigned_po };
}

/// A number is hashed as the same INTEGER is.
impl Hash for Unsigned {
    ghost hash_input = { λ n. hash_of (pos n) };

    fn hash<H: Hasher>(&self, state: &mut H) {
        self.as_integer().hash(state);
    }

    ghost respects_eq = { same_unsigned };
}
