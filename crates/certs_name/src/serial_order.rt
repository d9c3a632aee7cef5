//! Serial numbers are compared as whole numbers.

ghost use Rattle.std.proofs.Common.{rules};
ghost use Rattle.std.specs.Prelude.{Some, nat_eq};
ghost use Rattle.std.specs.Ordering.{nat_cmp};
ghost use Rattle.std.specs.Cmp.{nat_cmp_total, nat_eq_equiv, partial_equiv_from_equiv, unsigned_po};
ghost use Rattle.std.specs.Cmp.Rules.{comparing};
ghost use Rattle.certs_name.specs.Orders.{halves_alike, halves_fed};

use crate::serial::Serial;
use std::cmp::Ordering;
use std::hash::{Hash, Hasher};

/// The numbers are equal.
impl PartialEq for Serial {
    ghost eq = { nat_eq };

    fn eq(&self, other: &Serial) -> bool {
        let (high, low) = (*self).halves();
        let (other_high, other_low) = (*other).halves();
        high == other_high && low == other_low
    }

    ghost laws = { partial_equiv_from_equiv nat_eq_equiv };
}

impl Eq for Serial {
    ghost laws = { nat_eq_equiv };
}

/// The order of the numbers.
impl Ord for Serial {
    ghost cmp = { nat_cmp };

    fn cmp(&self, other: &Serial) -> Ordering {
        let (high, low) = (*self).halves();
        let (other_high, other_low) = (*other).halves();
        if high == other_high {
            return low.cmp(&other_low);
        }
        high.cmp(&other_high)
    }

    ghost total = { nat_cmp_total };

    ghost matches_partial_cmp = { Prim.search (comparing, rules) };

    ghost matches_eq = { Prim.search (comparing, rules) };
}

/// The order of the numbers.
impl PartialOrd for Serial {
    ghost partial_cmp = { λ x y. Some (nat_cmp x y) };

    fn partial_cmp(&self, other: &Serial) -> Option<Ordering> {
        Some(self.cmp(other))
    }

    ghost laws = { unsigned_po };
}

/// Equal numbers are hashed alike.
impl Hash for Serial {
    ghost hash_input = { halves_fed };

    fn hash<H: Hasher>(&self, state: &mut H) {
        let (high, low) = (*self).halves();
        high.hash(state);
        low.hash(state);
    }

    ghost respects_eq = { halves_alike };
}
