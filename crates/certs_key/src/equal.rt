//! Equality of keys.

ghost use Rattle.std.specs.Cmp.{on_equiv, on_per, partial_equiv_from_equiv};
ghost use Rattle.std.specs.Cmp.Lexicographic.{nat_list_eq_equiv};
ghost use Rattle.certs_key.specs.Alike.{keys_eq, parts_of};

use crate::key::PublicKey;

/// Two keys are equal where their algorithms are, and their bits: the octets, the unused bits included, and how many bits
/// are unused. Equal keys have equal encoded octets.
impl PartialEq for PublicKey {
    ghost eq = { keys_eq };

    fn eq(&self, other: &PublicKey) -> bool {
        self.algorithm() == other.algorithm() && self.bit_string() == other.bit_string()
    }

    ghost laws = { on_per parts_of (partial_equiv_from_equiv nat_list_eq_equiv) };
}

impl Eq for PublicKey {
    ghost laws = { on_equiv parts_of nat_list_eq_equiv };
}
