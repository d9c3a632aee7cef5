//! Laws of the identifiers. These functions do nothing: their contracts are the laws.

ghost use Rattle.resources_chain.specs.declared.claims.Overclaim.{Overclaim as Policy};
ghost use Rattle.resources_as.specs.bcder.OidTexts.{Spells};
ghost use Rattle.resources_as.specs.Identifiers.{policy_octets, ip_octets, as_octets, policy_components, ip_components, as_components};

/// The octets of each identifier are those of its components, and the fewest (X.690 8.19).
pub fn octets_are_of_components()
    ensures policies { (m : Policy) → Spells (policy_octets m) (policy_components m) }
    ensures ip_resources { (m : Policy) → Spells (ip_octets m) (ip_components m) }
    ensures as_resources { (m : Policy) → Spells (as_octets m) (as_components m) }
{}
