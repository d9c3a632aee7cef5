//! Laws of object identifiers. These functions do nothing: their contracts are the laws.

ghost use Rattle.std.specs.Prelude.{◌≡◌, ◌↔◌, ℕ, List};
ghost use Rattle.bcder.specs.bcder_tree.Tags.{oid_tag};
ghost use Rattle.bcder.specs.bcder_content.Grammar.{OctetsOf, One};
ghost use Rattle.bcder.specs.Components.{HasComponents, components_of};
ghost use Rattle.bcder.specs.Identifiers.{IsIdentifier, IsOid, AreSubidentifiers};

/// Octets whose last has bit 8 clear are just one or more subidentifiers, one after the other (X.690 8.19.2).
pub fn identifiers_are_subidentifiers()
    ensures { (octets : List ℕ) → IsIdentifier octets ↔ AreSubidentifiers octets }
{}

/// Octets have one list of components.
pub fn one_list_of_components()
    ensures there { (octets : List ℕ) → HasComponents octets (components_of octets) }
    ensures one { (octets cs : List ℕ) → HasComponents octets cs → cs ≡ components_of octets }
{}

/// An OBJECT IDENTIFIER has one meaning.
pub fn one_meaning()
    ensures { One (OctetsOf oid_tag IsOid) }
{}
