//! Laws of spellings: the contracts of functions that do nothing.

ghost use Rattle.std.specs.Prelude.{◌≡◌, ◌≢◌, List, ℕ, [], ◌∷◌, ◌++◌, map};
ghost use Rattle.bcder_tree.specs.declared.mode.Mode.{Mode as ModeValue};
ghost use Rattle.bcder_tree.specs.declared.mode.Mode.TheVariants.{Ber};
ghost use Rattle.bcder_tree.specs.Tree.{Tree, Spells};
ghost use Rattle.bcder_tree.specs.Front.{Front};
ghost use Rattle.bcder_tree.specs.Tags.{universal, context};

use crate::Tag;

/// In each mode, octets have at most one tree in front, and one end of it.
pub fn one_tree_in_front()
    ensures { (m : ModeValue) (octets : List ℕ) (t u : Tree) (r s : List ℕ) → Front m octets t r
        → Front m octets u s → (t ≡ u) × (r ≡ s) }
{}

/// No spelling is a proper front of another, in one mode or in two.
pub fn no_proper_front()
    ensures { (m n : ModeValue) (t u : Tree) (a b x : List ℕ) → Spells m t a → Spells n u b
        → b ≡ a ++ x → x ≡ [] }
{}

/// What spells a tree in CER or DER spells the same tree in BER.
pub fn each_spelling_is_ber()
    ensures { (m : ModeValue) (t : Tree) (octets : List ℕ) → Spells m t octets
        → Spells Ber t octets }
{}

/// In CER and in DER a tree has at most one spelling.
pub fn one_spelling()
    ensures { (m : ModeValue) (t : Tree) (a b : List ℕ) → m ≢ Ber → Spells m t a → Spells m t b
        → a ≡ b }
{}

/// The tags of the universal types, one for each constant, with the numbers that X.680 8.4 (table 1) assigns to them.
pub fn universal_tags() -> [Tag; 36]
    ensures { result ≡ map universal
        (0 ∷ 1 ∷ 2 ∷ 3 ∷ 4 ∷ 5 ∷ 6 ∷ 7 ∷ 8 ∷ 9 ∷ 10 ∷ 11 ∷ 12 ∷ 13 ∷ 14 ∷
        16 ∷ 17 ∷ 18 ∷ 19 ∷ 20 ∷ 21 ∷ 22 ∷ 23 ∷ 24 ∷ 25 ∷ 26 ∷ 27 ∷ 28 ∷ 29 ∷ 30 ∷
        31 ∷ 32 ∷ 33 ∷ 34 ∷ 35 ∷ 36 ∷ []) }
{
    [
        Tag::END_OF_VALUE,
        Tag::BOOLEAN,
        Tag::INTEGER,
        Tag::BIT_STRING,
        Tag::OCTET_STRING,
        Tag::NULL,
        Tag::OID,
        Tag::OBJECT_DESCRIPTOR,
        Tag::EXTERNAL,
        Tag::REAL,
        Tag::ENUMERATED,
        Tag::EMBEDDED_PDV,
        Tag::UTF8_STRING,
        Tag::RELATIVE_OID,
        Tag::TIME,
        Tag::SEQUENCE,
        Tag::SET,
        Tag::NUMERIC_STRING,
        Tag::PRINTABLE_STRING,
        Tag::TELETEX_STRING,
        Tag::VIDEOTEX_STRING,
        Tag::IA5_STRING,
        Tag::UTC_TIME,
        Tag::GENERALIZED_TIME,
        Tag::GRAPHIC_STRING,
        Tag::VISIBLE_STRING,
        Tag::GENERAL_STRING,
        Tag::UNIVERSAL_STRING,
        Tag::CHARACTER_STRING,
        Tag::BMP_STRING,
        Tag::DATE,
        Tag::TIME_OF_DAY,
        Tag::DATE_TIME,
        Tag::DURATION,
        Tag::OID_IRI,
        Tag::RELATIVE_OID_IRI,
    ]
}

/// The context-specific tags that are constants, by their numbers.
pub fn context_tags() -> [Tag; 7]
    ensures { result ≡ map context (0 ∷ 1 ∷ 2 ∷ 3 ∷ 4 ∷ 5 ∷ 6 ∷ []) }
{
    [
        Tag::CTX_0,
        Tag::CTX_1,
        Tag::CTX_2,
        Tag::CTX_3,
        Tag::CTX_4,
        Tag::CTX_5,
        Tag::CTX_6,
    ]
}
