//! Laws of texts: the contracts of functions that do nothing.

ghost use Rattle.std.specs.Prelude.{◌≡◌, ◌↔◌, ℕ, List, All, IsUtf8, encode_utf8};
ghost use Rattle.bcder.specs.Sets.{IsUnicode, IsNumeric, IsPrintable, IsIa5, alone};
ghost use Rattle.bcder.specs.Texts.{Tells, IsText};

use crate::string::CharSet;

/// Octets tell one list of characters at most.
pub fn one_text<L: CharSet>()
    ensures { (octets a b : List ℕ) → Tells L.has L.spell octets a → Tells L.has L.spell octets b
        → a ≡ b }
{}

/// The texts of a UTF8String are the octets that are UTF-8.
pub fn utf8_texts()
    ensures { (octets : List ℕ) → IsText IsUnicode encode_utf8 octets ↔ IsUtf8 octets }
{}

/// The texts of the sets of ASCII are octets that are each in the set.
pub fn ascii_texts()
    ensures numeric { (octets : List ℕ) → IsText IsNumeric alone octets ↔ All IsNumeric octets }
    ensures printable { (octets : List ℕ) → IsText IsPrintable alone octets
        ↔ All IsPrintable octets }
    ensures ia5 { (octets : List ℕ) → IsText IsIa5 alone octets ↔ All IsIa5 octets }
{}
