//! Character sets.
ghost use Rattle.std.specs.Prelude.{◌≡◌, ◌≤◌, ℕ, List, [], length, chars, All, IfOk, IfSome, IfNone, OnOk, OnErr};
ghost use Rattle.bcder.specs.bcder_tree.Tags.{TagValue, IsTag};
ghost use Rattle.bcder.specs.Texts.{Tells, IsText, Starts, NoStart, HasOneStart};

use crate::string::CharSetError;
use bcder_octets::bcder_source::Tag;

/// A set of characters, and how octets spell them (X.680 clause 41, X.690 8.23).
///
/// `type_tag` is the tag of its strings, `has` are its characters, by their codes, and `spell` are the octets of
/// one. A text is characters of the set, the octets of each after those of the one before; `chars_of` are the
/// characters of a text's octets.
pub trait CharSet {
    ghost type_tag: { TagValue };

    ghost has: { ℕ → Type 0 };

    ghost spell: { ℕ → List ℕ };

    ghost chars_of: { List ℕ → List ℕ };

    /// The tag of its strings (X.680 8.4, table 1).
    fn tag() -> Tag
        ensures { result ≡ type_tag };

    /// The character in front of octets, and what comes after it; None where there are no octets.
    fn next_char(octets: &[u8]) -> Result<Option<(char, &[u8])>, CharSetError>
        ensures next { IfOk result
            (λ found. IfSome found (λ p. Starts has spell octets.now p.0 p.1.now)) }
        ensures end { IfOk result (λ found. IfNone found (octets.now ≡ [])) }
        ensures refused { OnErr result (NoStart has spell octets.now) };

    /// The octets that spell a text, if all its characters are in the set.
    fn from_str(text: &str) -> Result<&[u8], CharSetError>
        ensures told { IfOk result (λ octets. Tells has spell octets.now (chars text.now)) }
        ensures refused { OnErr result (All has (chars text.now) → ⊥) };

    // A tag that values have.
    ghost is_tag: { IsTag type_tag };

    // Octets that tell characters tell these.
    ghost told: { (octets text : List ℕ) → Tells has spell octets text → chars_of octets ≡ text };

    // A character has octets.
    ghost some_octet: { (c : ℕ) → has c → 1 ≤ length (spell c) };

    // One stands in front at most.
    ghost one_start: { HasOneStart has spell };

    /// Whether octets are a text of the set.
    final fn check(octets: &[u8]) -> Result<(), CharSetError>
        ensures text { OnOk result (IsText has spell octets.now) }
        ensures refused { OnErr result (IsText has spell octets.now → ⊥) }
    {
        let mut rest = octets;
        'text: while let Some((_, behind)) = Self::next_char(rest)? {
            rest = behind;
        }
        Ok(())
    }
}
