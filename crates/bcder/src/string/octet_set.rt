//! Sets of ASCII characters, each of one octet.
ghost use Rattle.std.specs.Prelude.{◌≡◌, ◌<◌, ◌↔◌, ℕ, [], chars, All, IsTrue, IfOk, IfSome, IfNone, OnErr};
ghost use Rattle.bcder.specs.Sets.{alone};
ghost use Rattle.bcder.specs.Texts.{Tells, Starts, NoStart};

use crate::string::CharSetError;

// A set of ASCII characters.
pub(crate) trait OctetSet {
    ghost member: { ℕ → Type 0 };

    fn contains(octet: u8) -> bool
        ensures { IsTrue result ↔ member octet };

    ghost is_ascii: { (c : ℕ) → member c → c < 128 };
}

// The character in front of octets, and what comes after it.
pub(crate) fn next_of<S: OctetSet>(octets: &[u8]) -> Result<Option<(char, &[u8])>, CharSetError>
    ensures next { IfOk result
        (λ found. IfSome found (λ p. Starts S.member alone octets.now p.0 p.1.now)) }
    ensures end { IfOk result (λ found. IfNone found (octets.now ≡ [])) }
    ensures refused { OnErr result (NoStart S.member alone octets.now) }
{
    let Some((first, behind)) = octets.split_first() else {
        return Ok(None);
    };
    if !S::contains(*first) {
        return Err(CharSetError);
    }
    Ok(Some((char::from(*first), behind)))
}

// Whether all octets are in the set.
fn are_members<S: OctetSet>(octets: &[u8]) -> bool
    ensures { IsTrue result ↔ All S.member octets.now }
{
    let mut rest = octets;
    'text: while let Some((first, behind)) = rest.split_first() {
        if !S::contains(*first) {
            return false;
        }
        rest = behind;
    }
    true
}

// The octets of a text, if all its characters are in the set.
pub(crate) fn text_of<S: OctetSet>(text: &str) -> Result<&[u8], CharSetError>
    ensures told { IfOk result (λ octets. Tells S.member alone octets.now (chars text.now)) }
    ensures refused { OnErr result (All S.member (chars text.now) → ⊥) }
{
    let octets = text.as_bytes();
    if are_members::<S>(octets) {
        return Ok(octets);
    }
    Err(CharSetError)
}
