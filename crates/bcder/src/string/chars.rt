//! The characters of a restricted string, one by one.

ghost use Rattle.std.specs.Prelude.{◌≡◌, ◌∷◌, [], IfSome, IfNone};
ghost use Rattle.std.specs.Iterator.{YieldsFirst, item_count};
ghost use Rattle.bcder.specs.Texts.{IsText};

use crate::string::CharSet;
use std::marker::{Model, PhantomData};

/// The characters of a restricted string, in their order. Contracts see the list of those that are left.
#[derive(Debug, Drop)]
pub struct RestrictedStringChars<'a, L: CharSet> {
    octets: &'a [u8],
    set: PhantomData<L>,
}

impl<'a, L: CharSet> Model for RestrictedStringChars<'a, L> {
    ghost use Rattle.std.specs.Prelude.{List, ℕ};
    ghost use Rattle.bcder.specs.Texts.{IsText};

    ghost Value = { List ℕ };

    ghost view = { λ a. L.chars_of a.octets.now };

    ghost invariant = { λ a. IsText L.has L.spell a.octets.now };
}

impl<'a, L: CharSet> RestrictedStringChars<'a, L> {
    // The characters of a text.
    pub(crate) fn of_text(octets: &'a [u8]) -> Self
        requires { IsText L.has L.spell octets.now }
        ensures { result ≡ L.chars_of octets.now }
    {
        RestrictedStringChars {
            octets,
            set: PhantomData,
        }
    }
}

// The first character of a text, and what comes after it.
fn first_of<L: CharSet>(octets: &[u8]) -> Option<(char, &[u8])>
    requires { IsText L.has L.spell octets.now }
    ensures first { IfSome result (λ p. L.chars_of octets.now ≡ p.0 ∷ L.chars_of p.1.now) }
    ensures text { IfSome result (λ p. IsText L.has L.spell p.1.now) }
    ensures none { IfNone result (L.chars_of octets.now ≡ []) }
{
    match L::next_char(octets) {
        Ok(found) => found,
        Err(_) => None,
    }
}

impl<'a, L: CharSet> Iterator for RestrictedStringChars<'a, L> {
    type Item = char;

    ghost next_gives = { YieldsFirst (λ s. s) };

    ghost remaining = { item_count (λ s. s) };

    fn next(&mut self) -> Option<char> {
        let (first, behind) = first_of::<L>(self.octets)?;
        self.octets = behind;
        Some(first)
    }
}
