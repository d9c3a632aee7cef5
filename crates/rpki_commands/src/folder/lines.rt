//! Files of one line: the moment, the depth, and whether signed objects are relaxed.

ghost use Rattle.std.specs.Prelude.{ℕ, ◌↔◌, Bool, IsTrue, IfSome, IfNone};
ghost use Rattle.rpki_commands.specs.Lines.{IsEnd, TellsMoment, TellsDepth, TellsFlag};

use rpki_validator::Time;

// How many octets YYYYMMDDHHMMSSZ has.
const MOMENT_LENGTH: usize = 15;

/// Whether the octets are a line end, or nothing.
pub(crate) fn is_end(octets: &[u8]) -> bool
    ensures { IsTrue result ↔ IsEnd octets.now }
{
    matches!(octets, [] | [b'\n'] | [b'\r', b'\n'])
}

/// The moment that a text of one line states.
pub(crate) fn moment_of(text: &[u8]) -> Option<Time>
    ensures found { IfSome result (λ moment. TellsMoment text.now moment) }
    ensures none { IfNone result ((moment : ℕ) → TellsMoment text.now moment → ⊥) }
{
    let Some((line, end)) = text.split_at_checked(MOMENT_LENGTH) else {
        return None;
    };
    if !is_end(end) {
        return None;
    }
    Time::from_generalized(line)
}

/// The depth that a text of one line states.
pub(crate) fn depth_of(text: &[u8]) -> Option<u8>
    ensures found { IfSome result (λ depth. TellsDepth text.now depth) }
    ensures none { IfNone result ((depth : ℕ) → TellsDepth text.now depth → ⊥) }
{
    let Some((tens, end)) = text.split_first() else {
        return None;
    };
    if !(b'1'..=b'9').contains(tens) {
        return None;
    }
    let tens = *tens - b'0';
    if is_end(end) {
        return Some(tens);
    }
    match end.split_first() {
        Some((ones, end)) if ones.is_ascii_digit() && is_end(end) => Some(
            tens * 10 + (*ones - b'0'),
        ),
        _ => None,
    }
}

/// Whether a text of one line says that signed objects are relaxed, or that they aren't.
pub(crate) fn flag_of(text: &[u8]) -> Option<bool>
    ensures found { IfSome result (λ relaxed. TellsFlag text.now relaxed) }
    ensures none { IfNone result ((relaxed : Bool) → TellsFlag text.now relaxed → ⊥) }
{
    match text {
        [b't', b'r', b'u', b'e', end @ ..] if is_end(end) => Some(true),
        [b'f', b'a', b'l', b's', b'e', end @ ..] if is_end(end) => Some(false),
        _ => None,
    }
}
