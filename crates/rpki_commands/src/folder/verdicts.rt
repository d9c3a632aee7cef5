//! The lines of `verdicts`, each of three digests in hexadecimal digits.

ghost use Rattle.std.specs.Prelude.{◌≡◌, ◌∷◌, ℕ, List, IfSome, IfNone, IfOk, IfErr};
ghost use Rattle.rpki_commands.specs.rpki_bundle.declared.parts.Verdict.{Verdict as VerdictValue};
ghost use Rattle.rpki_commands.specs.rpki_bundle.Errors.{OnNotABundle};
ghost use Rattle.rpki_commands.specs.Folders.{OnMemory};
ghost use Rattle.rpki_commands.specs.Verdicts.{StartsWithVerdict, TakesDigest, TakesNextDigest, TakesEnd, TakesVerdict, TellsVerdicts};

use hex::FromHex;
use rpki_validator::{BundleError, Verdict};
use std::alloc::Global;

// How many digits a digest has.
const DIGITS: usize = 64;

// The digest in front, and what comes after its digits.
fn take_digest(text: &[u8]) -> Option<([u8; 32], &[u8])>
    ensures found { IfSome result (λ r. TakesDigest text.now r.0 r.1.now) }
    ensures none { IfNone result ((digest rest : List ℕ) → TakesDigest text.now digest rest → ⊥) }
{
    let Some((digits, rest)) = text.split_at_checked(DIGITS) else {
        return None;
    };
    match <[u8; 32]>::from_hex(digits) {
        Ok(digest) => Some((digest, rest)),
        Err(_) => None,
    }
}

// The digest after a space in front, and what comes after its digits.
fn take_next_digest(text: &[u8]) -> Option<([u8; 32], &[u8])>
    ensures found { IfSome result (λ r. TakesNextDigest text.now r.0 r.1.now) }
    ensures none { IfNone result
        ((digest rest : List ℕ) → TakesNextDigest text.now digest rest → ⊥) }
{
    match text.split_first() {
        Some((b' ', rest)) => take_digest(rest),
        _ => None,
    }
}

// What comes after a line feed.
fn behind_line_feed(text: &[u8]) -> Option<&[u8]>
    ensures found { IfSome result (λ rest. text.now ≡ 10 ∷ rest.now) }
    ensures none { IfNone result ((rest : List ℕ) → text.now ≡ 10 ∷ rest → ⊥) }
{
    match text.split_first() {
        Some((b'\n', rest)) => Some(rest),
        _ => None,
    }
}

// What comes after a line end; nothing comes after a missing one.
fn behind_end(text: &[u8]) -> Option<&[u8]>
    ensures found { IfSome result (λ rest. TakesEnd text.now rest.now) }
    ensures none { IfNone result ((rest : List ℕ) → TakesEnd text.now rest → ⊥) }
{
    match text.split_first() {
        None => Some(text),
        Some((b'\n', rest)) => Some(rest),
        Some((b'\r', rest)) => behind_line_feed(rest),
        _ => None,
    }
}

// The verdict of the line in front, and what comes after its end.
fn take_verdict(text: &[u8]) -> Option<(Verdict, &[u8])>
    ensures found { IfSome result (λ r. TakesVerdict text.now r.0 r.1.now) }
    ensures none { IfNone result
        ((verdict : VerdictValue) (rest : List ℕ) → TakesVerdict text.now verdict rest → ⊥) }
{
    let Some(front) = take_digest(text) else {
        return None;
    };
    let key = front.0;
    let rest = front.1;
    let Some(front) = take_next_digest(rest) else {
        return None;
    };
    let message = front.0;
    let rest = front.1;
    let Some(front) = take_next_digest(rest) else {
        return None;
    };
    let signature = front.0;
    let rest = front.1;
    let Some(rest) = behind_end(rest) else {
        return None;
    };
    let verdict = Verdict {
        key,
        message,
        signature,
    };
    Some((verdict, rest))
}

/// The verdicts of the lines, in the order of the lines.
pub(crate) fn verdicts_of(alloc: Global, text: &[u8]) -> Result<Vec<Verdict>, BundleError>
    ensures ok { IfOk result (λ verdicts. TellsVerdicts text.now verdicts.items) }
    ensures refused { IfErr result (λ e. OnNotABundle e
        ((verdicts : List VerdictValue) → TellsVerdicts text.now verdicts → ⊥)) }
    ensures memory { IfErr result (λ e. OnMemory e (StartsWithVerdict text.now)) }
{
    let mut verdicts = Vec::new(alloc);
    let mut rest = text;
    while !rest.is_empty() {
        let Some((verdict, behind)) = take_verdict(rest) else {
            return Err(BundleError::NotABundle);
        };
        verdicts.push(verdict)?;
        rest = behind;
    }
    Ok(verdicts)
}
