//! Object identifiers of texts: `1.2.840.113549`.

ghost use Rattle.std.specs.Prelude.{◌≡◌, ◌≢◌, ◌++◌, ◌∷◌, [], ℕ, List, IfOk, IfErr, OnOk, MatchOption};
ghost use Rattle.bcder.specs.Subidentifiers.{InTurn, IsShortest};
ghost use Rattle.bcder.specs.OidTexts.{IsComponentText, IsDotted, IsOidText, MayBegin, Spells, ReadsText, OnRefused, FrontRefused, NumbersRefused, WhyRefused, HighOctets, IsLastPiece, IsFirstPiece};

use crate::oid::oid::Oid;
use bytes::Bytes;
use std::alloc::{AllocError, Global};
use thiserror::Error;

/// Why a text is no object identifier.
#[derive(Debug, Drop, Error)]
pub enum ParseOidError {
    /// There is one component alone, or none.
    #[error("at least two components required")]
    TooFew,
    /// A component isn't a number of 32 bits in decimal digits.
    #[error("only integer components allowed")]
    Component,
    /// The first component is above 2.
    #[error("first component can only be 0, 1, or 2")]
    First,
    /// The second component is above 39, where the first is 0 or 1.
    #[error("second component for 0 and 1 must be less than 40")]
    Second,
    /// Memory was wanted.
    #[error("out of memory")]
    Memory,
}

impl Oid<Bytes> {
    /// The object identifier of a text: two or more numbers up to `u32::MAX` in decimal digits, with dots between
    /// them; the first is at most 2, and the second below 40 where the first is 0 or 1 (X.690 8.19.4).
    ///
    /// Zeros or one plus may stand in front of digits. The octets are the fewest. A refusal tells the first test that
    /// fails: that all are numbers, that they are two at least, and then the first two. Where memory is wanted, the text
    /// is that of an identifier.
    pub fn from_str(alloc: Global, text: &str) -> Result<Self, ParseOidError>
        ensures reads { IfOk result (λ oid. ReadsText text.now oid.0) }
        ensures refused { IfErr result
            (λ e. OnRefused e ((octets : List ℕ) → ReadsText text.now octets → ⊥)) }
        ensures cause { IfErr result (λ e. WhyRefused e text.now) }
        ensures memory { IfErr result (λ e. e ≡ ParseOidError.Memory
            → (components : List ℕ) × IsOidText text.now components) }
    {
        match read_text(alloc, text) {
            Ok(oid) => Ok(oid),
            Err(ParseOidError::Memory) => {
                judge(text)?;
                Err(ParseOidError::Memory)
            }
            Err(error) => Err(error),
        }
    }
}

// The object identifier of a text.
fn read_text(alloc: Global, text: &str) -> Result<Oid<Bytes>, ParseOidError>
    ensures reads { IfOk result (λ oid. ReadsText text.now oid.0) }
    ensures refused { IfErr result
        (λ e. OnRefused e ((octets : List ℕ) → ReadsText text.now octets → ⊥)) }
    ensures cause { IfErr result (λ e. WhyRefused e text.now) }
{
    let numbers = read_numbers(alloc, text)?;
    let octets = write_components(alloc, &numbers)?;
    match Bytes::from_vec(octets) {
        Ok(octets) => Ok(Oid(octets)),
        Err(_) => Err(ParseOidError::Memory),
    }
}

// Refuses a text that is of no identifier; it takes no memory.
fn judge(text: &str) -> Result<(), ParseOidError>
    ensures reads { OnOk result ((components : List ℕ) × IsOidText text.now components) }
    ensures refused { IfErr result
        (λ e. OnRefused e ((octets : List ℕ) → ReadsText text.now octets → ⊥)) }
    ensures no_memory { IfErr result (λ e. e ≢ ParseOidError.Memory) }
    ensures cause { IfErr result (λ e. WhyRefused e text.now) }
{
    judge_numbers(text)?;
    judge_front(text)
}

// Refuses a text that isn't of numbers with dots between them.
fn judge_numbers(text: &str) -> Result<(), ParseOidError>
    ensures reads { OnOk result ((ns : List ℕ) × IsDotted text.now ns) }
    ensures refused { IfErr result (λ e. OnRefused e ((ns : List ℕ) → IsDotted text.now ns → ⊥)) }
    ensures no_memory { IfErr result (λ e. e ≢ ParseOidError.Memory) }
    ensures cause { IfErr result (λ e. WhyRefused e text.now) }
{
    let mut rest = text;
    loop {
        let (front, behind) = piece(rest);
        component(front)?;
        let Some(behind) = behind else {
            return Ok(());
        };
        rest = behind;
    }
}

// Refuses a text whose first two numbers begin no identifier.
fn judge_front(text: &str) -> Result<(), ParseOidError>
    ensures begins { OnOk result ((ns : List ℕ) → IsDotted text.now ns → MayBegin ns) }
    ensures refused { IfErr result
        (λ e. OnRefused e ((octets : List ℕ) → ReadsText text.now octets → ⊥)) }
    ensures no_memory { IfErr result (λ e. e ≢ ParseOidError.Memory) }
    ensures cause { IfErr result
        (λ e. (ns : List ℕ) → IsDotted text.now ns → WhyRefused e text.now) }
{
    let (front, behind) = piece(text);
    let first = component(front)?;
    let Some(behind) = behind else {
        return Err(ParseOidError::TooFew);
    };
    let (front, _) = piece(behind);
    let second = component(front)?;
    judge_components(first, second)
}

// The number of a component's text.
fn component(text: &str) -> Result<u32, ParseOidError>
    ensures reads { IfOk result (λ n. IsComponentText text.now n) }
    ensures refused { IfErr result (λ e. OnRefused e ((n : ℕ) → IsComponentText text.now n → ⊥)) }
    ensures no_memory { IfErr result (λ e. e ≢ ParseOidError.Memory) }
    ensures cause { IfErr result (λ e. e ≡ ParseOidError.Component) }
{
    match text.parse::<u32>() {
        Ok(number) => Ok(number),
        Err(_) => Err(ParseOidError::Component),
    }
}

// The text in front of the first dot, and what comes after the dot.
fn piece(text: &str) -> (&str, Option<&str>)
    ensures { MatchOption result.1 (IsLastPiece text.now result.0.now)
        (λ behind. IsFirstPiece text.now result.0.now behind.now) }
{
    match text.split_once('.') {
        Some((front, behind)) => (front, Some(behind)),
        None => (text, None),
    }
}

// The numbers of a text, with dots between them.
fn read_numbers(alloc: Global, text: &str) -> Result<Vec<u32>, ParseOidError>
    ensures reads { IfOk result (λ v. IsDotted text.now v.items) }
    ensures refused { IfErr result (λ e. OnRefused e ((ns : List ℕ) → IsDotted text.now ns → ⊥)) }
    ensures cause { IfErr result (λ e. WhyRefused e text.now) }
{
    let mut numbers = Vec::new(alloc);
    let mut rest = text;
    loop {
        let (front, behind) = piece(rest);
        let number = component(front)?;
        let Ok(()) = numbers.push(number) else {
            return Err(ParseOidError::Memory);
        };
        let Some(behind) = behind else {
            return Ok(numbers);
        };
        rest = behind;
    }
}

// Refuses numbers that may not be the first two components (X.690 8.19.4).
fn judge_components(first: u32, second: u32) -> Result<(), ParseOidError>
    ensures begins { OnOk result (MayBegin (first ∷ second ∷ [])) }
    ensures refused { IfErr result (λ e. OnRefused e (MayBegin (first ∷ second ∷ []) → ⊥)) }
    ensures no_memory { IfErr result (λ e. e ≢ ParseOidError.Memory) }
    ensures cause { IfErr result (λ e. FrontRefused e first second) }
{
    if first > 2 {
        return Err(ParseOidError::First);
    }
    if first < 2 && second >= 40 {
        return Err(ParseOidError::Second);
    }
    Ok(())
}

// The octets of components.
fn write_components(alloc: Global, components: &[u32]) -> Result<Vec<u8>, ParseOidError>
    ensures begins { OnOk result (MayBegin components.now) }
    ensures spells { IfOk result (λ v. Spells v.items components.now) }
    ensures refused { IfErr result (λ e. OnRefused e (MayBegin components.now → ⊥)) }
    ensures cause { IfErr result (λ e. NumbersRefused e components.now) }
{
    let Some((first, behind)) = components.split_first() else {
        return Err(ParseOidError::TooFew);
    };
    let Some((second, others)) = behind.split_first() else {
        return Err(ParseOidError::TooFew);
    };
    judge_components(*first, *second)?;
    let root = 40 * u64::from(*first) + u64::from(*second);
    match write_numbers(alloc, root, others) {
        Ok(octets) => Ok(octets),
        Err(_) => Err(ParseOidError::Memory),
    }
}

// The subidentifiers of numbers, one after the other.
fn write_numbers(alloc: Global, root: u64, others: &[u32]) -> Result<Vec<u8>, AllocError>
    ensures { IfOk result (λ v. InTurn IsShortest v.items (root ∷ others.now)) }
{
    let mut octets = Vec::new(alloc);
    push_number(&mut octets, root)?;
    for number in others {
        push_number(&mut octets, u64::from(*number))?;
    }
    Ok(octets)
}

// Puts a subidentifier after other octets, in the fewest.
fn push_number(octets: &mut Vec<u8>, number: u64) -> Result<(), AllocError>
    ensures { OnOk result
        ((text : List ℕ) × (octets.new.items ≡ octets.old.items ++ text) × IsShortest text number) }
{
    push_high(octets, number / 128)?;
    octets.push((number % 128) as u8)?;
    Ok(())
}

// Puts the octets of a subidentifier, but not the last, after other octets: none for zero.
fn push_high(octets: &mut Vec<u8>, number: u64) -> Result<(), AllocError>
    ensures { OnOk result
        ((text : List ℕ) × (octets.new.items ≡ octets.old.items ++ text) × HighOctets text number) }
{
    if number > 0 {
        push_high(octets, number / 128)?;
        octets.push((128 + number % 128) as u8)?;
    }
    Ok(())
}
