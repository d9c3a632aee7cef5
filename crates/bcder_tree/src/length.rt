//! Length octets (X.690 8.1.3).
ghost use Rattle.std.specs.Prelude.{◌≡◌, ◌↔◌, ◌^◌, ◌<◌, ◌≤◌, ℕ, List, length, take, ◌∷◌, IfSome, IfNone, IsTrue, OnOk};
ghost use Rattle.std.specs.Io.KnownBytes.{Appends};
ghost use Rattle.bcder_tree.specs.Octets.{IsLength, Shortest};
ghost use Rattle.bcder_tree.specs.Lengths.{SpellsLength, SpellsEverywhere, IsWritable};
ghost use Rattle.bcder_tree.specs.Reads.{Begins, Lacks};
ghost use Rattle.bcder_tree.specs.declared.length.Length.{Length as LengthValue};
ghost use Rattle.bcder_tree.specs.declared.mode.Mode.TheVariants.{Der};

use crate::Mode;
use std::io;

/// The length of a content (X.690 8.1.3).
#[derive(Clone, Copy, Debug, PartialEq, Eq)]
pub enum Length {
    /// So many octets (8.1.3.3).
    Definite(usize),
    /// To the end-of-contents octets (8.1.3.6).
    Indefinite,
}

// Whether a length from low on may be spelled so.
fn is_shortest(mode: Mode, low: usize, length: usize) -> bool
    ensures { IsTrue result ↔ Shortest mode low length }
{
    match mode {
        Mode::Ber => true,
        Mode::Cer | Mode::Der => low <= length,
    }
}

// The octet after `81`; the count of octets includes the first.
fn length_of_1(mode: Mode, octets: &[u8]) -> Option<(usize, usize)>
    ensures found { IfSome result
        (λ r. Begins (λ text. IsLength mode text r.0) (129 ∷ octets.now) r.1) }
    ensures none { IfNone result
        ((n : ℕ) → Lacks (λ text. IsLength mode text n) (129 ∷ octets.now)) }
{
    let [a, ..] = octets else {
        return None;
    };
    let length = *a as usize;
    if is_shortest(mode, 128, length) {
        return Some((length, 2));
    }
    None
}

// The two octets after `82`.
fn length_of_2(mode: Mode, octets: &[u8]) -> Option<(usize, usize)>
    ensures found { IfSome result
        (λ r. Begins (λ text. IsLength mode text r.0) (130 ∷ octets.now) r.1) }
    ensures none { IfNone result
        ((n : ℕ) → Lacks (λ text. IsLength mode text n) (130 ∷ octets.now)) }
{
    let [a, b, ..] = octets else {
        return None;
    };
    let length = *a as usize * 256 + *b as usize;
    if is_shortest(mode, 256, length) {
        return Some((length, 3));
    }
    None
}

// The three octets after `83`.
fn length_of_3(mode: Mode, octets: &[u8]) -> Option<(usize, usize)>
    ensures found { IfSome result
        (λ r. Begins (λ text. IsLength mode text r.0) (131 ∷ octets.now) r.1) }
    ensures none { IfNone result
        ((n : ℕ) → Lacks (λ text. IsLength mode text n) (131 ∷ octets.now)) }
{
    let [a, b, c, ..] = octets else {
        return None;
    };
    let length = *a as usize * 65536 + *b as usize * 256 + *c as usize;
    if is_shortest(mode, 65536, length) {
        return Some((length, 4));
    }
    None
}

// The four octets after `84`.
fn length_of_4(mode: Mode, octets: &[u8]) -> Option<(usize, usize)>
    ensures found { IfSome result
        (λ r. Begins (λ text. IsLength mode text r.0) (132 ∷ octets.now) r.1) }
    ensures none { IfNone result
        ((n : ℕ) → Lacks (λ text. IsLength mode text n) (132 ∷ octets.now)) }
{
    let [a, b, c, d, ..] = octets else {
        return None;
    };
    let length = *a as usize * 16777216 + *b as usize * 65536 + *c as usize * 256 + *d as usize;
    if is_shortest(mode, 16777216, length) {
        return Some((length, 5));
    }
    None
}

// A definite length after its first octet, `81` to `84`, and how many octets it takes with that.
fn long_length(mode: Mode, first: u8, octets: &[u8]) -> Option<(usize, usize)>
    requires { 128 < first }
    ensures found { IfSome result
        (λ r. Begins (λ text. IsLength mode text r.0) (first ∷ octets.now) r.1) }
    ensures none { IfNone result
        ((n : ℕ) → Lacks (λ text. IsLength mode text n) (first ∷ octets.now)) }
{
    match first {
        129 => length_of_1(mode, octets),
        130 => length_of_2(mode, octets),
        131 => length_of_3(mode, octets),
        132 => length_of_4(mode, octets),
        _ => None,
    }
}

// How many octets the shortest spelling takes.
fn shortest_len(size: usize) -> usize
    ensures len { (text : List ℕ) → IsLength Der text size → length text ≡ result }
    ensures bound { result ≤ 5 }
{
    if size < 128 {
        return 1;
    }
    if size < 256 {
        return 2;
    }
    if size < 65536 {
        return 3;
    }
    if size < 16777216 {
        return 4;
    }
    5
}

impl Length {
    /// The length octets in front (X.690 8.1.3, 9.1, 10.1): the length, and how many octets they are.
    ///
    /// None where no front of the octets is a length in that mode: where the octets end within it,
    /// where it begins with `85` or above, and in CER and DER where it isn't the shortest.
    #[inline(always)]
    pub fn read(mode: Mode, octets: &[u8]) -> Option<(Length, usize)>
        ensures found { IfSome result (λ r. Begins (SpellsLength mode r.0) octets.now r.1) }
        ensures none { IfNone result ((l : LengthValue) → Lacks (SpellsLength mode l) octets.now) }
    {
        let [first, rest @ ..] = octets else {
            return None;
        };
        if *first < 128 {
            return Some((Length::Definite(*first as usize), 1));
        }
        if *first == 128 {
            return Some((Length::Indefinite, 1));
        }
        match long_length(mode, *first, rest) {
            Some((length, count)) => Some((Length::Definite(length), count)),
            None => None,
        }
    }

    /// Whether the length is definite and 0.
    pub fn is_zero(self) -> bool
        ensures { IsTrue result ↔ (self ≡ Length.Definite 0) }
    {
        match self {
            Length::Definite(0) => true,
            _ => false,
        }
    }

    /// How many length octets are written, one to five.
    pub fn encoded_len(self) -> usize
        requires { IsWritable self }
        ensures len { (text : List ℕ) → SpellsEverywhere self text → length text ≡ result }
        ensures bound { result ≤ 5 }
    {
        match self {
            Length::Definite(size) => shortest_len(size),
            Length::Indefinite => 1,
        }
    }

    /// The octets of a definite length (X.690 8.1.3), the fewest: they stand in front of the five, and are so many.
    pub fn encoded(length: usize) -> ([u8; 5], usize)
        requires { length < 2 ^ 32 }
        ensures octets { SpellsEverywhere (Length.Definite length) (take result.1 result.0) }
        ensures bound { result.1 ≤ 5 }
    {
        let a = (length / 16777216) as u8;
        let b = (length / 65536 % 256) as u8;
        let c = (length / 256 % 256) as u8;
        let d = (length % 256) as u8;
        if length < 128 {
            return ([d, 0, 0, 0, 0], 1);
        }
        if length < 256 {
            return ([129, d, 0, 0, 0], 2);
        }
        if length < 65536 {
            return ([130, c, d, 0, 0], 3);
        }
        if length < 16777216 {
            return ([131, b, c, d, 0], 4);
        }
        ([132, a, b, c, d], 5)
    }

    /// Writes the length octets (X.690 8.1.3): the fewest, which stand in every mode.
    pub fn write_encoded<W: io::Write>(self, target: &mut W) -> io::Result<()>
        requires { IsWritable self }
        ensures { OnOk result
            ((text : List ℕ) × SpellsEverywhere self text
            × Appends (W.contents target.old) (W.contents target.new) text) }
    {
        match self {
            Length::Definite(length) => {
                let (octets, count) = Length::encoded(length);
                target.write_all(&octets[..count])
            }
            Length::Indefinite => target.write_all(&[128]),
        }
    }
}
