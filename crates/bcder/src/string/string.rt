//! `RestrictedString`.

ghost use Rattle.std.specs.Prelude.{◌≡◌, ◌↔◌, ◌≤◌, [], chars as chars_of_text, length, encode_utf8_all, string_bytes, All, IsTrue, IfOk, IfErr, IsSomeAnd, OnErr, Some, nat_eq};
ghost use Rattle.std.specs.Ordering.{nat_cmp};
ghost use Rattle.std.specs.Hash as fed;
ghost use Rattle.std.specs.Cmp.Lexicographic.{pointwise, slice_cmp, nat_list_eq_equiv, nat_list_cmp_total, texts_ties, texts_po};
ghost use Rattle.std.specs.Cmp.{partial_equiv_from_equiv};
ghost use Rattle.std.specs.Cmp.Rules.{hashing};
ghost use Rattle.std.proofs.Common.{rules, refl};
ghost use Rattle.bcder.specs.Texts.{Tells, IsText};
ghost use Rattle.bcder.specs.Errors.{OnCharSet, OnMemory};

use crate::string::chars::RestrictedStringChars;
use crate::string::error::RestrictedStringError;
use crate::string::{
    CharSet, CharSetError, Ia5CharSet, NumericCharSet, PrintableCharSet, Utf8CharSet,
};
use bcder_octets::OctetString;
use bytes::Bytes;
use std::alloc::{AllocError, Global};
use std::cmp::Ordering;
use std::fmt;
use std::hash::{Hash, Hasher};
use std::marker::{Model, PhantomData};

/// A restricted character string (X.680 41, X.690 8.23): octets that are a text of a character set. Contracts see the
/// octets.
///
/// Equality, order and hash are those of the octets.
#[derive(Debug, Drop)]
pub struct RestrictedString<L: CharSet> {
    octets: OctetString,
    set: PhantomData<L>,
}

/// A UTF8String: any characters, in UTF-8 (X.680 41.16, X.690 8.23.10).
pub type Utf8String = RestrictedString<Utf8CharSet>;

/// A NumericString: digits and space (X.680 41.2).
pub type NumericString = RestrictedString<NumericCharSet>;

/// A PrintableString: letters, digits, space and `'()+,-./:=?` (X.680 41.4).
pub type PrintableString = RestrictedString<PrintableCharSet>;

/// An IA5String: characters 00 to 7F (X.680 41.1).
pub type Ia5String = RestrictedString<Ia5CharSet>;

impl<L: CharSet> Model for RestrictedString<L> {
    ghost use Rattle.std.specs.Prelude.{ℕ, List};
    ghost use Rattle.bcder.specs.Texts.{IsText};

    ghost Value = { List ℕ };

    ghost view = { λ a. a.octets };

    ghost invariant = { λ a. IsText L.has L.spell a.octets };
}

// The octets, which lie in one piece.
pub(crate) fn octets_of(string: &OctetString) -> &[u8]
    ensures { result.now ≡ string.now }
{
    string.as_slice().unwrap_or(&[])
}

// A copy of octets; where there are none no memory is wanted.
fn copy_of(alloc: Global, octets: &[u8]) -> Result<Bytes, AllocError>
    ensures octets { IfOk result (λ b. b ≡ octets.now) }
    ensures some { OnErr result (1 ≤ length octets.now) }
{
    if octets.is_empty() {
        return Ok(Bytes::new());
    }
    Bytes::copy_from_slice(alloc, octets)
}

/// Strings that are made.
impl<L: CharSet> RestrictedString<L> {
    // The string of octets that are a text.
    pub(crate) fn of_text(octets: OctetString) -> Self
        requires { IsText L.has L.spell octets }
        ensures { result ≡ octets }
    {
        RestrictedString {
            octets,
            set: PhantomData,
        }
    }

    /// The string of these octets, if they are a text of the set.
    pub fn new(octets: OctetString) -> Result<Self, CharSetError>
        ensures octets { IfOk result (λ string. string ≡ octets) }
        ensures text { IfOk result (λ string. IsText L.has L.spell string) }
        ensures refused { OnErr result (IsText L.has L.spell octets → ⊥) }
    {
        L::check(octets_of(&octets))?;
        Ok(RestrictedString::of_text(octets))
    }

    /// The string of these characters, if all are in the set. Memory is wanted only where there are some, all in the set.
    pub fn from_str(alloc: Global, text: &str) -> Result<Self, RestrictedStringError>
        ensures told { IfOk result (λ string. Tells L.has L.spell string (chars_of_text text.now)) }
        ensures refused { IfErr result (λ e. OnCharSet e (All L.has (chars_of_text text.now) → ⊥)) }
        ensures memory { IfErr result (λ e. OnMemory e (All L.has (chars_of_text text.now))) }
        ensures some { IfErr result (λ e. OnMemory e (1 ≤ length (chars_of_text text.now))) }
    {
        let Ok(octets) = L::from_str(text) else {
            return Err(RestrictedStringError::CharSet);
        };
        match copy_of(alloc, octets) {
            Ok(octets) => Ok(RestrictedString::of_text(OctetString::new(octets))),
            Err(_) => Err(RestrictedStringError::Memory),
        }
    }

    /// The string of these characters, if all are in the set; where their octets are those of the text, none is copied.
    /// Memory is wanted as by `from_str`.
    pub fn from_string(alloc: Global, text: String) -> Result<Self, RestrictedStringError>
        ensures told { IfOk result
            (λ string. Tells L.has L.spell string (chars_of_text (string_bytes text))) }
        ensures refused { IfErr result
            (λ e. OnCharSet e (All L.has (chars_of_text (string_bytes text)) → ⊥)) }
        ensures memory { IfErr result
            (λ e. OnMemory e (All L.has (chars_of_text (string_bytes text)))) }
        ensures some { IfErr result
            (λ e. OnMemory e (1 ≤ length (chars_of_text (string_bytes text)))) }
    {
        let Ok(octets) = L::from_str(text.as_str()) else {
            return Err(RestrictedStringError::CharSet);
        };
        if octets != text.as_bytes() {
            return RestrictedString::from_str(alloc, text.as_str());
        }
        match Bytes::from_vec(text.into_bytes()) {
            Ok(octets) => Ok(RestrictedString::of_text(OctetString::new(octets))),
            Err(_) => Err(RestrictedStringError::Memory),
        }
    }
}

/// What a string has.
impl<L: CharSet> RestrictedString<L> {
    // The octets.
    pub(crate) fn as_octets(&self) -> &[u8]
        ensures octets { result.now ≡ self.now }
        ensures text { IsText L.has L.spell self.now }
    {
        octets_of(&self.octets)
    }

    /// The characters, one by one.
    pub fn chars(&self) -> RestrictedStringChars<'_, L>
        ensures told { Tells L.has L.spell self.now result }
        ensures value { result ≡ L.chars_of self.now }
    {
        RestrictedStringChars::of_text(self.as_octets())
    }

    /// How many octets the string has.
    pub fn len(&self) -> usize
        ensures { result ≡ length self.now }
    {
        self.octets.len()
    }

    /// Whether the string has no octet.
    pub fn is_empty(&self) -> bool
        ensures { IsTrue result ↔ (self.now ≡ []) }
    {
        self.octets.is_empty()
    }

    /// The octets, where they lie in one piece; they always do.
    pub fn as_slice(&self) -> Option<&[u8]>
        ensures octets { IsSomeAnd result (λ octets. octets.now ≡ self.now) }
        ensures text { IsText L.has L.spell self.now }
    {
        Some(self.as_octets())
    }

    /// Whether the string has just these octets.
    pub fn is_slice(&self, octets: &[u8]) -> bool
        ensures { IsTrue result ↔ (self.now ≡ octets.now) }
    {
        self.octets.is_slice(octets)
    }

    /// The octets as an octet string.
    pub fn as_octet_string(&self) -> &OctetString
        ensures octets { result.now ≡ self.now }
        ensures text { IsText L.has L.spell self.now }
    {
        &self.octets
    }

    /// The octets as an octet string.
    pub fn into_octet_string(self) -> OctetString
        ensures octets { result ≡ self }
        ensures text { IsText L.has L.spell self }
    {
        self.octets
    }

    /// The octets, shared where they lie in one piece.
    pub fn to_bytes(&self, alloc: Global) -> Result<Bytes, AllocError>
        ensures { IfOk result (λ octets. octets ≡ self.now) }
    {
        self.octets.to_bytes(alloc)
    }

    /// The octets, which aren't copied.
    pub fn into_bytes(self) -> Bytes
        ensures { result ≡ self }
    {
        self.octets.into_bytes()
    }
}

/// A clone is an equal string; no octet is copied.
impl<L: CharSet> Clone for RestrictedString<L> {
    ghost is_clone = { λ string copy. copy ≡ string };

    fn clone(&self) -> Result<Self, AllocError> {
        let octets = self.octets.clone()?;
        Ok(RestrictedString::of_text(octets))
    }
}

/// Equal octets.
impl<L: CharSet> PartialEq for RestrictedString<L> {
    ghost eq = { pointwise nat_eq };

    ghost laws = { partial_equiv_from_equiv nat_list_eq_equiv };

    fn eq(&self, other: &Self) -> bool {
        self.as_octets() == other.as_octets()
    }
}

impl<L: CharSet> Eq for RestrictedString<L> {
    ghost laws = { nat_list_eq_equiv };
}

/// The order of the octets.
impl<L: CharSet> PartialOrd for RestrictedString<L> {
    ghost partial_cmp = { λ x y. Some (slice_cmp nat_cmp x y) };

    ghost laws = { texts_po };

    fn partial_cmp(&self, other: &Self) -> Option<Ordering> {
        Some(self.cmp(other))
    }
}

impl<L: CharSet> Ord for RestrictedString<L> {
    ghost cmp = { slice_cmp nat_cmp };

    ghost total = { nat_list_cmp_total };

    ghost matches_partial_cmp = { λ x y. refl };

    ghost matches_eq = { texts_ties };

    fn cmp(&self, other: &Self) -> Ordering {
        self.as_octets().cmp(other.as_octets())
    }
}

/// By the octets alone.
impl<L: CharSet> Hash for RestrictedString<L> {
    ghost hash_input = { fed.slice fed.u8 };

    ghost respects_eq = { Prim.search (hashing, rules) };

    fn hash<H: Hasher>(&self, state: &mut H) {
        self.as_octets().hash(state);
    }
}

/// The characters.
impl<L: CharSet> fmt::Display for RestrictedString<L> {
    ghost output = { λ string. Some (encode_utf8_all (L.chars_of string)) };

    fn fmt<W: fmt::Write>(&self, f: &mut fmt::Formatter<W>) -> fmt::Result {
        for character in self.chars() {
            write!(f, "{character}")?;
        }
        Ok(())
    }
}
