//! Contents of primitive values.
ghost use Rattle.std.specs.Prelude.{◌≡◌, ◌↔◌, ◌+◌, ◌-◌, ◌^◌, ◌<◌, ◌≤◌, ◌≢◌, ℕ, List, [], ◌∷◌, length, take, drop, max, min, IfOk, IfErr, IfSome, IfNone, OnOk, OnErr, IsTrue, Option, Some, None, true, false};
ghost use Rattle.bcder_source.specs.Errors.{OnlyContent, OnlyOctets, OnlyAtEnd, OnMemory};
ghost use Rattle.bcder_source.specs.Limits.{at_hand, HasAll};
ghost use Rattle.bcder_source.specs.Views.{left, limited, Moved, NextOctet, octets_of};
ghost use Rattle.bcder_source.specs.declared.error.DecodeError.TheVariants.{Content as content_error, Memory};
ghost use Rattle.bcder_primitive.specs.Plain.{plain, octets_in, Drained, WholeOctets, ReadsOctetsAs, NamesOther};
ghost use Rattle.bcder_primitive.specs.Sliced.{content_of, ClosureReadsOnSlice};
ghost use Rattle.bcder_primitive.specs.Values.{IsBoolean, IsNull, IsUnsigned, IsSigned, IsValue, AnyOctets, Skipped};

use crate::integers;
use bcder_source::{ContentError, DecodeError, LimitedSource, Mode, Pos, SliceSource, Source};
use bytes::Bytes;
use std::alloc::{AllocError, Global};
use std::convert::Infallible;

/// The content octets of a primitive value.
///
/// A read that was refused leaves the content failed: each further one is refused.
#[derive(Drop)]
pub struct Primitive<S> {
    /// The octets, up to the value's end.
    pub source: LimitedSource<S>,
    /// By which rules octets are read.
    pub mode: Mode,
    /// Whether a read was refused.
    pub failed: bool,
    /// Where the content begins.
    pub start: Pos,
}

// The truth of a BOOLEAN with these content octets.
fn boolean(mode: Mode, octets: &[u8]) -> Option<bool>
    ensures found { IfSome result (λ b. IsBoolean mode octets.now b) }
    ensures none { IfNone result ((b : _) → IsBoolean mode octets.now b → ⊥) }
{
    let [octet] = octets else {
        return None;
    };
    if *octet == 0 {
        return Some(false);
    }
    if *octet == 255 || mode.is_ber() {
        return Some(true);
    }
    None
}

impl<S: Source> Primitive<S> {
    /// By which rules octets are read.
    pub fn mode(&self) -> Mode
        ensures { result ≡ (plain S.rest self.now).mode }
    {
        self.mode
    }

    /// From now on octets are read by these rules.
    pub fn set_mode(&mut self, mode: Mode)
        ensures { plain S.rest self.new ≡ record (plain S.rest self.old) { mode = mode } }
    {
        self.mode = mode;
    }

    /// The refusal of the content, from its beginning.
    pub fn content_err(&self, error: ContentError) -> DecodeError<S::Error>
        ensures { result ≡ content_error error self.now.start }
    {
        DecodeError::content(error, self.start)
    }

    /// How many octets are left to read; 0 where no limit says it.
    pub fn remaining(&self) -> usize
        ensures limited { (n : ℕ) → (plain S.rest self.now).limit ≡ Some n → result ≡ n }
        ensures unlimited { (plain S.rest self.now).limit ≡ None → result ≡ 0 }
    {
        match self.source.limit {
            Some(limit) => limit,
            None => 0,
        }
    }

    // Whether no octet is left, and no read was refused.
    fn is_drained(&self) -> bool
        ensures { IsTrue result ↔ Drained (plain S.rest self.now) }
    {
        if self.failed {
            return false;
        }
        match self.source.limit {
            Some(limit) => limit == 0,
            None => false,
        }
    }

    // Marks the content as failed, and refuses it.
    fn refuse(&mut self, text: &str) -> DecodeError<S::Error>
        ensures error { OnlyOctets result (Unit {0}) }
        ensures failed { plain S.rest self.new ≡ record (plain S.rest self.old) { failed = true } }
    {
        self.failed = true;
        (*self).source.content_err(ContentError::from_static(text))
    }

    // Has all octets of the content at hand, where they are at most so many, and answers how many.
    fn small(&mut self, most: usize) -> Result<usize, DecodeError<S::Error>>
        ensures same { OnOk result (plain S.rest self.new ≡ plain S.rest self.old) }
        ensures sound { OnOk result ((plain S.rest self.old).failed ≡ false) }
        ensures all { IfOk result (λ n. (plain S.rest self.old).limit ≡ Some n) }
        ensures few { IfOk result (λ n. n ≤ most) }
        ensures available { IfOk result (λ n. n ≤ S.available self.new.source.source) }
        ensures refused { IfErr result (λ e. OnlyContent e
            ((text : List ℕ) → length text ≤ most → WholeOctets (plain S.rest self.old) text → ⊥)) }
        ensures failed { OnErr result ((plain S.rest self.new).failed ≡ true) }
    {
        if self.failed {
            return Err(self.refuse("a read was refused before"));
        }
        let Some(limit) = self.source.limit else {
            return Err(self.refuse("unexpected end of data"));
        };
        if limit > most {
            return Err(self.refuse("trailing data"));
        }
        match self.source.source.request(limit) {
            Ok(count) if count < limit => Err(self.refuse("unexpected end of data")),
            Ok(_) => Ok(limit),
            Err(error) => {
                self.failed = true;
                Err(DecodeError::Source(error))
            }
        }
    }

    // The first octets, which are at hand.
    fn front(&self, count: usize) -> &[u8]
        requires { count ≤ S.available self.now.source.source }
        ensures value { result.now ≡ take count (plain S.rest self.now).rest }
        ensures there { count ≤ length (plain S.rest self.now).rest }
    {
        &self.source.source.slice()[..count]
    }

    // Goes past all octets of the content, which are at hand.
    fn pass(&mut self, count: usize)
        requires limit { (plain S.rest self.old).limit ≡ Some count }
        requires available { count ≤ S.available self.old.source.source }
        ensures { plain S.rest self.new
            ≡ record (plain S.rest self.old)
            { rest = drop count (plain S.rest self.old).rest; limit = Some 0 } }
    {
        self.source.source.advance(count);
        self.source.limit = Some(0);
    }

    /// The truth of a BOOLEAN (X.690 8.2, 11.1).
    pub fn to_bool(&mut self) -> Result<bool, DecodeError<S::Error>>
        ensures reads { ReadsOctetsAs (λ b. b) (IsBoolean (plain S.rest self.old).mode)
            (plain S.rest self.old) result (plain S.rest self.new) }
        ensures failed { OnErr result ((plain S.rest self.new).failed ≡ true) }
        ensures no_memory { IfErr result (λ e. e ≢ Memory) }
    {
        let count = self.small(1)?;
        match boolean(self.mode, (*self).front(count)) {
            Some(truth) => {
                self.pass(count);
                Ok(truth)
            }
            None => Err(self.refuse("invalid boolean")),
        }
    }

    /// Reads a NULL (X.690 8.8): there is no octet.
    pub fn to_null(&mut self) -> Result<(), DecodeError<S::Error>>
        ensures reads { ReadsOctetsAs (λ x. x) IsNull (plain S.rest self.old) result
            (plain S.rest self.new) }
        ensures failed { OnErr result ((plain S.rest self.new).failed ≡ true) }
        ensures no_memory { IfErr result (λ e. e ≢ Memory) }
    {
        let _none = self.small(0)?;
        Ok(())
    }

    // The number of an INTEGER from 0 to `max`.
    fn unsigned(&mut self, max: u128) -> Result<u128, DecodeError<S::Error>>
        ensures reads { ReadsOctetsAs (λ n. n) (IsUnsigned (max + 1)) (plain S.rest self.old) result
            (plain S.rest self.new) }
        ensures failed { OnErr result ((plain S.rest self.new).failed ≡ true) }
        ensures no_memory { IfErr result (λ e. e ≢ Memory) }
    {
        let count = self.small(17)?;
        match integers::unsigned((*self).front(count), max) {
            Some(number) => {
                self.pass(count);
                Ok(number)
            }
            None => Err(self.refuse("invalid integer")),
        }
    }

    // The number of an INTEGER from `-1 - max` to `max`.
    fn signed(&mut self, max: u128) -> Result<i128, DecodeError<S::Error>>
        requires { max < 2 ^ 127 }
        ensures reads { ReadsOctetsAs (λ n. n) (IsSigned (max + 1)) (plain S.rest self.old) result
            (plain S.rest self.new) }
        ensures failed { OnErr result ((plain S.rest self.new).failed ≡ true) }
        ensures no_memory { IfErr result (λ e. e ≢ Memory) }
    {
        let count = self.small(16)?;
        match integers::signed((*self).front(count), max) {
            Some(number) => {
                self.pass(count);
                Ok(number)
            }
            None => Err(self.refuse("invalid integer")),
        }
    }

    /// The number of an INTEGER (X.690 8.3) that fits a `u8`; any other is refused, and none is cut.
    pub fn to_u8(&mut self) -> Result<u8, DecodeError<S::Error>>
        ensures reads { ReadsOctetsAs (λ n. n) (IsUnsigned (2 ^ 8)) (plain S.rest self.old) result
            (plain S.rest self.new) }
        ensures failed { OnErr result ((plain S.rest self.new).failed ≡ true) }
        ensures no_memory { IfErr result (λ e. e ≢ Memory) }
    {
        let number = self.unsigned(u128::from(u8::MAX))?;
        Ok(number as u8)
    }

    /// The number of an INTEGER (X.690 8.3) that fits a `u16`; any other is refused, and none is cut.
    pub fn to_u16(&mut self) -> Result<u16, DecodeError<S::Error>>
        ensures reads { ReadsOctetsAs (λ n. n) (IsUnsigned (2 ^ 16)) (plain S.rest self.old) result
            (plain S.rest self.new) }
        ensures failed { OnErr result ((plain S.rest self.new).failed ≡ true) }
        ensures no_memory { IfErr result (λ e. e ≢ Memory) }
    {
        let number = self.unsigned(u128::from(u16::MAX))?;
        Ok(number as u16)
    }

    /// The number of an INTEGER (X.690 8.3) that fits a `u32`; any other is refused, and none is cut.
    pub fn to_u32(&mut self) -> Result<u32, DecodeError<S::Error>>
        ensures reads { ReadsOctetsAs (λ n. n) (IsUnsigned (2 ^ 32)) (plain S.rest self.old) result
            (plain S.rest self.new) }
        ensures failed { OnErr result ((plain S.rest self.new).failed ≡ true) }
        ensures no_memory { IfErr result (λ e. e ≢ Memory) }
    {
        let number = self.unsigned(u128::from(u32::MAX))?;
        Ok(number as u32)
    }

    /// The number of an INTEGER (X.690 8.3) that fits a `u64`; any other is refused, and none is cut.
    pub fn to_u64(&mut self) -> Result<u64, DecodeError<S::Error>>
        ensures reads { ReadsOctetsAs (λ n. n) (IsUnsigned (2 ^ 64)) (plain S.rest self.old) result
            (plain S.rest self.new) }
        ensures failed { OnErr result ((plain S.rest self.new).failed ≡ true) }
        ensures no_memory { IfErr result (λ e. e ≢ Memory) }
    {
        let number = self.unsigned(u128::from(u64::MAX))?;
        Ok(number as u64)
    }

    /// The number of an INTEGER (X.690 8.3) that fits a `u128`; any other is refused, and none is cut.
    pub fn to_u128(&mut self) -> Result<u128, DecodeError<S::Error>>
        ensures reads { ReadsOctetsAs (λ n. n) (IsUnsigned (2 ^ 128)) (plain S.rest self.old) result
            (plain S.rest self.new) }
        ensures failed { OnErr result ((plain S.rest self.new).failed ≡ true) }
        ensures no_memory { IfErr result (λ e. e ≢ Memory) }
    {
        self.unsigned(u128::MAX)
    }

    /// The number of an INTEGER (X.690 8.3) that fits an `i8`; any other is refused, and none is cut.
    pub fn to_i8(&mut self) -> Result<i8, DecodeError<S::Error>>
        ensures reads { ReadsOctetsAs (λ n. n) (IsSigned (2 ^ 7)) (plain S.rest self.old) result
            (plain S.rest self.new) }
        ensures failed { OnErr result ((plain S.rest self.new).failed ≡ true) }
        ensures no_memory { IfErr result (λ e. e ≢ Memory) }
    {
        let number = self.signed(i8::MAX as u128)?;
        Ok(number as i8)
    }

    /// The number of an INTEGER (X.690 8.3) that fits an `i16`; any other is refused, and none is cut.
    pub fn to_i16(&mut self) -> Result<i16, DecodeError<S::Error>>
        ensures reads { ReadsOctetsAs (λ n. n) (IsSigned (2 ^ 15)) (plain S.rest self.old) result
            (plain S.rest self.new) }
        ensures failed { OnErr result ((plain S.rest self.new).failed ≡ true) }
        ensures no_memory { IfErr result (λ e. e ≢ Memory) }
    {
        let number = self.signed(i16::MAX as u128)?;
        Ok(number as i16)
    }

    /// The number of an INTEGER (X.690 8.3) that fits an `i32`; any other is refused, and none is cut.
    pub fn to_i32(&mut self) -> Result<i32, DecodeError<S::Error>>
        ensures reads { ReadsOctetsAs (λ n. n) (IsSigned (2 ^ 31)) (plain S.rest self.old) result
            (plain S.rest self.new) }
        ensures failed { OnErr result ((plain S.rest self.new).failed ≡ true) }
        ensures no_memory { IfErr result (λ e. e ≢ Memory) }
    {
        let number = self.signed(i32::MAX as u128)?;
        Ok(number as i32)
    }

    /// The number of an INTEGER (X.690 8.3) that fits an `i64`; any other is refused, and none is cut.
    pub fn to_i64(&mut self) -> Result<i64, DecodeError<S::Error>>
        ensures reads { ReadsOctetsAs (λ n. n) (IsSigned (2 ^ 63)) (plain S.rest self.old) result
            (plain S.rest self.new) }
        ensures failed { OnErr result ((plain S.rest self.new).failed ≡ true) }
        ensures no_memory { IfErr result (λ e. e ≢ Memory) }
    {
        let number = self.signed(i64::MAX as u128)?;
        Ok(number as i64)
    }

    /// The number of an INTEGER (X.690 8.3) that fits an `i128`; any other is refused, and none is cut.
    pub fn to_i128(&mut self) -> Result<i128, DecodeError<S::Error>>
        ensures reads { ReadsOctetsAs (λ n. n) (IsSigned (2 ^ 127)) (plain S.rest self.old) result
            (plain S.rest self.new) }
        ensures failed { OnErr result ((plain S.rest self.new).failed ≡ true) }
        ensures no_memory { IfErr result (λ e. e ≢ Memory) }
    {
        self.signed(i128::MAX as u128)
    }

    /// Reads an INTEGER (X.690 8.3) of that number; any other is refused, and the error names that
    /// number.
    pub fn skip_u8_if(&mut self, expected: u8) -> Result<(), DecodeError<S::Error>>
        ensures reads { ReadsOctetsAs (λ x. x) (IsValue (IsUnsigned (2 ^ 8)) expected)
            (plain S.rest self.old) result (plain S.rest self.new) }
        ensures failed { OnErr result ((plain S.rest self.new).failed ≡ true) }
        ensures named { IfErr result
            (NamesOther (IsUnsigned (2 ^ 8)) (plain S.rest self.old) expected) }
        ensures no_memory { IfErr result (λ e. e ≢ Memory) }
    {
        let number = self.to_u8()?;
        if number == expected {
            return Ok(());
        }
        self.failed = true;
        Err(
            (*self)
                .source
                .content_err(ContentError::ExpectedInteger(u64::from(expected))),
        )
    }

    /// Passes over all octets of the content.
    pub fn skip_all(&mut self) -> Result<(), DecodeError<S::Error>>
        ensures reads { ReadsOctetsAs (λ x. x) Skipped (plain S.rest self.old) result
            (plain S.rest self.new) }
        ensures failed { OnErr result ((plain S.rest self.new).failed ≡ true) }
        ensures no_memory { IfErr result (λ e. e ≢ Memory) }
    {
        if self.failed {
            return Err(self.refuse("a read was refused before"));
        }
        match self.source.skip_all() {
            Ok(()) => Ok(()),
            Err(error) => {
                self.failed = true;
                Err(error)
            }
        }
    }

    /// All octets of the content; where the source shares its octets none is copied. Memory is wanted
    /// only where octets are left, and the source has them all.
    #[inline(always)]
    pub fn take_all(&mut self, alloc: Global) -> Result<Bytes, DecodeError<S::Error>>
        ensures reads { ReadsOctetsAs (λ octets. octets) AnyOctets (plain S.rest self.old) result
            (plain S.rest self.new) }
        ensures failed { OnErr result ((plain S.rest self.new).failed ≡ true) }
        ensures memory { IfErr result
            (λ e. OnMemory e (HasAll self.old.source.limit (plain S.rest self.old).rest)) }
    {
        if self.failed {
            return Err(self.refuse("a read was refused before"));
        }
        match self.source.take_all(alloc) {
            Ok(octets) => Ok(octets),
            Err(error) => {
                self.failed = true;
                Err(error)
            }
        }
    }
}

/// The octets up to the value's end.
///
/// A read that the source or the end refuses leaves the content failed; what a failed content still
/// has can be read so, but by none of its own methods.
impl<S: Source> Source for Primitive<S> {
    type Error = S::Error;

    ghost rest = { λ p. limited p.source.limit (S.rest p.source.source) };

    ghost available = { λ p. at_hand p.source.limit (S.available p.source.source) };

    ghost position = { λ p. S.position p.source.source };

    ghost asked = { λ p. S.asked p.source.source };

    fn pos(&self) -> Pos {
        self.source.pos()
    }

    fn request(&mut self, len: usize) -> Result<usize, S::Error>
        ensures same { OnOk result (plain S.rest self.new ≡ plain S.rest self.old) }
        ensures failed { OnErr result
            (plain S.rest self.new ≡ record (plain S.rest self.old) { failed = true }) }
        ensures rest { left (octets_in (plain S.rest self.new))
            ≡ left (octets_in (plain S.rest self.old)) }
        ensures position { S.position self.new.source.source ≡ S.position self.old.source.source }
        ensures kept { at_hand self.old.source.limit (S.available self.old.source.source)
            ≤ at_hand self.new.source.limit (S.available self.new.source.source) }
        ensures available { IfOk result
            (λ n. n ≡ at_hand self.new.source.limit (S.available self.new.source.source)) }
        ensures there { IfOk result (λ n. n ≤ length (left (octets_in (plain S.rest self.new)))) }
        ensures bound { IfOk result (λ n. n < 2 ^ 63) }
        ensures enough { IfOk result
            (λ n. n < len → n ≡ length (left (octets_in (plain S.rest self.new)))) }
        ensures asked { S.asked self.new.source.source ≤ max (S.asked self.old.source.source) len }
        ensures within { S.asked self.new.source.source
            ≤ max (S.asked self.old.source.source) (at_hand self.old.source.limit len) }
    {
        match self.source.request(len) {
            Ok(count) => Ok(count),
            Err(error) => {
                self.failed = true;
                Err(error)
            }
        }
    }

    fn slice(&self) -> &[u8] {
        self.source.slice()
    }

    fn bytes(&self, alloc: Global, start: usize, end: usize) -> Result<Bytes, AllocError> {
        self.source.bytes(alloc, start, end)
    }

    /// The limit falls with the rest.
    fn advance(&mut self, len: usize)
        requires { len ≤ at_hand self.old.source.limit (S.available self.old.source.source) }
        ensures there { len ≤ length (left (octets_in (plain S.rest self.old))) }
        ensures moved { Moved (octets_in (plain S.rest self.old))
            (take len (plain S.rest self.old).rest) (octets_in (plain S.rest self.new)) }
        ensures mode { (plain S.rest self.new).mode ≡ (plain S.rest self.old).mode }
        ensures failed { (plain S.rest self.new).failed ≡ (plain S.rest self.old).failed }
        ensures rest { left (octets_in (plain S.rest self.new))
            ≡ drop len (left (octets_in (plain S.rest self.old))) }
        ensures position { S.position self.new.source.source
            ≡ min (S.position self.old.source.source + len) (2 ^ 64 - 1) }
        ensures available { at_hand self.new.source.limit (S.available self.new.source.source)
            ≡ at_hand self.old.source.limit (S.available self.old.source.source) - len }
    {
        self.source.advance(len);
    }

    fn skip(&mut self, len: usize) -> Result<usize, S::Error>
        ensures bound { IfOk result (λ n. n ≤ len) }
        ensures there { IfOk result (λ n. n ≤ length (left (octets_in (plain S.rest self.old)))) }
        ensures moved { IfOk result (λ n. Moved (octets_in (plain S.rest self.old))
            (take n (plain S.rest self.old).rest) (octets_in (plain S.rest self.new))) }
        ensures mode { (plain S.rest self.new).mode ≡ (plain S.rest self.old).mode }
        ensures sound { OnOk result
            ((plain S.rest self.new).failed ≡ (plain S.rest self.old).failed) }
        ensures rest { IfOk result (λ n. left (octets_in (plain S.rest self.new))
            ≡ drop n (left (octets_in (plain S.rest self.old)))) }
        ensures short { IfOk result (λ n. n < len → left (octets_in (plain S.rest self.new)) ≡ []) }
        ensures refused { OnErr result
            (plain S.rest self.new ≡ record (plain S.rest self.old) { failed = true }) }
        ensures failed { OnErr result
            (left (octets_in (plain S.rest self.new)) ≡ left (octets_in (plain S.rest self.old))) }
    {
        match self.source.skip(len) {
            Ok(count) => Ok(count),
            Err(error) => {
                self.failed = true;
                Err(error)
            }
        }
    }

    fn take_opt_u8(&mut self) -> Result<Option<u8>, S::Error>
        ensures moved { IfOk result (λ octet. Moved (octets_in (plain S.rest self.old))
            (octets_of octet) (octets_in (plain S.rest self.new))) }
        ensures mode { (plain S.rest self.new).mode ≡ (plain S.rest self.old).mode }
        ensures sound { OnOk result
            ((plain S.rest self.new).failed ≡ (plain S.rest self.old).failed) }
        ensures taken { IfOk result (λ octet. NextOctet octet
            (left (octets_in (plain S.rest self.old))) (left (octets_in (plain S.rest self.new)))) }
        ensures refused { OnErr result
            (plain S.rest self.new ≡ record (plain S.rest self.old) { failed = true }) }
        ensures failed { OnErr result
            (left (octets_in (plain S.rest self.new)) ≡ left (octets_in (plain S.rest self.old))) }
    {
        match self.source.take_opt_u8() {
            Ok(octet) => Ok(octet),
            Err(error) => {
                self.failed = true;
                Err(error)
            }
        }
    }

    fn take_u8(&mut self) -> Result<u8, DecodeError<S::Error>>
        ensures moved { IfOk result (λ octet. Moved (octets_in (plain S.rest self.old)) (octet ∷ [])
            (octets_in (plain S.rest self.new))) }
        ensures mode { (plain S.rest self.new).mode ≡ (plain S.rest self.old).mode }
        ensures sound { OnOk result
            ((plain S.rest self.new).failed ≡ (plain S.rest self.old).failed) }
        ensures taken { IfOk result (λ octet. left (octets_in (plain S.rest self.old))
            ≡ octet ∷ left (octets_in (plain S.rest self.new))) }
        ensures refused { IfErr result
            (λ e. OnlyAtEnd e (left (octets_in (plain S.rest self.old)))) }
        ensures same { OnErr result
            (plain S.rest self.new ≡ record (plain S.rest self.old) { failed = true }) }
        ensures failed { OnErr result
            (left (octets_in (plain S.rest self.new)) ≡ left (octets_in (plain S.rest self.old))) }
    {
        match self.source.take_u8() {
            Ok(octet) => Ok(octet),
            Err(error) => {
                self.failed = true;
                Err(error)
            }
        }
    }
}

impl Primitive<()> {
    /// What `op` reads from a primitive content of just these octets.
    ///
    /// The content is refused where `op` refuses it, or leaves octets unread.
    pub fn decode_slice<
        'a,
        T: Drop,
        F: FnOnce(&mut Primitive<SliceSource<'a>>) -> Result<T, DecodeError<Infallible>>,
    >(octets: &'a [u8], mode: Mode, op: F) -> Result<T, DecodeError<Infallible>>
        requires { F.IsAlwaysCallable op }
        ensures ran { ClosureReadsOnSlice (λ s. s.rest) F.FnOnce op (content_of mode octets.now)
            result }
    {
        let source = SliceSource::new(octets);
        let start = source.pos();
        let mut content = Primitive {
            source: LimitedSource {
                source,
                limit: Some(octets.len()),
            },
            mode,
            failed: false,
            start,
        };
        let value = match op(&mut content) {
            Ok(value) => value,
            Err(error) => return Err(error),
        };
        if !content.is_drained() {
            return Err(content.refuse("trailing data"));
        }
        Ok(value)
    }
}
