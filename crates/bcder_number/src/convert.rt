//! Numbers of Rust's types, and INTEGERs of any size.

ghost use Rattle.std.specs.Prelude.{◌≡◌, ◌≢◌, ◌+◌, ◌^◌, ◌<◌, ◌≤◌, pos, true, IfOk, IfErr, OnErr};
ghost use Rattle.bcder_number.specs.bcder_source.declared.error.DecodeError.TheVariants.{Memory};
ghost use Rattle.bcder_number.specs.bcder_primitive.Plain.{plain, ReadsOctetsAs};
ghost use Rattle.bcder_number.specs.bcder_primitive.Values.{IsSigned, IsUnsigned, IsWithin};
ghost use Rattle.bcder_number.specs.Conversions.{TellsSigned, TellsUnsigned};

use crate::bcder_primitive::Primitive;
use crate::bcder_source::{DecodeError, Source};
use crate::bcder_tree::Mode;
use crate::error::OverflowError;
use crate::integer::Integer;
use crate::octets;
use bcder_values::{EncodeError, PrimitiveContent};
use bytes::Bytes;
use std::alloc::{AllocError, Global};

// The content octets of a number that has few. Nothing but lack of memory refuses them.
fn kept(octets: Result<Bytes, EncodeError>) -> Result<Bytes, AllocError>
    requires { IfErr octets (λ e. e ≡ EncodeError.Memory) }
    ensures { IfOk result (λ b. octets ≡ Ok b) }
{
    match octets {
        Ok(octets) => Ok(octets),
        Err(EncodeError::Memory) => Err(AllocError),
        Err(_) => unreachable!(),
    }
}

/// INTEGERs from numbers of Rust's types. They take memory, of which few octets are wanted.
impl Integer {
    /// The number.
    pub fn from_i128(alloc: Global, number: i128) -> Result<Integer, AllocError>
        ensures { IfOk result (λ x. x ≡ number) }
    {
        let octets = kept(number.to_encoded_bytes(alloc, Mode::Der))?;
        Ok(Integer::new(octets))
    }

    /// The number.
    pub fn from_u128(alloc: Global, number: u128) -> Result<Integer, AllocError>
        ensures { IfOk result (λ x. x ≡ pos number) }
    {
        let octets = kept(number.to_encoded_bytes(alloc, Mode::Der))?;
        Ok(Integer::new(octets))
    }

    /// The number.
    pub fn from_i8(alloc: Global, number: i8) -> Result<Integer, AllocError>
        ensures { IfOk result (λ x. x ≡ number) }
    {
        Integer::from_i128(alloc, i128::from(number))
    }

    /// The number.
    pub fn from_i16(alloc: Global, number: i16) -> Result<Integer, AllocError>
        ensures { IfOk result (λ x. x ≡ number) }
    {
        Integer::from_i128(alloc, i128::from(number))
    }

    /// The number.
    pub fn from_i32(alloc: Global, number: i32) -> Result<Integer, AllocError>
        ensures { IfOk result (λ x. x ≡ number) }
    {
        Integer::from_i128(alloc, i128::from(number))
    }

    /// The number.
    pub fn from_i64(alloc: Global, number: i64) -> Result<Integer, AllocError>
        ensures { IfOk result (λ x. x ≡ number) }
    {
        Integer::from_i128(alloc, i128::from(number))
    }

    /// The number.
    pub fn from_u8(alloc: Global, number: u8) -> Result<Integer, AllocError>
        ensures { IfOk result (λ x. x ≡ pos number) }
    {
        Integer::from_i128(alloc, i128::from(number))
    }

    /// The number.
    pub fn from_u16(alloc: Global, number: u16) -> Result<Integer, AllocError>
        ensures { IfOk result (λ x. x ≡ pos number) }
    {
        Integer::from_i128(alloc, i128::from(number))
    }

    /// The number.
    pub fn from_u32(alloc: Global, number: u32) -> Result<Integer, AllocError>
        ensures { IfOk result (λ x. x ≡ pos number) }
    {
        Integer::from_i128(alloc, i128::from(number))
    }

    /// The number.
    pub fn from_u64(alloc: Global, number: u64) -> Result<Integer, AllocError>
        ensures { IfOk result (λ x. x ≡ pos number) }
    {
        Integer::from_i128(alloc, i128::from(number))
    }
}

/// Numbers of Rust's types from INTEGERs: the very number, or a refusal where it doesn't fit.
impl Integer {
    // The number, if it is from `-1 - max` to `max`.
    fn signed(&self, max: u128) -> Result<i128, OverflowError>
        requires { max < 2 ^ 127 }
        ensures told { TellsSigned (max + 1) self.now result }
        ensures fits { IfOk result (IsWithin (max + 1)) }
    {
        let Some(number) = octets::signed(self.as_slice()) else {
            return Err(OverflowError);
        };
        if number > max as i128 || number < -1 - max as i128 {
            return Err(OverflowError);
        }
        Ok(number)
    }

    // The number, if it is from 0 to `max`.
    fn unsigned(&self, max: u128) -> Result<u128, OverflowError>
        ensures told { TellsUnsigned (max + 1) self.now result }
        ensures fits { IfOk result (λ n. n ≤ max) }
    {
        let Some(number) = octets::unsigned(self.as_slice()) else {
            return Err(OverflowError);
        };
        if number > max {
            return Err(OverflowError);
        }
        Ok(number)
    }

    /// The number as an `i8`, if it fits.
    pub fn to_i8(&self) -> Result<i8, OverflowError>
        ensures { TellsSigned (2 ^ 7) self.now result }
    {
        let number = self.signed(i8::MAX as u128)?;
        Ok(number as i8)
    }

    /// The number as an `i16`, if it fits.
    pub fn to_i16(&self) -> Result<i16, OverflowError>
        ensures { TellsSigned (2 ^ 15) self.now result }
    {
        let number = self.signed(i16::MAX as u128)?;
        Ok(number as i16)
    }

    /// The number as an `i32`, if it fits.
    pub fn to_i32(&self) -> Result<i32, OverflowError>
        ensures { TellsSigned (2 ^ 31) self.now result }
    {
        let number = self.signed(i32::MAX as u128)?;
        Ok(number as i32)
    }

    /// The number as an `i64`, if it fits.
    pub fn to_i64(&self) -> Result<i64, OverflowError>
        ensures { TellsSigned (2 ^ 63) self.now result }
    {
        let number = self.signed(i64::MAX as u128)?;
        Ok(number as i64)
    }

    /// The number as an `i128`, if it fits.
    pub fn to_i128(&self) -> Result<i128, OverflowError>
        ensures { TellsSigned (2 ^ 127) self.now result }
    {
        self.signed(i128::MAX as u128)
    }

    /// The number as an `u8`, if it fits.
    pub fn to_u8(&self) -> Result<u8, OverflowError>
        ensures { TellsUnsigned (2 ^ 8) self.now result }
    {
        let number = self.unsigned(u8::MAX as u128)?;
        Ok(number as u8)
    }

    /// The number as a `u16`, if it fits.
    pub fn to_u16(&self) -> Result<u16, OverflowError>
        ensures { TellsUnsigned (2 ^ 16) self.now result }
    {
        let number = self.unsigned(u16::MAX as u128)?;
        Ok(number as u16)
    }

    /// The number as a `u32`, if it fits.
    pub fn to_u32(&self) -> Result<u32, OverflowError>
        ensures { TellsUnsigned (2 ^ 32) self.now result }
    {
        let number = self.unsigned(u32::MAX as u128)?;
        Ok(number as u32)
    }

    /// The number as a `u64`, if it fits.
    pub fn to_u64(&self) -> Result<u64, OverflowError>
        ensures { TellsUnsigned (2 ^ 64) self.now result }
    {
        let number = self.unsigned(u64::MAX as u128)?;
        Ok(number as u64)
    }

    /// The number as a `u128`, if it fits.
    pub fn to_u128(&self) -> Result<u128, OverflowError>
        ensures { TellsUnsigned (2 ^ 128) self.now result }
    {
        self.unsigned(u128::MAX)
    }
}

/// Numbers of Rust's types from content octets. None takes memory.
impl Integer {
    /// The number of an INTEGER that fits an `i8`; any other is refused.
    pub fn i8_from_primitive<S: Source>(
        prim: &mut Primitive<S>,
    ) -> Result<i8, DecodeError<S::Error>>
        ensures reads { ReadsOctetsAs (λ n. n) (IsSigned (2 ^ 7)) (plain S.rest prim.old) result
            (plain S.rest prim.new) }
        ensures failed { OnErr result ((plain S.rest prim.new).failed ≡ true) }
        ensures no_memory { IfErr result (λ e. e ≢ Memory) }
    {
        prim.to_i8()
    }

    /// The number of an INTEGER that fits an `i16`; any other is refused.
    pub fn i16_from_primitive<S: Source>(
        prim: &mut Primitive<S>,
    ) -> Result<i16, DecodeError<S::Error>>
        ensures reads { ReadsOctetsAs (λ n. n) (IsSigned (2 ^ 15)) (plain S.rest prim.old) result
            (plain S.rest prim.new) }
        ensures failed { OnErr result ((plain S.rest prim.new).failed ≡ true) }
        ensures no_memory { IfErr result (λ e. e ≢ Memory) }
    {
        prim.to_i16()
    }

    /// The number of an INTEGER that fits an `i32`; any other is refused.
    pub fn i32_from_primitive<S: Source>(
        prim: &mut Primitive<S>,
    ) -> Result<i32, DecodeError<S::Error>>
        ensures reads { ReadsOctetsAs (λ n. n) (IsSigned (2 ^ 31)) (plain S.rest prim.old) result
            (plain S.rest prim.new) }
        ensures failed { OnErr result ((plain S.rest prim.new).failed ≡ true) }
        ensures no_memory { IfErr result (λ e. e ≢ Memory) }
    {
        prim.to_i32()
    }

    /// The number of an INTEGER that fits an `i64`; any other is refused.
    pub fn i64_from_primitive<S: Source>(
        prim: &mut Primitive<S>,
    ) -> Result<i64, DecodeError<S::Error>>
        ensures reads { ReadsOctetsAs (λ n. n) (IsSigned (2 ^ 63)) (plain S.rest prim.old) result
            (plain S.rest prim.new) }
        ensures failed { OnErr result ((plain S.rest prim.new).failed ≡ true) }
        ensures no_memory { IfErr result (λ e. e ≢ Memory) }
    {
        prim.to_i64()
    }

    /// The number of an INTEGER that fits an `i128`; any other is refused.
    pub fn i128_from_primitive<S: Source>(
        prim: &mut Primitive<S>,
    ) -> Result<i128, DecodeError<S::Error>>
        ensures reads { ReadsOctetsAs (λ n. n) (IsSigned (2 ^ 127)) (plain S.rest prim.old) result
            (plain S.rest prim.new) }
        ensures failed { OnErr result ((plain S.rest prim.new).failed ≡ true) }
        ensures no_memory { IfErr result (λ e. e ≢ Memory) }
    {
        prim.to_i128()
    }

    /// The number of an INTEGER that fits an `u8`; any other is refused.
    pub fn u8_from_primitive<S: Source>(
        prim: &mut Primitive<S>,
    ) -> Result<u8, DecodeError<S::Error>>
        ensures reads { ReadsOctetsAs (λ n. n) (IsUnsigned (2 ^ 8)) (plain S.rest prim.old) result
            (plain S.rest prim.new) }
        ensures failed { OnErr result ((plain S.rest prim.new).failed ≡ true) }
        ensures no_memory { IfErr result (λ e. e ≢ Memory) }
    {
        prim.to_u8()
    }

    /// The number of an INTEGER that fits a `u16`; any other is refused.
    pub fn u16_from_primitive<S: Source>(
        prim: &mut Primitive<S>,
    ) -> Result<u16, DecodeError<S::Error>>
        ensures reads { ReadsOctetsAs (λ n. n) (IsUnsigned (2 ^ 16)) (plain S.rest prim.old) result
            (plain S.rest prim.new) }
        ensures failed { OnErr result ((plain S.rest prim.new).failed ≡ true) }
        ensures no_memory { IfErr result (λ e. e ≢ Memory) }
    {
        prim.to_u16()
    }

    /// The number of an INTEGER that fits a `u32`; any other is refused.
    pub fn u32_from_primitive<S: Source>(
        prim: &mut Primitive<S>,
    ) -> Result<u32, DecodeError<S::Error>>
        ensures reads { ReadsOctetsAs (λ n. n) (IsUnsigned (2 ^ 32)) (plain S.rest prim.old) result
            (plain S.rest prim.new) }
        ensures failed { OnErr result ((plain S.rest prim.new).failed ≡ true) }
        ensures no_memory { IfErr result (λ e. e ≢ Memory) }
    {
        prim.to_u32()
    }

    /// The number of an INTEGER that fits a `u64`; any other is refused.
    pub fn u64_from_primitive<S: Source>(
        prim: &mut Primitive<S>,
    ) -> Result<u64, DecodeError<S::Error>>
        ensures reads { ReadsOctetsAs (λ n. n) (IsUnsigned (2 ^ 64)) (plain S.rest prim.old) result
            (plain S.rest prim.new) }
        ensures failed { OnErr result ((plain S.rest prim.new).failed ≡ true) }
        ensures no_memory { IfErr result (λ e. e ≢ Memory) }
    {
        prim.to_u64()
    }

    /// The number of an INTEGER that fits a `u128`; any other is refused.
    pub fn u128_from_primitive<S: Source>(
        prim: &mut Primitive<S>,
    ) -> Result<u128, DecodeError<S::Error>>
        ensures reads { ReadsOctetsAs (λ n. n) (IsUnsigned (2 ^ 128)) (plain S.rest prim.old) result
            (plain S.rest prim.new) }
        ensures failed { OnErr result ((plain S.rest prim.new).failed ≡ true) }
        ensures no_memory { IfErr result (λ e. e ≢ Memory) }
    {
        prim.to_u128()
    }
}
