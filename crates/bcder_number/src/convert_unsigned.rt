//! Numbers of Rust's types, and INTEGERs from 0 up of any size.

ghost use Rattle.std.specs.Prelude.{◌≡◌, ◌≢◌, ◌^◌, ◌<◌, ◌≤◌, true, IfOk, IfErr, OnErr};
ghost use Rattle.bcder_number.specs.bcder_source.declared.error.DecodeError.TheVariants.{Memory};
ghost use Rattle.bcder_number.specs.bcder_primitive.Plain.{plain, ReadsOctetsAs};
ghost use Rattle.bcder_number.specs.bcder_primitive.Values.{IsUnsigned};

use crate::bcder_primitive::Primitive;
use crate::bcder_source::{DecodeError, Source};
use crate::error::OverflowError;
use crate::integer::Integer;
use crate::unsigned::Unsigned;
use std::alloc::{AllocError, Global};

/// From numbers of Rust's types. They take memory, of which few octets are wanted.
impl Unsigned {
    /// The number.
    pub fn from_u8(alloc: Global, number: u8) -> Result<Unsigned, AllocError>
        ensures { IfOk result (λ n. n ≡ number) }
    {
        let integer = Integer::from_u8(alloc, number)?;
        Ok(Unsigned::new(integer))
    }

    /// The number.
    pub fn from_u16(alloc: Global, number: u16) -> Result<Unsigned, AllocError>
        ensures { IfOk result (λ n. n ≡ number) }
    {
        let integer = Integer::from_u16(alloc, number)?;
        Ok(Unsigned::new(integer))
    }

    /// The number.
    pub fn from_u32(alloc: Global, number: u32) -> Result<Unsigned, AllocError>
        ensures { IfOk result (λ n. n ≡ number) }
    {
        let integer = Integer::from_u32(alloc, number)?;
        Ok(Unsigned::new(integer))
    }

    /// The number.
    pub fn from_u64(alloc: Global, number: u64) -> Result<Unsigned, AllocError>
        ensures { IfOk result (λ n. n ≡ number) }
    {
        let integer = Integer::from_u64(alloc, number)?;
        Ok(Unsigned::new(integer))
    }

    /// The number.
    pub fn from_u128(alloc: Global, number: u128) -> Result<Unsigned, AllocError>
        ensures { IfOk result (λ n. n ≡ number) }
    {
        let integer = Integer::from_u128(alloc, number)?;
        Ok(Unsigned::new(integer))
    }
}

/// To numbers of Rust's types: the very number, or a refusal where it doesn't fit.
impl Unsigned {
    /// The number as an `u8`, if it fits.
    pub fn to_u8(&self) -> Result<u8, OverflowError>
        ensures told { IfOk result (λ n. n ≡ self.now) }
        ensures refused { IfErr result (λ _. 2 ^ 8 ≤ self.now) }
    {
        self.as_integer().to_u8()
    }

    /// The number as a `u16`, if it fits.
    pub fn to_u16(&self) -> Result<u16, OverflowError>
        ensures told { IfOk result (λ n. n ≡ self.now) }
        ensures refused { IfErr result (λ _. 2 ^ 16 ≤ self.now) }
    {
        self.as_integer().to_u16()
    }

    /// The number as a `u32`, if it fits.
    pub fn to_u32(&self) -> Result<u32, OverflowError>
        ensures told { IfOk result (λ n. n ≡ self.now) }
        ensures refused { IfErr result (λ _. 2 ^ 32 ≤ self.now) }
    {
        self.as_integer().to_u32()
    }

    /// The number as a `u64`, if it fits.
    pub fn to_u64(&self) -> Result<u64, OverflowError>
        ensures told { IfOk result (λ n. n ≡ self.now) }
        ensures refused { IfErr result (λ _. 2 ^ 64 ≤ self.now) }
    {
        self.as_integer().to_u64()
    }

    /// The number as a `u128`, if it fits.
    pub fn to_u128(&self) -> Result<u128, OverflowError>
        ensures told { IfOk result (λ n. n ≡ self.now) }
        ensures refused { IfErr result (λ _. 2 ^ 128 ≤ self.now) }
    {
        self.as_integer().to_u128()
    }
}

/// Numbers of Rust's types from content octets. None takes memory.
impl Unsigned {
    /// The number of an INTEGER that fits an `u8`; any other is refused.
    pub fn u8_from_primitive<S: Source>(
        prim: &mut Primitive<S>,
    ) -> Result<u8, DecodeError<S::Error>>
        ensures reads { ReadsOctetsAs (λ n. n) (IsUnsigned (2 ^ 8)) (plain S.rest prim.old) result
            (plain S.rest prim.new) }
        ensures failed { OnErr result ((plain S.rest prim.new).failed ≡ true) }
        ensures no_memory { IfErr result (λ e. e ≢ Memory) }
    {
        prim.to_u8()
    }

    /// The number of an INTEGER that fits a `u16`; any other is refused.
    pub fn u16_from_primitive<S: Source>(
        prim: &mut Primitive<S>,
    ) -> Result<u16, DecodeError<S::Error>>
        ensures reads { ReadsOctetsAs (λ n. n) (IsUnsigned (2 ^ 16)) (plain S.rest prim.old) result
            (plain S.rest prim.new) }
        ensures failed { OnErr result ((plain S.rest prim.new).failed ≡ true) }
        ensures no_memory { IfErr result (λ e. e ≢ Memory) }
    {
        prim.to_u16()
    }

    /// The number of an INTEGER that fits a `u32`; any other is refused.
    pub fn u32_from_primitive<S: Source>(
        prim: &mut Primitive<S>,
    ) -> Result<u32, DecodeError<S::Error>>
        ensures reads { ReadsOctetsAs (λ n. n) (IsUnsigned (2 ^ 32)) (plain S.rest prim.old) result
            (plain S.rest prim.new) }
        ensures failed { OnErr result ((plain S.rest prim.new).failed ≡ true) }
        ensures no_memory { IfErr result (λ e. e ≢ Memory) }
    {
        prim.to_u32()
    }

    /// The number of an INTEGER that fits a `u64`; any other is refused.
    pub fn u64_from_primitive<S: Source>(
        prim: &mut Primitive<S>,
    ) -> Result<u64, DecodeError<S::Error>>
        ensures reads { ReadsOctetsAs (λ n. n) (IsUnsigned (2 ^ 64)) (plain S.rest prim.old) result
            (plain S.rest prim.new) }
        ensures failed { OnErr result ((plain S.rest prim.new).failed ≡ true) }
        ensures no_memory { IfErr result (λ e. e ≢ Memory) }
    {
        prim.to_u64()
    }

    /// The number of an INTEGER that fits a `u128`; any other is refused.
    pub fn u128_from_primitive<S: Source>(
        prim: &mut Primitive<S>,
    ) -> Result<u128, DecodeError<S::Error>>
        ensures reads { ReadsOctetsAs (λ n. n) (IsUnsigned (2 ^ 128)) (plain S.rest prim.old) result
            (plain S.rest prim.new) }
        ensures failed { OnErr result ((plain S.rest prim.new).failed ≡ true) }
        ensures no_memory { IfErr result (λ e. e ≢ Memory) }
    {
        prim.to_u128()
    }
}
