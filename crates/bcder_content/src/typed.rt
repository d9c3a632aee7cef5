//! Values of simple types, and of sequences and sets.
ghost use Rattle.std.specs.Prelude.{◌≡◌, ◌≢◌, ◌^◌, IfErr, OnOk, OnErr, true};
ghost use Rattle.bcder_content.specs.bcder_source.Errors.{OnContent};
ghost use Rattle.bcder_content.specs.bcder_source.declared.error.DecodeError.TheVariants.{Memory};
ghost use Rattle.bcder_content.specs.bcder_tree.Tags.{boolean_tag, integer_tag, null_tag, sequence_tag, set_tag};
ghost use Rattle.bcder_content.specs.Exact.{ReadsAs, ReadsOptAs};
ghost use Rattle.bcder_content.specs.Grammar.{OctetsOf};
ghost use Rattle.bcder_content.specs.Here.{here, SameFrame};
ghost use Rattle.bcder_content.specs.Memory.{OnMemory, ClosureReadsErr};
ghost use Rattle.bcder_content.specs.ClosureReads.{ClosureReads, ClosureReadsOpt};
ghost use Rattle.bcder_content.specs.Stops.{NamesTag};
ghost use Rattle.bcder_primitive.specs.Values.{IsBoolean, IsNull, IsUnsigned, IsValue};

use crate::bcder_source::{DecodeError, Source, Tag};
use crate::constructed::Constructed;

/// Values of simple types. A value that is read must be next; an optional one is there where a value
/// with its tag is next.
impl<S: Source> Constructed<S> {
    /// The truth of a BOOLEAN (X.690 8.2, 11.1).
    pub fn take_bool(&mut self) -> Result<bool, DecodeError<S::Error>>
        ensures reads { ReadsAs (λ b. b)
            (OctetsOf boolean_tag (IsBoolean (here S.rest self.old).mode)) (here S.rest self.old)
            result (here S.rest self.new) }
        ensures frame { OnOk result (SameFrame self.old self.new) }
        ensures named { IfErr result
            (λ e. OnContent e (NamesTag (here S.rest self.old) boolean_tag e)) }
        ensures failed { OnErr result ((here S.rest self.new).failed ≡ true) }
        ensures no_memory { IfErr result (λ e. e ≢ Memory) }
    {
        self.take_primitive_if(Tag::BOOLEAN, |prim| prim.to_bool())
    }

    /// The truth of a BOOLEAN, if one is next (X.690 8.2, 11.1).
    pub fn take_opt_bool(&mut self) -> Result<Option<bool>, DecodeError<S::Error>>
        ensures reads { ReadsOptAs (λ b. b) boolean_tag
            (OctetsOf boolean_tag (IsBoolean (here S.rest self.old).mode)) (here S.rest self.old)
            result (here S.rest self.new) }
        ensures frame { OnOk result (SameFrame self.old self.new) }
        ensures failed { OnErr result ((here S.rest self.new).failed ≡ true) }
        ensures no_memory { IfErr result (λ e. e ≢ Memory) }
    {
        self.take_opt_primitive_if(Tag::BOOLEAN, |prim| prim.to_bool())
    }

    /// Reads a NULL (X.690 8.8).
    pub fn take_null(&mut self) -> Result<(), DecodeError<S::Error>>
        ensures reads { ReadsAs (λ x. x) (OctetsOf null_tag (IsNull)) (here S.rest self.old)
            result (here S.rest self.new) }
        ensures frame { OnOk result (SameFrame self.old self.new) }
        ensures named { IfErr result
            (λ e. OnContent e (NamesTag (here S.rest self.old) null_tag e)) }
        ensures failed { OnErr result ((here S.rest self.new).failed ≡ true) }
        ensures no_memory { IfErr result (λ e. e ≢ Memory) }
    {
        self.take_primitive_if(Tag::NULL, |prim| prim.to_null())
    }

    /// Reads a NULL, if one is next, and answers whether (X.690 8.8).
    pub fn take_opt_null(&mut self) -> Result<Option<()>, DecodeError<S::Error>>
        ensures reads { ReadsOptAs (λ x. x) null_tag (OctetsOf null_tag (IsNull))
            (here S.rest self.old) result (here S.rest self.new) }
        ensures frame { OnOk result (SameFrame self.old self.new) }
        ensures failed { OnErr result ((here S.rest self.new).failed ≡ true) }
        ensures no_memory { IfErr result (λ e. e ≢ Memory) }
    {
        self.take_opt_primitive_if(Tag::NULL, |prim| prim.to_null())
    }

    /// The number of an INTEGER (X.690 8.3) that fits a `u8`; any other is refused.
    pub fn take_u8(&mut self) -> Result<u8, DecodeError<S::Error>>
        ensures reads { ReadsAs (λ n. n) (OctetsOf integer_tag (IsUnsigned (2 ^ 8)))
            (here S.rest self.old) result (here S.rest self.new) }
        ensures frame { OnOk result (SameFrame self.old self.new) }
        ensures named { IfErr result
            (λ e. OnContent e (NamesTag (here S.rest self.old) integer_tag e)) }
        ensures failed { OnErr result ((here S.rest self.new).failed ≡ true) }
        ensures no_memory { IfErr result (λ e. e ≢ Memory) }
    {
        self.take_primitive_if(Tag::INTEGER, |prim| prim.to_u8())
    }

    /// The number of an INTEGER, if one is next (X.690 8.3); one that doesn't fit a `u8` is refused.
    pub fn take_opt_u8(&mut self) -> Result<Option<u8>, DecodeError<S::Error>>
        ensures reads { ReadsOptAs (λ n. n) integer_tag
            (OctetsOf integer_tag (IsUnsigned (2 ^ 8))) (here S.rest self.old) result
            (here S.rest self.new) }
        ensures frame { OnOk result (SameFrame self.old self.new) }
        ensures failed { OnErr result ((here S.rest self.new).failed ≡ true) }
        ensures no_memory { IfErr result (λ e. e ≢ Memory) }
    {
        self.take_opt_primitive_if(Tag::INTEGER, |prim| prim.to_u8())
    }

    /// The number of an INTEGER (X.690 8.3) that fits a `u16`; any other is refused.
    pub fn take_u16(&mut self) -> Result<u16, DecodeError<S::Error>>
        ensures reads { ReadsAs (λ n. n) (OctetsOf integer_tag (IsUnsigned (2 ^ 16)))
            (here S.rest self.old) result (here S.rest self.new) }
        ensures frame { OnOk result (SameFrame self.old self.new) }
        ensures named { IfErr result
            (λ e. OnContent e (NamesTag (here S.rest self.old) integer_tag e)) }
        ensures failed { OnErr result ((here S.rest self.new).failed ≡ true) }
        ensures no_memory { IfErr result (λ e. e ≢ Memory) }
    {
        self.take_primitive_if(Tag::INTEGER, |prim| prim.to_u16())
    }

    /// The number of an INTEGER, if one is next (X.690 8.3); one that doesn't fit a `u16` is refused.
    pub fn take_opt_u16(&mut self) -> Result<Option<u16>, DecodeError<S::Error>>
        ensures reads { ReadsOptAs (λ n. n) integer_tag
            (OctetsOf integer_tag (IsUnsigned (2 ^ 16))) (here S.rest self.old) result
            (here S.rest self.new) }
        ensures frame { OnOk result (SameFrame self.old self.new) }
        ensures failed { OnErr result ((here S.rest self.new).failed ≡ true) }
        ensures no_memory { IfErr result (λ e. e ≢ Memory) }
    {
        self.take_opt_primitive_if(Tag::INTEGER, |prim| prim.to_u16())
    }

    /// The number of an INTEGER (X.690 8.3) that fits a `u32`; any other is refused.
    pub fn take_u32(&mut self) -> Result<u32, DecodeError<S::Error>>
        ensures reads { ReadsAs (λ n. n) (OctetsOf integer_tag (IsUnsigned (2 ^ 32)))
            (here S.rest self.old) result (here S.rest self.new) }
        ensures frame { OnOk result (SameFrame self.old self.new) }
        ensures named { IfErr result
            (λ e. OnContent e (NamesTag (here S.rest self.old) integer_tag e)) }
        ensures failed { OnErr result ((here S.rest self.new).failed ≡ true) }
        ensures no_memory { IfErr result (λ e. e ≢ Memory) }
    {
        self.take_primitive_if(Tag::INTEGER, |prim| prim.to_u32())
    }

    /// The number of an INTEGER, if one is next (X.690 8.3); one that doesn't fit a `u32` is refused.
    pub fn take_opt_u32(&mut self) -> Result<Option<u32>, DecodeError<S::Error>>
        ensures reads { ReadsOptAs (λ n. n) integer_tag
            (OctetsOf integer_tag (IsUnsigned (2 ^ 32))) (here S.rest self.old) result
            (here S.rest self.new) }
        ensures frame { OnOk result (SameFrame self.old self.new) }
        ensures failed { OnErr result ((here S.rest self.new).failed ≡ true) }
        ensures no_memory { IfErr result (λ e. e ≢ Memory) }
    {
        self.take_opt_primitive_if(Tag::INTEGER, |prim| prim.to_u32())
    }

    /// The number of an INTEGER (X.690 8.3) that fits a `u64`; any other is refused.
    pub fn take_u64(&mut self) -> Result<u64, DecodeError<S::Error>>
        ensures reads { ReadsAs (λ n. n) (OctetsOf integer_tag (IsUnsigned (2 ^ 64)))
            (here S.rest self.old) result (here S.rest self.new) }
        ensures frame { OnOk result (SameFrame self.old self.new) }
        ensures named { IfErr result
            (λ e. OnContent e (NamesTag (here S.rest self.old) integer_tag e)) }
        ensures failed { OnErr result ((here S.rest self.new).failed ≡ true) }
        ensures no_memory { IfErr result (λ e. e ≢ Memory) }
    {
        self.take_primitive_if(Tag::INTEGER, |prim| prim.to_u64())
    }

    /// The number of an INTEGER, if one is next (X.690 8.3); one that doesn't fit a `u64` is refused.
    pub fn take_opt_u64(&mut self) -> Result<Option<u64>, DecodeError<S::Error>>
        ensures reads { ReadsOptAs (λ n. n) integer_tag
            (OctetsOf integer_tag (IsUnsigned (2 ^ 64))) (here S.rest self.old) result
            (here S.rest self.new) }
        ensures frame { OnOk result (SameFrame self.old self.new) }
        ensures failed { OnErr result ((here S.rest self.new).failed ≡ true) }
        ensures no_memory { IfErr result (λ e. e ≢ Memory) }
    {
        self.take_opt_primitive_if(Tag::INTEGER, |prim| prim.to_u64())
    }

    /// Reads an INTEGER (X.690 8.3) of that number; any other is refused.
    pub fn skip_u8_if(&mut self, expected: u8) -> Result<(), DecodeError<S::Error>>
        ensures reads { ReadsAs (λ x. x)
            (OctetsOf integer_tag (IsValue (IsUnsigned (2 ^ 8)) expected)) (here S.rest self.old)
            result (here S.rest self.new) }
        ensures frame { OnOk result (SameFrame self.old self.new) }
        ensures named { IfErr result
            (λ e. OnContent e (NamesTag (here S.rest self.old) integer_tag e)) }
        ensures failed { OnErr result ((here S.rest self.new).failed ≡ true) }
        ensures no_memory { IfErr result (λ e. e ≢ Memory) }
    {
        self.take_primitive_if(Tag::INTEGER, |prim| prim.skip_u8_if(expected))
    }

    /// Reads an INTEGER of that number, if an INTEGER is next, and answers whether (X.690 8.3); any other
    /// number is refused.
    pub fn skip_opt_u8_if(&mut self, expected: u8) -> Result<Option<()>, DecodeError<S::Error>>
        ensures reads { ReadsOptAs (λ x. x) integer_tag
            (OctetsOf integer_tag (IsValue (IsUnsigned (2 ^ 8)) expected)) (here S.rest self.old)
            result (here S.rest self.new) }
        ensures frame { OnOk result (SameFrame self.old self.new) }
        ensures failed { OnErr result ((here S.rest self.new).failed ≡ true) }
        ensures no_memory { IfErr result (λ e. e ≢ Memory) }
    {
        self.take_opt_primitive_if(Tag::INTEGER, |prim| prim.skip_u8_if(expected))
    }
}

/// Sequences and sets, by closures that read their values.
impl<S: Source> Constructed<S> {
    /// A SEQUENCE (X.690 8.9, 8.10), by a closure that reads its values.
    pub fn take_sequence<
        T: Drop,
        F: FnOnce(&mut Constructed<S>) -> Result<T, DecodeError<S::Error>>,
    >(&mut self, op: F) -> Result<T, DecodeError<S::Error>>
        requires { F.IsAlwaysCallable op }
        ensures ran { ClosureReads S.rest F.FnOnce op (here S.rest self.old) sequence_tag
            result (here S.rest self.new) }
        ensures frame { OnOk result (SameFrame self.old self.new) }
        ensures named { IfErr result
            (λ e. OnContent e (NamesTag (here S.rest self.old) sequence_tag e)) }
        ensures failed { OnErr result ((here S.rest self.new).failed ≡ true) }
        ensures memory { IfErr result
            (λ e. OnMemory e (ClosureReadsErr S.rest F.FnOnce op
            (here S.rest self.old) sequence_tag e)) }
    {
        self.take_constructed_if(Tag::SEQUENCE, op)
    }

    /// A SEQUENCE (X.690 8.9, 8.10), if one is next, by a closure that reads its values.
    pub fn take_opt_sequence<
        T: Drop,
        F: FnOnce(&mut Constructed<S>) -> Result<T, DecodeError<S::Error>>,
    >(&mut self, op: F) -> Result<Option<T>, DecodeError<S::Error>>
        requires { F.IsAlwaysCallable op }
        ensures ran { ClosureReadsOpt S.rest F.FnOnce op (here S.rest self.old) sequence_tag
            result (here S.rest self.new) }
        ensures frame { OnOk result (SameFrame self.old self.new) }
        ensures failed { OnErr result ((here S.rest self.new).failed ≡ true) }
        ensures memory { IfErr result
            (λ e. OnMemory e (ClosureReadsErr S.rest F.FnOnce op
            (here S.rest self.old) sequence_tag e)) }
    {
        self.take_opt_constructed_if(Tag::SEQUENCE, op)
    }

    /// A SET (X.690 8.11, 8.12), by a closure that reads its values.
    pub fn take_set<T: Drop, F: FnOnce(&mut Constructed<S>) -> Result<T, DecodeError<S::Error>>>(
        &mut self,
        op: F,
    ) -> Result<T, DecodeError<S::Error>>
        requires { F.IsAlwaysCallable op }
        ensures ran { ClosureReads S.rest F.FnOnce op (here S.rest self.old) set_tag
            result (here S.rest self.new) }
        ensures frame { OnOk result (SameFrame self.old self.new) }
        ensures named { IfErr result
            (λ e. OnContent e (NamesTag (here S.rest self.old) set_tag e)) }
        ensures failed { OnErr result ((here S.rest self.new).failed ≡ true) }
        ensures memory { IfErr result
            (λ e. OnMemory e (ClosureReadsErr S.rest F.FnOnce op
            (here S.rest self.old) set_tag e)) }
    {
        self.take_constructed_if(Tag::SET, op)
    }

    /// A SET (X.690 8.11, 8.12), if one is next, by a closure that reads its values.
    pub fn take_opt_set<
        T: Drop,
        F: FnOnce(&mut Constructed<S>) -> Result<T, DecodeError<S::Error>>,
    >(&mut self, op: F) -> Result<Option<T>, DecodeError<S::Error>>
        requires { F.IsAlwaysCallable op }
        ensures ran { ClosureReadsOpt S.rest F.FnOnce op (here S.rest self.old) set_tag
            result (here S.rest self.new) }
        ensures frame { OnOk result (SameFrame self.old self.new) }
        ensures failed { OnErr result ((here S.rest self.new).failed ≡ true) }
        ensures memory { IfErr result
            (λ e. OnMemory e (ClosureReadsErr S.rest F.FnOnce op
            (here S.rest self.old) set_tag e)) }
    {
        self.take_opt_constructed_if(Tag::SET, op)
    }
}
