//! Skipping values, without recursion.
ghost use Rattle.std.specs.Prelude.{◌≡◌, IfErr, OnOk, OnErr, true};
ghost use Rattle.bcder_content.specs.bcder_source.Errors.{OnContent};
ghost use Rattle.bcder_content.specs.Exact.{ReadsNextAs};
ghost use Rattle.bcder_content.specs.Grammar.{Any};
ghost use Rattle.bcder_content.specs.Contents.{Ended};
ghost use Rattle.bcder_content.specs.Here.{here, SameFrame};
ghost use Rattle.bcder_content.specs.Memory.{OnMemory};
ghost use Rattle.bcder_content.specs.Skips.{OnError, SkipsOpt, SkipsNext, StopsNext, SkipsAll, NotWhole};

use crate::bcder_source::{ContentError, DecodeError, Source, Tag};
use crate::constructed::Constructed;
pub use crate::skip_value::skip_value;
use std::alloc::Global;

impl<S: Source> Constructed<S> {
    /// Skips the next value, if there is one, and calls `op` for it and for each value in it, as
    /// `skip` does.
    ///
    /// None where the content has ended.
    pub fn skip_opt<F: FnMut(Tag, bool, usize) -> Result<(), ContentError>>(
        &mut self,
        alloc: Global,
        op: F,
    ) -> Result<Option<()>, DecodeError<S::Error>>
        requires callable { F.IsAlwaysCallable op }
        ensures skipped { SkipsOpt F.step op (here S.rest self.old) result (here S.rest self.new) }
        ensures frame { OnOk result (SameFrame self.old self.new) }
        ensures memory { IfErr result (λ e. OnMemory e (Ended (here S.rest self.old) → ⊥)) }
        ensures failed { OnErr result ((here S.rest self.new).failed ≡ true) }
    {
        if self.octets.failed {
            return Err(self.refuse(ContentError::from_static("a read was refused before")));
        }
        match self.is_ended() {
            Ok(true) => return Ok(None),
            Ok(false) => {}
            Err(error) => return Err(self.broken(error)),
        }
        let mode = self.octets.mode;
        match skip_value(alloc, mode, &mut self.octets.source, op) {
            Ok(()) => Ok(Some(())),
            Err(error) => {
                self.fail();
                Err(error)
            }
        }
    }

    /// Skips the next value, and calls `op` for it and for each value in it: the tag, whether it is
    /// constructed, and in how many of the values that are skipped it lies. A value comes before
    /// those in it.
    ///
    /// The content is refused where no value is next, and with the error of `op` where that
    /// refuses a value. Memory is wanted only where more than 8 values lie in each
    /// other, and never where the content has ended.
    pub fn skip<F: FnMut(Tag, bool, usize) -> Result<(), ContentError>>(
        &mut self,
        alloc: Global,
        op: F,
    ) -> Result<(), DecodeError<S::Error>>
        requires callable { F.IsAlwaysCallable op }
        ensures skipped { OnOk result
            (SkipsNext F.step op (here S.rest self.old) (here S.rest self.new)) }
        ensures refused { IfErr result
            (λ e. OnError e (StopsNext F.step op (here S.rest self.old))) }
        ensures frame { OnOk result (SameFrame self.old self.new) }
        ensures memory { IfErr result (λ e. OnMemory e (Ended (here S.rest self.old) → ⊥)) }
        ensures failed { OnErr result ((here S.rest self.new).failed ≡ true) }
    {
        match self.skip_opt(alloc, op) {
            Ok(Some(())) => Ok(()),
            Ok(None) => Err(self.refuse(ContentError::from_static("missing further values"))),
            Err(error) => Err(error),
        }
    }

    /// Skips the next value, if there is one, whatever it is.
    ///
    /// None where the content has ended.
    pub fn skip_one(&mut self, alloc: Global) -> Result<Option<()>, DecodeError<S::Error>>
        ensures skipped { ReadsNextAs (λ x. x) Any (here S.rest self.old) result
            (here S.rest self.new) }
        ensures frame { OnOk result (SameFrame self.old self.new) }
        ensures memory { IfErr result (λ e. OnMemory e (Ended (here S.rest self.old) → ⊥)) }
        ensures failed { OnErr result ((here S.rest self.new).failed ≡ true) }
    {
        self.skip_opt(alloc, |_, _, _| Ok(()))
    }

    /// Skips all values that are left, up to the end of the content.
    pub fn skip_all(&mut self, alloc: Global) -> Result<(), DecodeError<S::Error>>
        ensures skipped { OnOk result (SkipsAll (here S.rest self.old) (here S.rest self.new)) }
        ensures refused { IfErr result (λ e. OnContent e (NotWhole (here S.rest self.old))) }
        ensures frame { OnOk result (SameFrame self.old self.new) }
        ensures memory { IfErr result (λ e. OnMemory e (Ended (here S.rest self.old) → ⊥)) }
        ensures failed { OnErr result ((here S.rest self.new).failed ≡ true) }
    {
        loop {
            match self.skip_one(alloc) {
                Ok(Some(())) => {}
                Ok(None) => return Ok(()),
                Err(error) => return Err(error),
            }
        }
    }
}
