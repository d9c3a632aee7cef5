//! Octets of values that are kept as they stand.
ghost use Rattle.std.specs.Prelude.{◌≡◌, ◌≤◌, false, IfOk, IfErr, OnOk, OnErr, length, slice_range};
ghost use Rattle.bcder_content.specs.bcder_source.Errors.{OnContent};
ghost use Rattle.bcder_content.specs.bcder_source.Limits.{view, at_hand};
ghost use Rattle.bcder_content.specs.bcder_source.Views.{left};
ghost use Rattle.bcder_content.specs.Here.{here, SameFrame};
ghost use Rattle.bcder_content.specs.Captures.{rest_of, ReadsValues, ReadsSome, Wants, Captures, CapturesAll, RefusesIn, RefusedAt, Rebased};
ghost use Rattle.bcder_content.specs.Contents.{Goes, Ended};
ghost use Rattle.bcder_content.specs.Exact.{ReadsAs};
ghost use Rattle.bcder_content.specs.Grammar.{Any, Exactly};
ghost use Rattle.bcder_content.specs.Memory.{OnMemory};
ghost use Rattle.bcder_content.specs.Skips.{SkipsAll, NotWhole};

use crate::bcder_source::{ContentError, DecodeError, LimitedSource, Pos, SliceSource, Source};
use crate::captured::Captured;
use crate::constructed::Constructed;
use crate::primitive::Primitive;
use bytes::Bytes;
use std::alloc::{AllocError, Global};
use std::convert::Infallible;

// Has all octets at hand that may be read, and answers how many they are.
fn gather<S: Source>(source: &mut LimitedSource<S>) -> Result<usize, S::Error>
    ensures same { view S.rest source.new ≡ view S.rest source.old }
    ensures position { S.position source.new.source ≡ S.position source.old.source }
    ensures all { IfOk result (λ n. n ≡ length (left (view S.rest source.new))) }
    ensures at_hand { IfOk result
        (λ n. n ≡ at_hand source.new.limit (S.available source.new.source)) }
{
    let mut have = 0;
    loop {
        let count = source.request(have + 1)?;
        if count <= have {
            return Ok(count);
        }
        have = count;
    }
}

// The first octets that may be read, which are at hand; where there are none no memory is wanted.
fn front<S: Source>(
    source: &LimitedSource<S>,
    alloc: Global,
    count: usize,
) -> Result<Bytes, AllocError>
    requires { count ≤ at_hand source.now.limit (S.available source.now.source) }
    ensures octets { IfOk result (λ b. b ≡ slice_range (left (view S.rest source.now)) 0 count) }
    ensures some { OnErr result (1 ≤ count) }
{
    if count == 0 {
        return Ok(Bytes::new());
    }
    source.bytes(alloc, 0, count)
}

// The refusal, where the octets began at that position.
fn rebased<E>(error: DecodeError<Infallible>, start: Pos) -> DecodeError<E>
    ensures { Rebased start error result }
{
    match error {
        DecodeError::Content(error, pos) => DecodeError::Content(error, start + pos),
        DecodeError::Source(never) => match never {},
        DecodeError::Memory => DecodeError::Memory,
    }
}

impl<S: Source> Constructed<S> {
    // How many octets the values have that the closure reads, from all octets at hand.
    fn count_read<
        F: FnOnce(&mut Constructed<SliceSource<'_>>) -> Result<(), DecodeError<Infallible>>,
    >(&self, op: F) -> Result<usize, DecodeError<Infallible>>
        requires callable { F.IsAlwaysCallable op }
        requires reads { ReadsValues rest_of F.FnOnce op }
        requires sound { (here S.rest self.now).failed ≡ false }
        requires all { at_hand self.now.octets.source.limit
            (S.available self.now.octets.source.source)
            ≡ length (left (view S.rest self.now.octets.source)) }
        ensures read { IfOk result (ReadsSome F.FnOnce op (here S.rest self.now)) }
        ensures refused { IfErr result (RefusesIn F.FnOnce op (here S.rest self.now)) }
    {
        let octets = self.octets.source.slice();
        let mut source = LimitedSource::new(SliceSource::new(octets));
        source.set_limit(self.octets.source.limit);
        let mut inner = Constructed {
            octets: Primitive {
                source,
                mode: self.octets.mode,
                failed: false,
                start: Pos::from(0),
            },
            end: self.end,
            constructed: true,
        };
        match op(&mut inner) {
            Ok(()) => Ok(octets.len() - inner.octets.source.source.len()),
            Err(error) => Err(error),
        }
    }

    /// The octets of the values that a closure reads, which are then read of the content. The closure
    /// reads them from a slice of all octets that may be read of the content.
    ///
    /// Where that is refused the content is as it was.
    pub fn capture<
        F: FnOnce(&mut Constructed<SliceSource<'_>>) -> Result<(), DecodeError<Infallible>>,
    >(&mut self, alloc: Global, op: F) -> Result<Captured, DecodeError<S::Error>>
        requires callable { F.IsAlwaysCallable op }
        requires reads { ReadsValues rest_of F.FnOnce op }
        ensures captures { Captures F.FnOnce op (here S.rest self.old) result
            (here S.rest self.new) }
        ensures place { IfErr result (λ e. OnContent e (
            RefusedAt F.FnOnce op (here S.rest self.old)
            (S.position self.old.octets.source.source) e)) }
        ensures memory { IfErr result (λ e. OnMemory e (Wants F.FnOnce op (here S.rest self.old))) }
        ensures frame { OnOk result (SameFrame self.old self.new) }
    {
        if self.octets.failed {
            return Err((*self).content_err(ContentError::from_static("a read was refused before")));
        }
        match gather(&mut self.octets.source) {
            Ok(_) => {}
            Err(error) => return Err(DecodeError::Source(error)),
        }
        let start = self.octets.source.pos();
        let count = match (*self).count_read(op) {
            Ok(count) => count,
            Err(error) => return Err(rebased(error, start)),
        };
        let bytes = match front(&self.octets.source, alloc, count) {
            Ok(bytes) => bytes,
            Err(_) => return Err(DecodeError::Memory),
        };
        self.octets.source.advance(count);
        Ok(Captured::new(bytes, self.octets.mode, start))
    }

    /// The octets of the next value, which is then read of the content. Where that is refused, or no
    /// value is left, the content is as it was.
    pub fn capture_one(&mut self, alloc: Global) -> Result<Captured, DecodeError<S::Error>>
        ensures captured { ReadsAs (λ c. c.octets) (Exactly (here S.rest self.old).mode)
            (here S.rest self.old) result (here S.rest self.new) }
        ensures goes { IfOk result
            (λ c. Goes (here S.rest self.old) c.octets (here S.rest self.new)) }
        ensures mode { IfOk result (λ c. c.mode ≡ (here S.rest self.old).mode) }
        ensures memory { IfErr result (λ e. OnMemory e (Ended (here S.rest self.old) → ⊥)) }
        ensures frame { OnOk result (SameFrame self.old self.new) }
        ensures kept { OnErr result (here S.rest self.new ≡ here S.rest self.old) }
    {
        self.capture(
            alloc,
            |cons|
                ensures reads { ReadsAs (λ x. x) Any (here rest_of cons.old) result
                    (here rest_of cons.new) }
                ensures memory { IfErr result
                    (λ e. OnMemory e (Ended (here rest_of cons.old) → ⊥)) }
            {
                match cons.skip_one(alloc) {
                    Ok(Some(())) => Ok(()),
                    Ok(None) => Err(
                        (*cons).content_err(ContentError::from_static("missing further values")),
                    ),
                    Err(error) => Err(error),
                }
            },
        )
    }

    /// The octets of all values that are left, up to the end of the content; they are then read of the
    /// content. Where that is refused the content is as it was.
    pub fn capture_all(&mut self, alloc: Global) -> Result<Captured, DecodeError<S::Error>>
        ensures frame { OnOk result (SameFrame self.old self.new) }
        ensures captured { IfOk result
            (λ c. CapturesAll (here S.rest self.old) c (here S.rest self.new)) }
        ensures refused { IfErr result (λ e. OnContent e (NotWhole (here S.rest self.old))) }
        ensures memory { IfErr result (λ e. OnMemory e (Ended (here S.rest self.old) → ⊥)) }
        ensures kept { OnErr result (here S.rest self.new ≡ here S.rest self.old) }
    {
        self.capture(
            alloc,
            |cons|
                ensures skipped { OnOk result
                    (SkipsAll (here rest_of cons.old) (here rest_of cons.new)) }
                ensures refused { IfErr result
                    (λ e. OnContent e (NotWhole (here rest_of cons.old))) }
                ensures memory { IfErr result
                    (λ e. OnMemory e (Ended (here rest_of cons.old) → ⊥)) }
            { cons.skip_all(alloc) },
        )
    }
}
