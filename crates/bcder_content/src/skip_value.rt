//! Skipping a value, without recursion.
ghost use Rattle.std.specs.Prelude.{◌≡◌, ◌≤◌, ◌<◌, [], ◌∷◌, length, IfOk, IfErr, OnOk, IsTrue, IsFalse};
ghost use mathlib.Core.List.{reverse};
ghost use Rattle.bcder_content.specs.bcder_tree.declared.mode.Mode.{Mode as ModeValue};
ghost use Rattle.bcder_source.specs.Errors.{OnContent};
ghost use Rattle.bcder_source.specs.Limits.{view};
ghost use Rattle.bcder_source.specs.Views.{View};
ghost use Rattle.bcder_content.specs.Openings.{Opens, NoValue};
ghost use Rattle.bcder_content.specs.SkipValues.{Skips, Stops, OnError};
ghost use Rattle.bcder_content.specs.SkipLevels.{Value, Wants, Reaches};

use crate::ending::Span;
use crate::header::{Start, enter, leave};
use bcder_source::{ContentError, DecodeError, LimitedSource, Mode, Source, Tag};
use smallvec::SmallVec;
use std::alloc::Global;

// How the values end that are being skipped, the innermost last.
type Spans = SmallVec<Span, 8>;

// Goes into the value in front, which must be there.
fn open<S: Source>(
    mode: Mode,
    source: &mut LimitedSource<S>,
) -> Result<Start, DecodeError<S::Error>>
    ensures found { IfOk result (λ start. Opens mode (view S.rest source.old) start.constructed
        start.tag start.span (view S.rest source.new)) }
    ensures none { IfErr result (λ e. OnContent e (NoValue mode (view S.rest source.old))) }
    ensures shorter { OnOk result
        (length (S.rest source.new.source) < length (S.rest source.old.source)) }
{
    match enter(mode, source) {
        Ok(Some(start)) => Ok(start),
        Ok(None) => Err((*source).content_err(ContentError::from_static("malformed value"))),
        Err(error) => Err(DecodeError::Source(error)),
    }
}

// Notes how a constructed value ends that was gone into; a primitive one is gone past.
fn descend<S: Source>(
    source: &mut LimitedSource<S>,
    start: Start,
    spans: &mut Spans,
) -> Result<(), DecodeError<S::Error>>
    ensures reached { OnOk result
        ((m : ModeValue) (before final : View)
        → Opens m before start.constructed start.tag start.span (view S.rest source.old)
        → Reaches
        (Value m (length spans.old.items) (Wants m (reverse spans.old.items) final) before)
        (record { tag = start.tag; form = start.constructed; depth = length spans.old.items } ∷ [])
        (Wants m (reverse spans.new.items) final (view S.rest source.new))) }
    ensures cut { IfErr result (λ e. OnContent e
        ((m : ModeValue) (before : View)
        → Opens m before start.constructed start.tag start.span (view S.rest source.old)
        → NoValue m before)) }
    ensures shorter { OnOk result
        (length (S.rest source.new.source) ≤ length (S.rest source.old.source)) }
{
    if start.constructed {
        spans.push(start.span)?;
        return Ok(());
    }
    source.skip_all()?;
    if let Span::Until(outer) = start.span {
        source.set_limit(outer);
    }
    Ok(())
}

// Leaves the values that end here, the innermost first; true where none is left.
fn leave_ended<S: Source>(
    source: &mut LimitedSource<S>,
    spans: &mut Spans,
) -> Result<bool, S::Error>
    ensures reached { OnOk result
        ((m : ModeValue) (final : View)
        → Reaches (Wants m (reverse spans.old.items) final (view S.rest source.old)) []
        (Wants m (reverse spans.new.items) final (view S.rest source.new))) }
    ensures all { IfOk result (λ b. IsTrue b → spans.new.items ≡ []) }
    ensures goes_on { IfOk result (λ b. IsFalse b → (m : ModeValue) (final : View)
        → Reaches (Wants m (reverse spans.new.items) final (view S.rest source.new)) []
        (Value m (length spans.new.items) (Wants m (reverse spans.new.items) final)
        (view S.rest source.new))) }
    ensures shorter { OnOk result
        (length (S.rest source.new.source) ≤ length (S.rest source.old.source)) }
{
    loop {
        let Some(span) = spans.last() else {
            return Ok(true);
        };
        let span = *span;
        if !leave(source, span)? {
            return Ok(false);
        }
        spans.pop();
    }
}

/// Goes past the value in front, and calls `op` for it and for each value in it: the tag, whether it
/// is constructed, and in how many of the values it lies. A value comes before those in it.
///
/// The content is refused where no value is in front, and with the error of `op` where that
/// refuses a value. Memory is wanted for more than 8 values in each other.
pub fn skip_value<S: Source, F: FnMut(Tag, bool, usize) -> Result<(), ContentError>>(
    alloc: Global,
    mode: Mode,
    source: &mut LimitedSource<S>,
    mut op: F,
) -> Result<(), DecodeError<S::Error>>
    requires callable { F.IsAlwaysCallable op }
    ensures skipped { OnOk result
        (Skips mode F.step op (view S.rest source.old) (view S.rest source.new)) }
    ensures refused { IfErr result
        (λ e. OnError e (Stops mode 0 F.step op (view S.rest source.old))) }
{
    let mut spans: Spans = SmallVec::new(alloc);
    loop {
        let start = match open(mode, source) {
            Ok(start) => start,
            Err(error) => return Err(error),
        };
        if let Err(error) = op(start.tag, start.constructed, spans.len()) {
            return Err((*source).content_err(error));
        }
        if let Err(error) = descend(source, start, &mut spans) {
            return Err(error);
        }
        match leave_ended(source, &mut spans) {
            Ok(true) => return Ok(()),
            Ok(false) => {}
            Err(error) => return Err(DecodeError::Source(error)),
        }
    }
}
