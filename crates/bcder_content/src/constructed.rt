//! Contents of values.
ghost use Rattle.std.specs.Prelude.{◌≡◌, ◌↔◌, true, false, IfOk, IfErr, OnOk, OnErr, IsTrue};
ghost use Rattle.bcder_content.specs.bcder_source.Errors.{OnContent, OnlyContent};
ghost use Rattle.bcder_content.specs.bcder_source.Views.{left};
ghost use Rattle.bcder_content.specs.bcder_source.declared.error.DecodeError.TheVariants.{Content as content_error};
ghost use Rattle.bcder_content.specs.Contents.{octets, EndsHere, Unlike, Untold};
ghost use Rattle.bcder_content.specs.Here.{here, start_of, SameFrame};
ghost use Rattle.bcder_content.specs.Memory.{OnMemory, ClosureReadsErr, PlainErr};
ghost use Rattle.bcder_content.specs.Openings.{OfTag};
ghost use Rattle.bcder_content.specs.ClosureReads.{Enters, NoneOf, Comes, ClosureReads, ClosureReadsOpt, PlainClosureReads, PlainClosureReadsOpt};
ghost use Rattle.bcder_content.specs.Stops.{NoneAhead, NamesTag, EndsUnread, LeftBy};

use crate::bcder_source::{ContentError, DecodeError, Mode, Pos, Source, Tag};
use crate::ending::{Ending, Span};
use crate::header;
use crate::primitive::Primitive;

/// A content of values: of a constructed value, or of a source.
///
/// Values are read in their order, by closures. A read that is refused leaves the content failed:
/// each later read of it is refused.
#[derive(Drop)]
pub struct Constructed<S> {
    /// The octets of the content.
    pub(crate) octets: Primitive<S>,
    /// How the content ends.
    pub(crate) end: Ending,
    /// Whether these are the values of a constructed value or a source, and no octets of a primitive
    /// value.
    pub(crate) constructed: bool,
}

// What is around a value whose content is read.
#[derive(Clone, Copy, Debug, PartialEq, Eq)]
pub(crate) struct Outer {
    span: Span,
    mode: Mode,
    end: Ending,
    constructed: bool,
    start: Pos,
}

impl<S: Source> Constructed<S> {
    /// By which rules values are read.
    pub fn mode(&self) -> Mode
        ensures { result ≡ (here S.rest self.now).mode }
    {
        self.octets.mode
    }

    /// From now on values are read by these rules, up to the end of this content.
    pub fn set_mode(&mut self, mode: Mode)
        ensures content { here S.rest self.new
            ≡ record {
              mode = mode;
              end = (here S.rest self.old).end;
              failed = (here S.rest self.old).failed;
              rest = (here S.rest self.old).rest;
              limit = (here S.rest self.old).limit;
            } }
        ensures frame { SameFrame self.old self.new }
    {
        self.octets.mode = mode;
    }

    /// The refusal of the content, from its beginning.
    pub fn content_err(&self, error: ContentError) -> DecodeError<S::Error>
        ensures { result ≡ content_error error (start_of self.now) }
    {
        DecodeError::content(error, self.octets.start)
    }

    /// From now on the content is failed: each later read of it is refused. So a reader leaves it that
    /// finds what it read unfit.
    pub fn fail(&mut self)
        ensures content { here S.rest self.new
            ≡ record {
              mode = (here S.rest self.old).mode;
              end = (here S.rest self.old).end;
              failed = true;
              rest = (here S.rest self.old).rest;
              limit = (here S.rest self.old).limit;
            } }
        ensures frame { SameFrame self.old self.new }
    {
        self.octets.failed = true;
    }

    // The refusal of what is read next; the content is failed from now on.
    pub(crate) fn refuse(&mut self, error: ContentError) -> DecodeError<S::Error>
        ensures error { (pos : _) × (result ≡ content_error error pos) }
        ensures failed { (here S.rest self.new).failed ≡ true }
    {
        self.fail();
        let pos = self.octets.source.pos();
        DecodeError::content(error, pos)
    }

    // A failure of the source; the content is failed from now on.
    pub(crate) fn broken(&mut self, error: S::Error) -> DecodeError<S::Error>
        ensures error { result ≡ DecodeError.Source error }
        ensures failed { (here S.rest self.new).failed ≡ true }
    {
        self.fail();
        DecodeError::Source(error)
    }

    // Whether the content has ended, as far as its octets tell.
    #[inline(always)]
    pub(crate) fn is_ended(&mut self) -> Result<bool, S::Error>
        ensures same { here S.rest self.new ≡ here S.rest self.old }
        ensures frame { SameFrame self.old self.new }
        ensures told { IfOk result
            (λ b. IsTrue b ↔ EndsHere (here S.rest self.old).end (octets (here S.rest self.old))) }
    {
        match self.end {
            Ending::Definite => Ok(self.octets.source.limit == Some(0)),
            Ending::Indefinite => {
                self.octets.source.request(2)?;
                Ok(Tag::is_end(self.octets.source.slice()))
            }
            Ending::Unbounded => Ok(self.octets.source.request(1)? == 0),
        }
    }

    // Whether a value of that tag is next, as far as its identifier octets tell. Where there are octets,
    // but no identifier octets of a value, the content is refused.
    #[inline(always)]
    pub(crate) fn comes(&mut self, tag: Tag) -> Result<bool, DecodeError<S::Error>>
        ensures same { OnOk result (here S.rest self.new ≡ here S.rest self.old) }
        ensures frame { OnOk result (SameFrame self.old self.new) }
        ensures yes { IfOk result (λ b. b ≡ true → Comes (here S.rest self.old) tag) }
        ensures told { IfOk result
            (λ b. b ≡ true → OfTag tag (left (octets (here S.rest self.old)))) }
        ensures no { IfOk result (λ b. b ≡ false → Unlike (here S.rest self.old) tag) }
        ensures refused { IfErr result (λ e. OnlyContent e (Untold (here S.rest self.old))) }
        ensures failed { OnErr result ((here S.rest self.new).failed ≡ true) }
    {
        if self.octets.failed {
            return Err(self.refuse(ContentError::from_static("a read was refused before")));
        }
        let found = match header::next_tag(&mut self.octets.source) {
            Ok(found) => found,
            Err(error) => return Err(self.broken(error)),
        };
        if let Some(found) = found {
            return Ok(found == tag);
        }
        match self.is_ended() {
            Ok(true) => Ok(false),
            Ok(false) => Err(self.refuse(ContentError::from_static("no identifier"))),
            Err(error) => Err(self.broken(error)),
        }
    }

    // Goes into the value in front: its tag, its form, and what is around it.
    #[inline(always)]
    pub(crate) fn open(&mut self) -> Result<(Tag, bool, Outer), DecodeError<S::Error>>
        ensures entered { IfOk result
            (λ r. Enters (here S.rest self.old) r.1 r.0 r.2.span (here S.rest self.new)) }
        ensures form { IfOk result (λ r. self.new.constructed ≡ r.1) }
        ensures around { IfOk result (λ r. (r.2.mode ≡ (here S.rest self.old).mode)
            × (r.2.end ≡ (here S.rest self.old).end)) }
        ensures frame { IfOk result (λ r.
            (r.2.constructed ≡ self.old.constructed) × (r.2.start ≡ start_of self.old)) }
        ensures start { OnOk result (start_of self.new ≡ S.position self.new.octets.source.source) }
        ensures refused { IfErr result (λ e. OnlyContent e (NoneAhead (here S.rest self.old))) }
        ensures failed { OnErr result ((here S.rest self.new).failed ≡ true) }
    {
        if self.octets.failed {
            return Err(self.refuse(ContentError::from_static("a read was refused before")));
        }
        let mode = self.octets.mode;
        let found = match header::enter(mode, &mut self.octets.source) {
            Ok(found) => found,
            Err(error) => return Err(self.broken(error)),
        };
        let Some(value) = found else {
            return Err(self.refuse(ContentError::from_static("no value")));
        };
        let outer = Outer {
            span: value.span,
            mode,
            end: self.end,
            constructed: self.constructed,
            start: self.octets.start,
        };
        self.constructed = value.constructed;
        self.end = match value.span {
            Span::Until(_) => Ending::Definite,
            Span::ToEnd => Ending::Indefinite,
        };
        self.octets.start = self.octets.source.pos();
        Ok((value.tag, value.constructed, outer))
    }

    // Goes into the value in front, where it has that tag and form.
    #[inline(always)]
    fn open_if(&mut self, tag: Tag, constructed: bool) -> Result<Outer, DecodeError<S::Error>>
        ensures entered { IfOk result (λ outer. Enters (here S.rest self.old) constructed tag
            outer.span (here S.rest self.new)) }
        ensures around { IfOk result (λ outer. (outer.mode ≡ (here S.rest self.old).mode)
            × (outer.end ≡ (here S.rest self.old).end)) }
        ensures frame { IfOk result (λ outer.
            (outer.constructed ≡ self.old.constructed) × (outer.start ≡ start_of self.old)) }
        ensures refused { IfErr result
            (λ e. OnlyContent e (NoneOf (here S.rest self.old) tag constructed)) }
        ensures named { IfErr result (λ e. OnContent e (NamesTag (here S.rest self.old) tag e)) }
        ensures failed { OnErr result ((here S.rest self.new).failed ≡ true) }
    {
        let (found, form, outer) = match self.open() {
            Ok(found) => found,
            Err(error) => return Err(error),
        };
        if found != tag {
            return Err(self.refuse(ContentError::ExpectedTag(tag)));
        }
        if form != constructed {
            return Err(self.refuse(ContentError::from_static("a value of the other form")));
        }
        Ok(outer)
    }

    // Goes past the value whose content was read, all of it.
    #[inline(always)]
    pub(crate) fn close(&mut self, outer: Outer) -> Result<(), DecodeError<S::Error>>
        ensures left { OnOk result
            (LeftBy outer.span outer.mode outer.end (here S.rest self.old) (here S.rest self.new)) }
        ensures frame { OnOk result (
            (self.new.constructed ≡ outer.constructed) × (start_of self.new ≡ outer.start)) }
        ensures refused { IfErr result (λ e. OnlyContent e
            (EndsUnread outer.span (here S.rest self.old).failed (octets (here S.rest self.old)))) }
        ensures failed { OnErr result ((here S.rest self.new).failed ≡ true) }
    {
        if self.octets.failed {
            return Err(self.refuse(ContentError::from_static("a read was refused before")));
        }
        let left = match header::leave(&mut self.octets.source, outer.span) {
            Ok(left) => left,
            Err(error) => return Err(self.broken(error)),
        };
        if !left {
            return Err(self.refuse(ContentError::from_static("octets behind the content")));
        }
        self.octets.mode = outer.mode;
        self.end = outer.end;
        self.constructed = outer.constructed;
        self.octets.start = outer.start;
        Ok(())
    }
}

/// Values that closures read, all of their content.
impl<S: Source> Constructed<S> {
    /// A constructed value with that tag, by a closure that reads its values.
    #[inline(always)]
    pub fn take_constructed_if<
        T: Drop,
        F: FnOnce(&mut Constructed<S>) -> Result<T, DecodeError<S::Error>>,
    >(&mut self, tag: Tag, op: F) -> Result<T, DecodeError<S::Error>>
        requires { F.IsAlwaysCallable op }
        ensures ran { ClosureReads S.rest F.FnOnce op (here S.rest self.old) tag result
            (here S.rest self.new) }
        ensures frame { OnOk result (SameFrame self.old self.new) }
        ensures named { IfErr result (λ e. OnContent e (NamesTag (here S.rest self.old) tag e)) }
        ensures failed { OnErr result ((here S.rest self.new).failed ≡ true) }
        ensures memory { IfErr result
            (λ e. OnMemory e (ClosureReadsErr S.rest F.FnOnce op (here S.rest self.old) tag e)) }
    {
        let outer = match self.open_if(tag, true) {
            Ok(outer) => outer,
            Err(error) => return Err(error),
        };
        let value = match op(self) {
            Ok(value) => value,
            Err(error) => {
                self.fail();
                return Err(error);
            }
        };
        match self.close(outer) {
            Ok(()) => Ok(value),
            Err(error) => Err(error),
        }
    }

    /// Takes the next constructed value where it has that tag; else nothing is read.
    #[inline(always)]
    pub fn take_opt_constructed_if<
        T: Drop,
        F: FnOnce(&mut Constructed<S>) -> Result<T, DecodeError<S::Error>>,
    >(&mut self, tag: Tag, op: F) -> Result<Option<T>, DecodeError<S::Error>>
        requires { F.IsAlwaysCallable op }
        ensures ran { ClosureReadsOpt S.rest F.FnOnce op (here S.rest self.old) tag result
            (here S.rest self.new) }
        ensures frame { OnOk result (SameFrame self.old self.new) }
        ensures failed { OnErr result ((here S.rest self.new).failed ≡ true) }
        ensures memory { IfErr result
            (λ e. OnMemory e (ClosureReadsErr S.rest F.FnOnce op (here S.rest self.old) tag e)) }
    {
        match self.comes(tag) {
            Ok(true) => {}
            Ok(false) => return Ok(None),
            Err(error) => return Err(error),
        }
        match self.take_constructed_if(tag, op) {
            Ok(value) => Ok(Some(value)),
            Err(error) => Err(error),
        }
    }

    /// A primitive value with that tag, by a closure that reads its octets.
    #[inline(always)]
    pub fn take_primitive_if<
        T: Drop,
        F: FnOnce(&mut Primitive<S>) -> Result<T, DecodeError<S::Error>>,
    >(&mut self, tag: Tag, op: F) -> Result<T, DecodeError<S::Error>>
        requires { F.IsAlwaysCallable op }
        ensures ran { PlainClosureReads S.rest F.FnOnce op (here S.rest self.old) tag result
            (here S.rest self.new) }
        ensures frame { OnOk result (SameFrame self.old self.new) }
        ensures named { IfErr result (λ e. OnContent e (NamesTag (here S.rest self.old) tag e)) }
        ensures failed { OnErr result ((here S.rest self.new).failed ≡ true) }
        ensures memory { IfErr result
            (λ e. OnMemory e (PlainErr S.rest F.FnOnce op (here S.rest self.old) tag e)) }
    {
        let outer = match self.open_if(tag, false) {
            Ok(outer) => outer,
            Err(error) => return Err(error),
        };
        let value = match op(&mut self.octets) {
            Ok(value) => value,
            Err(error) => {
                self.fail();
                return Err(error);
            }
        };
        match self.close(outer) {
            Ok(()) => Ok(value),
            Err(error) => Err(error),
        }
    }

    /// Takes the next primitive value where it has that tag; else nothing is read.
    #[inline(always)]
    pub fn take_opt_primitive_if<
        T: Drop,
        F: FnOnce(&mut Primitive<S>) -> Result<T, DecodeError<S::Error>>,
    >(&mut self, tag: Tag, op: F) -> Result<Option<T>, DecodeError<S::Error>>
        requires { F.IsAlwaysCallable op }
        ensures ran { PlainClosureReadsOpt S.rest F.FnOnce op (here S.rest self.old) tag result
            (here S.rest self.new) }
        ensures frame { OnOk result (SameFrame self.old self.new) }
        ensures failed { OnErr result ((here S.rest self.new).failed ≡ true) }
        ensures memory { IfErr result
            (λ e. OnMemory e (PlainErr S.rest F.FnOnce op (here S.rest self.old) tag e)) }
    {
        match self.comes(tag) {
            Ok(true) => {}
            Ok(false) => return Ok(None),
            Err(error) => return Err(error),
        }
        match self.take_primitive_if(tag, op) {
            Ok(value) => Ok(Some(value)),
            Err(error) => Err(error),
        }
    }
}
