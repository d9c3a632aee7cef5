//! Contents of either form, and values of any tag.
ghost use Rattle.std.specs.Prelude.{◌≡◌, ◌↔◌, true, false, IsTrue, IfErr, IfOk, OnOk, OnErr};
ghost use Rattle.bcder_content.specs.bcder_source.Errors.{OnContent, OnlyContent};
ghost use Rattle.bcder_content.specs.Contents.{Ended};
ghost use Rattle.bcder_content.specs.Either.{SameContent, left_of, form_in, RunsOctets, RunsValues, ByContent, ByContentAlone, ByValues, ByOctets, Takes, TakesNext, TakesOpt, AnyKind, OfForm, WithTag};
ghost use Rattle.bcder_content.specs.Here.{here, SameFrame};
ghost use Rattle.bcder_content.specs.Memory.{OnMemory, AnyErr, TaggedErr};
ghost use Rattle.bcder_content.specs.Stops.{NamesTag};

use crate::bcder_source::{ContentError, DecodeError, Mode, Source, Tag};
use crate::constructed::Constructed;
use crate::primitive::Primitive;

/// The content of a value, which is primitive or constructed.
#[derive(Drop)]
pub struct Content<'a, S> {
    pub(crate) values: &'a mut Constructed<S>,
}

impl<'a, S: Source> Content<'a, S> {
    /// By which rules the content is read.
    pub fn mode(&self) -> Mode
        ensures { result ≡ (left_of S.rest self.now).mode }
    {
        self.values.octets.mode
    }

    /// Whether the value is primitive.
    pub fn is_primitive(&self) -> bool
        ensures { IsTrue result ↔ (form_in self.now ≡ false) }
    {
        !self.values.constructed
    }

    /// Whether the value is constructed.
    pub fn is_constructed(&self) -> bool
        ensures { IsTrue result ↔ (form_in self.now ≡ true) }
    {
        self.values.constructed
    }

    /// From now on the content is failed: each later read of it is refused. So a reader leaves it that finds
    /// what it read unfit.
    pub fn fail(&mut self)
        ensures same { SameContent self.old self.new }
        ensures failed { (left_of S.rest self.new).failed ≡ true }
    {
        self.values.fail();
    }

    /// What a closure reads from the octets of a primitive value. Another is refused, and the content is failed
    /// then.
    pub fn primitive<T: Drop, F: FnOnce(&mut Primitive<S>) -> Result<T, DecodeError<S::Error>>>(
        &mut self,
        op: F,
    ) -> Result<T, DecodeError<S::Error>>
        requires { F.IsAlwaysCallable op }
        ensures same { SameContent self.old self.new }
        ensures ran { RunsOctets S.rest F.FnOnce op self.old result self.new }
    {
        if self.values.constructed {
            let error = ContentError::from_static("expected a primitive value");
            return Err(self.values.refuse(error));
        }
        op(&mut self.values.octets)
    }

    /// What a closure reads from the values of a constructed value. Another is refused, and the content is failed
    /// then.
    pub fn constructed<T: Drop, F: FnOnce(&mut Constructed<S>) -> Result<T, DecodeError<S::Error>>>(
        &mut self,
        op: F,
    ) -> Result<T, DecodeError<S::Error>>
        requires { F.IsAlwaysCallable op }
        ensures same { SameContent self.old self.new }
        ensures ran { RunsValues S.rest F.FnOnce op self.old result self.new }
    {
        if !self.values.constructed {
            let error = ContentError::from_static("expected a constructed value");
            return Err(self.values.refuse(error));
        }
        op(self.values)
    }
}

impl<S: Source> Constructed<S> {
    // Runs a closure on this content, by its form.
    fn run<T: Drop, F: FnOnce(Tag, &mut Content<'_, S>) -> Result<T, DecodeError<S::Error>>>(
        &mut self,
        tag: Tag,
        op: F,
    ) -> Result<T, DecodeError<S::Error>>
        requires callable { F.IsAlwaysCallable op }
        requires keeps { (t p q : _) (r : _) → F.post op t p r q → SameContent p.now q.now }
        ensures { ByContent S.rest F.FnOnce op self.old.constructed tag (here S.rest self.old)
            result (here S.rest self.new) }
    {
        let mut content = Content { values: self };
        op(tag, &mut content)
    }

    // Runs a closure that isn't given the tag.
    fn run_alone<T: Drop, F: FnOnce(&mut Content<'_, S>) -> Result<T, DecodeError<S::Error>>>(
        &mut self,
        op: F,
    ) -> Result<T, DecodeError<S::Error>>
        requires callable { F.IsAlwaysCallable op }
        requires keeps { (p q : _) (r : _) → F.post op p r q → SameContent p.now q.now }
        ensures { (tag : _)
            → ByContentAlone S.rest F.FnOnce op self.old.constructed tag (here S.rest self.old)
            result (here S.rest self.new) }
    {
        let mut content = Content { values: self };
        op(&mut content)
    }

    // Whether the content has ended; one of which a read was refused before is refused again.
    fn ends(&mut self) -> Result<bool, DecodeError<S::Error>>
        ensures same { OnOk result (here S.rest self.new ≡ here S.rest self.old) }
        ensures frame { OnOk result (SameFrame self.old self.new) }
        ensures told { IfOk result (λ b. IsTrue b ↔ Ended (here S.rest self.old)) }
        ensures refused { IfErr result (λ e. OnlyContent e ((here S.rest self.old).failed ≡ true)) }
        ensures failed { OnErr result ((here S.rest self.new).failed ≡ true) }
    {
        if self.octets.failed {
            return Err(self.refuse(ContentError::from_static("a read was refused before")));
        }
        match self.is_ended() {
            Ok(ended) => Ok(ended),
            Err(error) => Err(self.broken(error)),
        }
    }
}

/// Values of any tag or form, by closures that read their content.
impl<S: Source> Constructed<S> {
    /// The next value, by a closure that is given its tag and reads its content, all of it.
    pub fn take_value<
        T: Drop,
        F: FnOnce(Tag, &mut Content<'_, S>) -> Result<T, DecodeError<S::Error>>,
    >(&mut self, op: F) -> Result<T, DecodeError<S::Error>>
        requires callable { F.IsAlwaysCallable op }
        requires keeps { (t p q : _) (r : _) → F.post op t p r q → SameContent p.now q.now }
        ensures taken { Takes (ByContent S.rest F.FnOnce op) AnyKind (here S.rest self.old) result
            (here S.rest self.new) }
        ensures frame { OnOk result (SameFrame self.old self.new) }
        ensures failed { OnErr result ((here S.rest self.new).failed ≡ true) }
        ensures memory { IfErr result
            (λ e. OnMemory e (AnyErr (ByContent S.rest F.FnOnce op) (here S.rest self.old) e)) }
    {
        let (tag, _, outer) = match self.open() {
            Ok(found) => found,
            Err(error) => return Err(error),
        };
        let value = match self.run(tag, op) {
            Ok(value) => value,
            Err(error) => {
                self.fail();
                return Err(error);
            }
        };
        match self.close(outer) {
            Ok(()) => Ok(value),
            Err(error) => Err(error),
        }
    }

    /// Takes the next value, unless the content has ended.
    pub fn take_opt_value<
        T: Drop,
        F: FnOnce(Tag, &mut Content<'_, S>) -> Result<T, DecodeError<S::Error>>,
    >(&mut self, op: F) -> Result<Option<T>, DecodeError<S::Error>>
        requires callable { F.IsAlwaysCallable op }
        requires keeps { (t p q : _) (r : _) → F.post op t p r q → SameContent p.now q.now }
        ensures taken { TakesNext (ByContent S.rest F.FnOnce op) AnyKind (here S.rest self.old)
            result (here S.rest self.new) }
        ensures frame { OnOk result (SameFrame self.old self.new) }
        ensures failed { OnErr result ((here S.rest self.new).failed ≡ true) }
        ensures memory { IfErr result
            (λ e. OnMemory e (AnyErr (ByContent S.rest F.FnOnce op) (here S.rest self.old) e)) }
    {
        match self.ends() {
            Ok(false) => {}
            Ok(true) => return Ok(None),
            Err(error) => return Err(error),
        }
        match self.take_value(op) {
            Ok(value) => Ok(Some(value)),
            Err(error) => Err(error),
        }
    }

    /// A value with that tag, by a closure that reads its content, all of it.
    pub fn take_value_if<
        T: Drop,
        F: FnOnce(&mut Content<'_, S>) -> Result<T, DecodeError<S::Error>>,
    >(&mut self, tag: Tag, op: F) -> Result<T, DecodeError<S::Error>>
        requires callable { F.IsAlwaysCallable op }
        requires keeps { (p q : _) (r : _) → F.post op p r q → SameContent p.now q.now }
        ensures taken { Takes (ByContentAlone S.rest F.FnOnce op) (WithTag tag)
            (here S.rest self.old) result (here S.rest self.new) }
        ensures frame { OnOk result (SameFrame self.old self.new) }
        ensures named { IfErr result (λ e. OnContent e (NamesTag (here S.rest self.old) tag e)) }
        ensures failed { OnErr result ((here S.rest self.new).failed ≡ true) }
        ensures memory { IfErr result (λ e. OnMemory e
            (TaggedErr (ByContentAlone S.rest F.FnOnce op) (here S.rest self.old) tag e)) }
    {
        let (found, _, outer) = match self.open() {
            Ok(found) => found,
            Err(error) => return Err(error),
        };
        if found != tag {
            return Err(self.refuse(ContentError::ExpectedTag(tag)));
        }
        let value = match self.run_alone(op) {
            Ok(value) => value,
            Err(error) => {
                self.fail();
                return Err(error);
            }
        };
        match self.close(outer) {
            Ok(()) => Ok(value),
            Err(error) => Err(error),
        }
    }

    /// Takes the next value where it has that tag; else nothing is read.
    pub fn take_opt_value_if<
        T: Drop,
        F: FnOnce(&mut Content<'_, S>) -> Result<T, DecodeError<S::Error>>,
    >(&mut self, tag: Tag, op: F) -> Result<Option<T>, DecodeError<S::Error>>
        requires callable { F.IsAlwaysCallable op }
        requires keeps { (p q : _) (r : _) → F.post op p r q → SameContent p.now q.now }
        ensures taken { TakesOpt (ByContentAlone S.rest F.FnOnce op) tag (here S.rest self.old)
            result (here S.rest self.new) }
        ensures frame { OnOk result (SameFrame self.old self.new) }
        ensures failed { OnErr result ((here S.rest self.new).failed ≡ true) }
        ensures memory { IfErr result (λ e. OnMemory e
            (TaggedErr (ByContentAlone S.rest F.FnOnce op) (here S.rest self.old) tag e)) }
    {
        match self.comes(tag) {
            Ok(true) => {}
            Ok(false) => return Ok(None),
            Err(error) => return Err(error),
        }
        match self.take_value_if(tag, op) {
            Ok(value) => Ok(Some(value)),
            Err(error) => Err(error),
        }
    }

    /// The next value, which is constructed, by a closure that is given its tag and reads its values, all
    /// of them.
    pub fn take_constructed<
        T: Drop,
        F: FnOnce(Tag, &mut Constructed<S>) -> Result<T, DecodeError<S::Error>>,
    >(&mut self, op: F) -> Result<T, DecodeError<S::Error>>
        requires callable { F.IsAlwaysCallable op }
        ensures taken { Takes (ByValues S.rest F.FnOnce op) (OfForm true) (here S.rest self.old)
            result (here S.rest self.new) }
        ensures frame { OnOk result (SameFrame self.old self.new) }
        ensures failed { OnErr result ((here S.rest self.new).failed ≡ true) }
        ensures memory { IfErr result
            (λ e. OnMemory e (AnyErr (ByValues S.rest F.FnOnce op) (here S.rest self.old) e)) }
    {
        let (tag, constructed, outer) = match self.open() {
            Ok(found) => found,
            Err(error) => return Err(error),
        };
        if !constructed {
            return Err(self.refuse(ContentError::from_static("a value of the other form")));
        }
        let value = match op(tag, self) {
            Ok(value) => value,
            Err(error) => {
                self.fail();
                return Err(error);
            }
        };
        match self.close(outer) {
            Ok(()) => Ok(value),
            Err(error) => Err(error),
        }
    }

    /// Takes the next constructed value, unless the content has ended.
    pub fn take_opt_constructed<
        T: Drop,
        F: FnOnce(Tag, &mut Constructed<S>) -> Result<T, DecodeError<S::Error>>,
    >(&mut self, op: F) -> Result<Option<T>, DecodeError<S::Error>>
        requires callable { F.IsAlwaysCallable op }
        ensures taken { TakesNext (ByValues S.rest F.FnOnce op) (OfForm true) (here S.rest self.old)
            result (here S.rest self.new) }
        ensures frame { OnOk result (SameFrame self.old self.new) }
        ensures failed { OnErr result ((here S.rest self.new).failed ≡ true) }
        ensures memory { IfErr result
            (λ e. OnMemory e (AnyErr (ByValues S.rest F.FnOnce op) (here S.rest self.old) e)) }
    {
        match self.ends() {
            Ok(false) => {}
            Ok(true) => return Ok(None),
            Err(error) => return Err(error),
        }
        match self.take_constructed(op) {
            Ok(value) => Ok(Some(value)),
            Err(error) => Err(error),
        }
    }

    /// The next value, which is primitive, by a closure that is given its tag and reads its octets, all of
    /// them.
    pub fn take_primitive<
        T: Drop,
        F: FnOnce(Tag, &mut Primitive<S>) -> Result<T, DecodeError<S::Error>>,
    >(&mut self, op: F) -> Result<T, DecodeError<S::Error>>
        requires callable { F.IsAlwaysCallable op }
        ensures taken { Takes (ByOctets S.rest F.FnOnce op) (OfForm false) (here S.rest self.old)
            result (here S.rest self.new) }
        ensures frame { OnOk result (SameFrame self.old self.new) }
        ensures failed { OnErr result ((here S.rest self.new).failed ≡ true) }
        ensures memory { IfErr result
            (λ e. OnMemory e (AnyErr (ByOctets S.rest F.FnOnce op) (here S.rest self.old) e)) }
    {
        let (tag, constructed, outer) = match self.open() {
            Ok(found) => found,
            Err(error) => return Err(error),
        };
        if constructed {
            return Err(self.refuse(ContentError::from_static("a value of the other form")));
        }
        let value = match op(tag, &mut self.octets) {
            Ok(value) => value,
            Err(error) => {
                self.fail();
                return Err(error);
            }
        };
        match self.close(outer) {
            Ok(()) => Ok(value),
            Err(error) => Err(error),
        }
    }

    /// Takes the next primitive value, unless the content has ended.
    pub fn take_opt_primitive<
        T: Drop,
        F: FnOnce(Tag, &mut Primitive<S>) -> Result<T, DecodeError<S::Error>>,
    >(&mut self, op: F) -> Result<Option<T>, DecodeError<S::Error>>
        requires callable { F.IsAlwaysCallable op }
        ensures taken { TakesNext (ByOctets S.rest F.FnOnce op) (OfForm false)
            (here S.rest self.old) result (here S.rest self.new) }
        ensures frame { OnOk result (SameFrame self.old self.new) }
        ensures failed { OnErr result ((here S.rest self.new).failed ≡ true) }
        ensures memory { IfErr result
            (λ e. OnMemory e (AnyErr (ByOctets S.rest F.FnOnce op) (here S.rest self.old) e)) }
    {
        match self.ends() {
            Ok(false) => {}
            Ok(true) => return Ok(None),
            Err(error) => return Err(error),
        }
        match self.take_primitive(op) {
            Ok(value) => Ok(Some(value)),
            Err(error) => Err(error),
        }
    }
}
