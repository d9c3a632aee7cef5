//! Numbers and NULL of contents of either form: for values with implicit tags.
ghost use Rattle.std.specs.Prelude.{◌≡◌, ◌≢◌, ◌^◌, false, true, IfErr, OnErr, OnOk};
ghost use Rattle.bcder_content.specs.bcder_source.declared.error.DecodeError.TheVariants.{Content as content_error, Memory};
ghost use Rattle.bcder_primitive.specs.Values.{IsNull, IsUnsigned, IsValue};
ghost use Rattle.bcder_content.specs.Either.{SameContent, left_of, form_in};
ghost use Rattle.bcder_content.specs.Grammar.{OctetsOf};
ghost use Rattle.bcder_content.specs.Here.{start_of};
ghost use Rattle.bcder_content.specs.Tagged.{ReadsTagged};

use crate::bcder_source::{ContentError, DecodeError, Source};
use crate::content::Content;

/// Simple values by their content alone, whatever their tag: for implicit tags (X.690 8.14). A constructed
/// value is none of them. A read that is refused leaves the content failed.
impl<'a, S: Source> Content<'a, S> {
    /// The refusal of the content, from its beginning.
    pub fn content_err(&self, error: ContentError) -> DecodeError<S::Error>
        ensures { result ≡ content_error error (start_of self.now.values.now) }
    {
        self.values.content_err(error)
    }

    // Refuses a constructed value, where octets are wanted; the content is failed from now on.
    fn want_octets(&mut self) -> Result<(), DecodeError<S::Error>>
        ensures same { OnOk result (self.new ≡ self.old) }
        ensures primitive { OnOk result (form_in self.old ≡ false) }
        ensures kept { SameContent self.old self.new }
        ensures constructed { OnErr result (form_in self.old ≡ true) }
        ensures refused { IfErr result (λ e. (error pos : _) × (e ≡ content_error error pos)) }
        ensures failed { OnErr result ((left_of S.rest self.new).failed ≡ true) }
    {
        if self.values.constructed {
            let error = ContentError::from_static("expected a primitive value");
            return Err(self.values.refuse(error));
        }
        Ok(())
    }

    /// The number of an INTEGER (X.690 8.3) that fits a `u8`; any other is refused, and none is cut.
    pub fn to_u8(&mut self) -> Result<u8, DecodeError<S::Error>>
        ensures reads { ReadsTagged S.rest (λ n. n) (λ _ tag. OctetsOf tag (IsUnsigned (2 ^ 8)))
            self.old result self.new }
        ensures failed { OnErr result ((left_of S.rest self.new).failed ≡ true) }
        ensures no_memory { IfErr result (λ e. e ≢ Memory) }
    {
        match self.want_octets() {
            Ok(()) => self.values.octets.to_u8(),
            Err(error) => Err(error),
        }
    }

    /// The number of an INTEGER (X.690 8.3) that fits a `u16`; any other is refused, and none is cut.
    pub fn to_u16(&mut self) -> Result<u16, DecodeError<S::Error>>
        ensures reads { ReadsTagged S.rest (λ n. n) (λ _ tag. OctetsOf tag (IsUnsigned (2 ^ 16)))
            self.old result self.new }
        ensures failed { OnErr result ((left_of S.rest self.new).failed ≡ true) }
        ensures no_memory { IfErr result (λ e. e ≢ Memory) }
    {
        match self.want_octets() {
            Ok(()) => self.values.octets.to_u16(),
            Err(error) => Err(error),
        }
    }

    /// The number of an INTEGER (X.690 8.3) that fits a `u32`; any other is refused, and none is cut.
    pub fn to_u32(&mut self) -> Result<u32, DecodeError<S::Error>>
        ensures reads { ReadsTagged S.rest (λ n. n) (λ _ tag. OctetsOf tag (IsUnsigned (2 ^ 32)))
            self.old result self.new }
        ensures failed { OnErr result ((left_of S.rest self.new).failed ≡ true) }
        ensures no_memory { IfErr result (λ e. e ≢ Memory) }
    {
        match self.want_octets() {
            Ok(()) => self.values.octets.to_u32(),
            Err(error) => Err(error),
        }
    }

    /// The number of an INTEGER (X.690 8.3) that fits a `u64`; any other is refused, and none is cut.
    pub fn to_u64(&mut self) -> Result<u64, DecodeError<S::Error>>
        ensures reads { ReadsTagged S.rest (λ n. n) (λ _ tag. OctetsOf tag (IsUnsigned (2 ^ 64)))
            self.old result self.new }
        ensures failed { OnErr result ((left_of S.rest self.new).failed ≡ true) }
        ensures no_memory { IfErr result (λ e. e ≢ Memory) }
    {
        match self.want_octets() {
            Ok(()) => self.values.octets.to_u64(),
            Err(error) => Err(error),
        }
    }

    /// Reads a NULL (X.690 8.8): there is no octet.
    pub fn to_null(&mut self) -> Result<(), DecodeError<S::Error>>
        ensures reads { ReadsTagged S.rest (λ x. x) (λ _ tag. OctetsOf tag IsNull) self.old result
            self.new }
        ensures failed { OnErr result ((left_of S.rest self.new).failed ≡ true) }
        ensures no_memory { IfErr result (λ e. e ≢ Memory) }
    {
        match self.want_octets() {
            Ok(()) => self.values.octets.to_null(),
            Err(error) => Err(error),
        }
    }

    /// Reads an INTEGER (X.690 8.3) of that number; any other is refused.
    pub fn skip_u8_if(&mut self, expected: u8) -> Result<(), DecodeError<S::Error>>
        ensures reads { ReadsTagged S.rest (λ x. x)
            (λ _ tag. OctetsOf tag (IsValue (IsUnsigned (2 ^ 8)) expected)) self.old result
            self.new }
        ensures failed { OnErr result ((left_of S.rest self.new).failed ≡ true) }
        ensures no_memory { IfErr result (λ e. e ≢ Memory) }
    {
        match self.want_octets() {
            Ok(()) => self.values.octets.skip_u8_if(expected),
            Err(error) => Err(error),
        }
    }
}
