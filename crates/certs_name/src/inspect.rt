//! What inspection asks of names: one commonName, at most one serialNumber, and nothing else (RFC 6487 4.4, 4.5).

ghost use Rattle.std.specs.Prelude.{◌≢◌, ◌↔◌, false, IfErr, IsOk, IsTrue};
ghost use Rattle.certs_name.specs.bcder_tree.Tags.{set_tag};
ghost use Rattle.certs_name.specs.bcder_source.declared.error.DecodeError.TheVariants.{Memory};
ghost use Rattle.certs_name.specs.bcder_content.Captures.{rest_of};
ghost use Rattle.certs_name.specs.bcder_content.Exact.{DecodesAs, ReadsAs, ReadsOptAs};
ghost use Rattle.certs_name.specs.bcder_content.Here.{here};
ghost use Rattle.certs_name.specs.bcder_content.InMode.{ReadsFields};
ghost use Rattle.certs_basics.specs.Names.{IsRpkiName};
ghost use Rattle.certs_name.specs.Inspected.{AreSeenAttributes, AreSeenRelativeNames, IsSeenName, IsSeenRelativeName};

use crate::attributes::take_opt_attribute;
use crate::error::InvalidName;
use crate::name::Name;
use crate::seen::Seen;
use certs_basics::Mode;
use certs_basics::decode::{Constructed, ContentError, Decode, DecodeError, Source};
use std::convert::Infallible;

// The attributes of a relative name, each once at most.
fn take_attributes<S: Source>(
    cons: &mut Constructed<S>,
    strict: bool,
) -> Result<Seen, DecodeError<S::Error>>
    ensures reads { ReadsFields (λ s. s) (λ m. AreSeenAttributes strict)
        (here S.rest cons.old) result (here S.rest cons.new) }
    ensures no_memory { IfErr result (λ e. e ≢ Memory) }
{
    let mut seen = Seen::none();
    'attributes: while let Some(attribute) = take_opt_attribute(cons, strict)? {
        let Some(both) = seen.and(attribute) else {
            return Err((*cons).content_err(ContentError::from_static("duplicate attribute")));
        };
        seen = both;
    }
    Ok(seen)
}

// The next relative name, if there is one.
fn take_opt_relative_name<S: Source>(
    cons: &mut Constructed<S>,
    strict: bool,
) -> Result<Option<Seen>, DecodeError<S::Error>>
    ensures reads { ReadsOptAs (λ s. s) set_tag (IsSeenRelativeName strict)
        (here S.rest cons.old) result (here S.rest cons.new) }
    ensures no_memory { IfErr result (λ e. e ≢ Memory) }
{
    cons.take_opt_set(
        |cons|
            ensures reads { ReadsFields (λ s. s) (λ m. AreSeenAttributes strict)
                (here S.rest cons.old) result (here S.rest cons.new) }
            ensures no_memory { IfErr result (λ e. e ≢ Memory) }
        { take_attributes(cons, strict) },
    )
}

// The attributes of all relative names, each once at most.
fn take_relative_names<S: Source>(
    cons: &mut Constructed<S>,
    strict: bool,
) -> Result<Seen, DecodeError<S::Error>>
    ensures reads { ReadsFields (λ s. s) (λ m. AreSeenRelativeNames strict)
        (here S.rest cons.old) result (here S.rest cons.new) }
    ensures no_memory { IfErr result (λ e. e ≢ Memory) }
{
    let mut seen = Seen::none();
    'names: while let Some(more) = take_opt_relative_name(cons, strict)? {
        let Some(both) = seen.and(more) else {
            return Err((*cons).content_err(ContentError::from_static("duplicate attribute")));
        };
        seen = both;
    }
    Ok(seen)
}

// The attributes of a name, each once at most.
fn take_name<S: Source>(
    cons: &mut Constructed<S>,
    strict: bool,
) -> Result<Seen, DecodeError<S::Error>>
    ensures reads { ReadsAs (λ s. s) (IsSeenName strict)
        (here S.rest cons.old) result (here S.rest cons.new) }
    ensures no_memory { IfErr result (λ e. e ≢ Memory) }
{
    cons.take_sequence(
        |cons|
            ensures reads { ReadsFields (λ s. s) (λ m. AreSeenRelativeNames strict)
                (here S.rest cons.old) result (here S.rest cons.new) }
            ensures no_memory { IfErr result (λ e. e ≢ Memory) }
        { take_relative_names(cons, strict) },
    )
}

// The attributes of the name that octets begin with.
fn attributes_of(octets: &[u8], mode: Mode, strict: bool) -> Result<Seen, DecodeError<Infallible>>
    ensures decodes { DecodesAs (λ s. s) mode (IsSeenName strict) octets.now result }
    ensures no_memory { IfErr result (λ e. e ≢ Memory) }
{
    mode.decode(
        octets,
        |cons|
            ensures reads { ReadsAs (λ s. s) (IsSeenName strict)
                (here rest_of cons.old) result (here rest_of cons.new) }
            ensures no_memory { IfErr result (λ e. e ≢ Memory) }
        { take_name(cons, strict) },
    )
}

/// Inspection. It takes no memory.
impl Name {
    // Whether the attributes are one commonName and at most one serialNumber.
    fn is_rpki(&self, strict: bool) -> bool
        ensures { IsTrue result ↔ IsRpkiName strict self.now }
    {
        match attributes_of(self.as_slice(), self.mode(), strict) {
            Ok(seen) => seen.common_name,
            Err(DecodeError::Content(_, _)) => false,
            Err(DecodeError::Source(never)) => match never {},
            Err(DecodeError::Memory) => false,
        }
    }

    /// Tests the name as RPKI certificates have it (RFC 6487 4.4, 4.5): one commonName, at most one serialNumber, in
    /// any order, and nothing else, each a primitive PrintableString or, where not strict, a primitive UTF8String.
    pub fn inspect_rpki(&self, strict: bool) -> Result<(), InvalidName>
        ensures { IsOk result ↔ IsRpkiName strict self.now }
    {
        if self.is_rpki(strict) {
            return Ok(());
        }
        Err(InvalidName)
    }

    /// Tests the subject of a router's certificate (RFC 8209 3.1.1): as in other RPKI certificates, and each attribute
    /// may be a primitive UTF8String, whether strict or not.
    pub fn inspect_router(&self, _strict: bool) -> Result<(), InvalidName>
        ensures { IsOk result ↔ IsRpkiName false self.now }
    {
        self.inspect_rpki(false)
    }
}
