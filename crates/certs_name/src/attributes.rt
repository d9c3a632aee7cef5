//! Attributes of names that inspection reads: a commonName or a serialNumber, as a primitive PrintableString or, where
//! not strict, a primitive UTF8String (RFC 6487 4.4, 4.5).

ghost use Rattle.std.specs.Prelude.{◌≢◌, IfErr};
ghost use Rattle.certs_name.specs.bcder_tree.Tags.{oid_tag, sequence_tag, utf8_string_tag};
ghost use Rattle.certs_name.specs.bcder_source.declared.error.DecodeError.TheVariants.{Memory};
ghost use Rattle.certs_name.specs.bcder_content.Exact.{ReadsAs, ReadsOptAs};
ghost use Rattle.certs_name.specs.bcder_content.Grammar.{OctetsOf, OneOf};
ghost use Rattle.certs_name.specs.bcder_content.Here.{here};
ghost use Rattle.certs_name.specs.bcder_content.InMode.{ReadsFields};
ghost use Rattle.certs_name.specs.Inspected.{IsKind, IsPrintableValue, IsSeenAttribute, IsSeenBody, IsTextValue, IsUnicodeValue, seen_fields};

use crate::seen::Seen;
use crate::whole::{skip_text, take_told};
use certs_basics::Tag;
use certs_basics::decode::{Constructed, DecodeError, Source};
use certs_basics::string::{PrintableCharSet, Utf8CharSet};

// Which attribute the identifier is that is next.
fn take_kind<S: Source>(cons: &mut Constructed<S>) -> Result<Seen, DecodeError<S::Error>>
    ensures reads { ReadsAs (λ s. s) (OctetsOf oid_tag IsKind)
        (here S.rest cons.old) result (here S.rest cons.new) }
    ensures no_memory { IfErr result (λ e. e ≢ Memory) }
{
    cons.take_primitive_if(Tag::OID, |prim| take_told::<Seen, S>(prim))
}

// A primitive PrintableString.
fn skip_printable<S: Source>(cons: &mut Constructed<S>) -> Result<(), DecodeError<S::Error>>
    ensures reads { ReadsAs (λ x. x) IsPrintableValue
        (here S.rest cons.old) result (here S.rest cons.new) }
    ensures no_memory { IfErr result (λ e. e ≢ Memory) }
{
    cons.take_primitive_if(Tag::PRINTABLE_STRING, |prim| {
        skip_text::<PrintableCharSet, S>(prim)
    })
}

// A primitive UTF8String, if one is next.
fn skip_opt_unicode<S: Source>(
    cons: &mut Constructed<S>,
) -> Result<Option<()>, DecodeError<S::Error>>
    ensures reads { ReadsOptAs (λ x. x) utf8_string_tag IsUnicodeValue
        (here S.rest cons.old) result (here S.rest cons.new) }
    ensures no_memory { IfErr result (λ e. e ≢ Memory) }
{
    cons.take_opt_primitive_if(Tag::UTF8_STRING, |prim| {
        skip_text::<Utf8CharSet, S>(prim)
    })
}

// A primitive UTF8String or PrintableString.
fn skip_either<S: Source>(cons: &mut Constructed<S>) -> Result<(), DecodeError<S::Error>>
    ensures reads { ReadsAs (λ x. x) (OneOf IsUnicodeValue IsPrintableValue)
        (here S.rest cons.old) result (here S.rest cons.new) }
    ensures no_memory { IfErr result (λ e. e ≢ Memory) }
{
    let unicode = skip_opt_unicode(cons)?;
    match unicode {
        Some(()) => Ok(()),
        None => skip_printable(cons),
    }
}

// The value of an attribute.
fn skip_value<S: Source>(
    cons: &mut Constructed<S>,
    strict: bool,
) -> Result<(), DecodeError<S::Error>>
    ensures reads { ReadsAs (λ x. x) (IsTextValue strict)
        (here S.rest cons.old) result (here S.rest cons.new) }
    ensures no_memory { IfErr result (λ e. e ≢ Memory) }
{
    if strict {
        return skip_printable(cons);
    }
    skip_either(cons)
}

// The fields of an attribute.
fn take_attribute_fields<S: Source>(
    cons: &mut Constructed<S>,
    strict: bool,
) -> Result<Seen, DecodeError<S::Error>>
    ensures reads { ReadsFields seen_fields (IsSeenBody strict)
        (here S.rest cons.old) result (here S.rest cons.new) }
    ensures no_memory { IfErr result (λ e. e ≢ Memory) }
{
    let kind = take_kind(cons)?;
    skip_value(cons, strict)?;
    Ok(kind)
}

/// Which attribute is next, if there is one.
pub(crate) fn take_opt_attribute<S: Source>(
    cons: &mut Constructed<S>,
    strict: bool,
) -> Result<Option<Seen>, DecodeError<S::Error>>
    ensures reads { ReadsOptAs (λ s. s) sequence_tag (IsSeenAttribute strict)
        (here S.rest cons.old) result (here S.rest cons.new) }
    ensures no_memory { IfErr result (λ e. e ≢ Memory) }
{
    cons.take_opt_sequence(
        |cons|
            ensures reads { ReadsFields seen_fields (IsSeenBody strict)
                (here S.rest cons.old) result (here S.rest cons.new) }
            ensures no_memory { IfErr result (λ e. e ≢ Memory) }
        { take_attribute_fields(cons, strict) },
    )
}
