//! Names that are passed over (RFC 5280 4.1.2.4): SEQUENCE OF SET OF SEQUENCE { OBJECT IDENTIFIER, ANY }.

ghost use Rattle.std.specs.Prelude.{◌≡◌, OnErr, true};
ghost use Rattle.certs_name.specs.bcder_tree.Tags.{sequence_tag, set_tag};
ghost use Rattle.certs_name.specs.bcder_content.Exact.{ReadsAs, ReadsOptAs};
ghost use Rattle.certs_name.specs.bcder_content.Grammar.{Any};
ghost use Rattle.certs_name.specs.bcder_content.Here.{here};
ghost use Rattle.certs_name.specs.bcder_content.InMode.{ReadsFields};
ghost use Rattle.certs_name.specs.AnyNames.{AreAnyAttributes, AreAnyRelativeNames, IsAnyAttribute, IsAnyAttributeBody, IsAnyName, IsAnyRelativeName, any_fields};

use certs_basics::Oid;
use certs_basics::decode::{Constructed, ContentError, DecodeError, Source};
use std::alloc::Global;

// Any value.
fn skip_value<S: Source>(
    alloc: Global,
    cons: &mut Constructed<S>,
) -> Result<(), DecodeError<S::Error>>
    ensures { ReadsAs (λ x. x) Any (here S.rest cons.old) result (here S.rest cons.new) }
{
    match cons.skip_one(alloc) {
        Ok(Some(())) => Ok(()),
        Ok(None) => Err((*cons).content_err(ContentError::from_static("missing value"))),
        Err(error) => Err(error),
    }
}

// The fields of an attribute.
fn skip_attribute_fields<S: Source>(
    alloc: Global,
    cons: &mut Constructed<S>,
) -> Result<(), DecodeError<S::Error>>
    ensures { ReadsFields any_fields IsAnyAttributeBody
        (here S.rest cons.old) result (here S.rest cons.new) }
{
    Oid::skip_in(cons)?;
    skip_value(alloc, cons)?;
    Ok(())
}

// The next attribute, if there is one.
fn skip_opt_attribute<S: Source>(
    alloc: Global,
    cons: &mut Constructed<S>,
) -> Result<Option<()>, DecodeError<S::Error>>
    ensures { ReadsOptAs any_fields sequence_tag IsAnyAttribute
        (here S.rest cons.old) result (here S.rest cons.new) }
{
    cons.take_opt_sequence(
        |cons|
            ensures { ReadsFields any_fields IsAnyAttributeBody
                (here S.rest cons.old) result (here S.rest cons.new) }
        { skip_attribute_fields(alloc, cons) },
    )
}

// All attributes of a relative name.
fn skip_attributes<S: Source>(
    alloc: Global,
    cons: &mut Constructed<S>,
) -> Result<(), DecodeError<S::Error>>
    ensures { ReadsFields (λ x. x) (λ m. AreAnyAttributes)
        (here S.rest cons.old) result (here S.rest cons.new) }
{
    'attributes: while let Some(()) = skip_opt_attribute(alloc, cons)? {}
    Ok(())
}

// The next relative name, if there is one.
fn skip_opt_relative_name<S: Source>(
    alloc: Global,
    cons: &mut Constructed<S>,
) -> Result<Option<()>, DecodeError<S::Error>>
    ensures { ReadsOptAs (λ x. x) set_tag IsAnyRelativeName
        (here S.rest cons.old) result (here S.rest cons.new) }
{
    cons.take_opt_set(
        |cons|
            ensures { ReadsFields (λ x. x) (λ m. AreAnyAttributes)
                (here S.rest cons.old) result (here S.rest cons.new) }
        { skip_attributes(alloc, cons) },
    )
}

// All relative names.
fn skip_relative_names<S: Source>(
    alloc: Global,
    cons: &mut Constructed<S>,
) -> Result<(), DecodeError<S::Error>>
    ensures { ReadsFields (λ x. x) (λ m. AreAnyRelativeNames)
        (here S.rest cons.old) result (here S.rest cons.new) }
{
    'names: while let Some(()) = skip_opt_relative_name(alloc, cons)? {}
    Ok(())
}

/// The next value, which is a name; any other is refused.
pub(crate) fn skip_name<S: Source>(
    alloc: Global,
    cons: &mut Constructed<S>,
) -> Result<(), DecodeError<S::Error>>
    ensures reads { ReadsAs (λ x. x) IsAnyName
        (here S.rest cons.old) result (here S.rest cons.new) }
    ensures failed { OnErr result ((here S.rest cons.new).failed ≡ true) }
{
    cons.take_sequence(
        |cons|
            ensures { ReadsFields (λ x. x) (λ m. AreAnyRelativeNames)
                (here S.rest cons.old) result (here S.rest cons.new) }
        { skip_relative_names(alloc, cons) },
    )
}
