//! The two extensions of a revocation list (RFC 5280 5.2, RFC 6487 5).

ghost use Rattle.std.specs.Prelude.{◌≡◌, ◌↔◌, [], ◌∷◌, IfErr, IsTrue};
ghost use Rattle.certs_crl.specs.bcder_tree.declared.mode.Mode.TheVariants.{Der};
ghost use Rattle.certs_crl.specs.bcder_tree.Tags.{context, sequence_tag};
ghost use Rattle.certs_crl.specs.bcder_content.Captures.{rest_of};
ghost use Rattle.certs_crl.specs.bcder_content.Exact.{DecodesAs, ReadsAs};
ghost use Rattle.certs_crl.specs.bcder_content.Grammar.{Inside};
ghost use Rattle.certs_crl.specs.bcder_content.Here.{here};
ghost use Rattle.certs_crl.specs.bcder_content.InMode.{ReadsFields};
ghost use Rattle.certs_crl.specs.certs_basics.Basics.{IsSerial};
ghost use Rattle.certs_crl.specs.certs_basics.Identifiers as id;
ghost use Rattle.certs_crl.specs.Invalid.{IsMadeOrFixed, TellsInvalid, TellsUnknown};
ghost use Rattle.certs_crl.specs.Reading.{IsListExtension, IsNoMore, IsOfList, IsPair, IsPaired, ReadsBoth, ReadsFronts, alone, pair_fields};
ghost use Rattle.certs_crl.specs.certs_extension.Raw.{extension_value};
ghost use Rattle.certs_x509.specs.certs_extension.Extensions.{IsAuthority};

use crate::invalid::InvalidExtension;
use bcder::decode::{Constructed, ContentError, Decode, DecodeError, Pos, Source};
use bcder::{Mode, Tag};
use certs_cert::{Extension, take_authority_key_identifier};
use certs_name::Serial;
use certs_name::oid::{CE_AUTHORITY_KEY_IDENTIFIER, CE_CRL_NUMBER};
use certs_x509::signed::KeyIdentifier;
use std::alloc::{AllocError, Global};
use std::convert::Infallible;

// The two extensions, in the order in which they stand.
pub(crate) type Pair = (Extension, Extension);

// Whether the extension is one of the two of a list.
fn is_known(extension: &Extension) -> bool
    ensures { IsTrue result ↔ IsOfList (extension_value extension.now) }
{
    extension.kind.equals(&CE_AUTHORITY_KEY_IDENTIFIER) || extension.kind.equals(&CE_CRL_NUMBER)
}

// The cause that was made, or a fixed text where there was no memory for it.
fn made_or_fixed(made: Result<ContentError, AllocError>) -> ContentError
    ensures { IsMadeOrFixed made result }
{
    match made {
        Ok(error) => error,
        Err(_) => ContentError::from_static("invalid extension"),
    }
}

// The refusal of an extension that a list doesn't have, which names its identifier, where there is memory for that.
fn unknown<S: Source>(
    alloc: Global,
    cons: &Constructed<S>,
    extension: Extension,
) -> DecodeError<S::Error>
    ensures { TellsInvalid extension.kind.0 result }
{
    let Extension {
        kind,
        critical: _critical,
        octets: _octets,
    } = extension;
    let made = InvalidExtension::new(kind).to_content_error(alloc);
    cons.content_err(made_or_fixed(made))
}

// The next extension, which has to be there, and to be one of the two of a list; another is told by its identifier.
fn take_extension<S: Source>(
    alloc: Global,
    cons: &mut Constructed<S>,
) -> Result<Extension, DecodeError<S::Error>>
    ensures reads { ReadsAs extension_value (IsListExtension (here S.rest cons.old).mode)
        (here S.rest cons.old) result (here S.rest cons.new) }
    ensures told { IfErr result (TellsUnknown (here S.rest cons.old)) }
{
    let extension = match Extension::take_opt_from(alloc, cons) {
        Ok(Some(extension)) => extension,
        Ok(None) => {
            return Err((*cons).content_err(ContentError::from_static("missing extension")));
        }
        Err(error) => return Err(error),
    };
    if is_known(&extension) {
        return Ok(extension);
    }
    Err(unknown(alloc, cons, extension))
}

// No third extension; one that a list doesn't have is told by its identifier.
fn take_no_more<S: Source>(
    alloc: Global,
    cons: &mut Constructed<S>,
) -> Result<(), DecodeError<S::Error>>
    ensures reads { ReadsFields (λ x. x) IsNoMore
        (here S.rest cons.old) result (here S.rest cons.new) }
    ensures told { IfErr result (TellsUnknown (here S.rest cons.old)) }
{
    let third = match Extension::take_opt_from(alloc, cons) {
        Ok(Some(extension)) => extension,
        Ok(None) => return Ok(()),
        Err(error) => return Err(error),
    };
    if is_known(&third) {
        return Err((*cons).content_err(ContentError::from_static("a third extension")));
    }
    Err(unknown(alloc, cons, third))
}

// Two extensions, up to the end of their content.
fn take_pair<S: Source>(
    alloc: Global,
    cons: &mut Constructed<S>,
) -> Result<Pair, DecodeError<S::Error>>
    ensures { ReadsFields pair_fields IsPair (here S.rest cons.old) result (here S.rest cons.new) }
{
    let first = take_extension(alloc, cons)?;
    let second = take_extension(alloc, cons)?;
    take_no_more(alloc, cons)?;
    Ok((first, second))
}

// A SEQUENCE of two extensions.
fn take_sequence<S: Source>(
    alloc: Global,
    cons: &mut Constructed<S>,
) -> Result<Pair, DecodeError<S::Error>>
    ensures { ReadsAs pair_fields (Inside sequence_tag (IsPair (here S.rest cons.old).mode))
        (here S.rest cons.old) result (here S.rest cons.new) }
{
    cons.take_sequence(
        |cons|
            ensures { ReadsFields pair_fields IsPair
                (here S.rest cons.old) result (here S.rest cons.new) }
        { take_pair(alloc, cons) },
    )
}

// The SEQUENCE alone.
fn take_only<S: Source>(
    alloc: Global,
    cons: &mut Constructed<S>,
) -> Result<Pair, DecodeError<S::Error>>
    ensures { ReadsFields (λ x. alone (pair_fields x)) IsPaired
        (here S.rest cons.old) result (here S.rest cons.new) }
{
    let pair = take_sequence(alloc, cons)?;
    Ok(pair)
}

/// Two extensions: `[0] EXPLICIT SEQUENCE OF Extension` of just two (RFC 5280 5.1, RFC 6487 5).
pub(crate) fn take_extensions<S: Source>(
    alloc: Global,
    cons: &mut Constructed<S>,
) -> Result<Pair, DecodeError<S::Error>>
    ensures { ReadsAs (λ x. alone (pair_fields x))
        (Inside (context 0) (IsPaired (here S.rest cons.old).mode))
        (here S.rest cons.old) result (here S.rest cons.new) }
{
    cons.take_constructed_if(
        Tag::CTX_0,
        |cons|
            ensures { ReadsFields (λ x. alone (pair_fields x)) IsPaired
                (here S.rest cons.old) result (here S.rest cons.new) }
        { take_only(alloc, cons) },
    )
}

// The identifier of a key, read of the octets that it begins.
fn key_of(alloc: Global, octets: &[u8]) -> Result<KeyIdentifier, DecodeError<Infallible>>
    ensures { DecodesAs (λ v. v) Der (IsAuthority Der) octets.now result }
{
    Mode::Der.decode(
        octets,
        |cons|
            ensures { ReadsAs (λ v. v) (IsAuthority (here rest_of cons.old).mode)
                (here rest_of cons.old) result (here rest_of cons.new) }
        { take_authority_key_identifier(alloc, cons) },
    )
}

// A number, read of the octets that it begins.
fn number_of(octets: &[u8]) -> Result<Serial, DecodeError<Infallible>>
    ensures { DecodesAs (λ v. v) Der IsSerial octets.now result }
{
    Mode::Der.decode(
        octets,
        |cons|
            ensures { ReadsAs (λ v. v) IsSerial
                (here rest_of cons.old) result (here rest_of cons.new) }
        { Serial::take_from(cons) },
    )
}

// The values of an authority key identifier and of a number.
fn values_of(
    alloc: Global,
    key: &Extension,
    number: &Extension,
) -> Result<(KeyIdentifier, Serial), DecodeError<Infallible>>
    ensures { ReadsFronts key.now.octets number.now.octets result }
{
    let identifier = key_of(alloc, key.value())?;
    let serial = number_of(number.value())?;
    Ok((identifier, serial))
}

// Whether these are an authority key identifier and a number.
fn are_key_and_number(key: &Extension, number: &Extension) -> bool
    ensures { IsTrue result ↔ ((key.now.kind.0 ≡ id.authority_key_identifier)
        × (number.now.kind.0 ≡ id.crl_number)) }
{
    key.kind.equals(&CE_AUTHORITY_KEY_IDENTIFIER) && number.kind.equals(&CE_CRL_NUMBER)
}

/// What two extensions say in either order, critical or not: the identifier of the issuer's key and the list's number
/// (RFC 6487 5). One of them twice is refused.
pub(crate) fn said_by(
    alloc: Global,
    pair: &Pair,
) -> Result<(KeyIdentifier, Serial), DecodeError<Infallible>>
    ensures { ReadsBoth (extension_value pair.now.0 ∷ extension_value pair.now.1 ∷ []) result }
{
    let first = &pair.0;
    let second = &pair.1;
    let in_order = are_key_and_number(first, second);
    if in_order {
        return values_of(alloc, first, second);
    }
    let swapped = are_key_and_number(second, first);
    if swapped {
        return values_of(alloc, second, first);
    }
    Err(DecodeError::content(
        ContentError::from_static("an extension that occurs twice"),
        Pos::from(0),
    ))
}
