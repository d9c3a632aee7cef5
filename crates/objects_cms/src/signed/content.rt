//! The content of a signed object and its type (RFC 5652 5.2, RFC 6488 2.1.3).

ghost use Rattle.std.specs.Prelude.{◌≡◌, OnErr, true};
ghost use Rattle.objects_cms.specs.bcder_tree.Tags.{context};
ghost use Rattle.objects_cms.specs.bcder_content.Exact.{ReadsAs};
ghost use Rattle.objects_cms.specs.bcder_content.Grammar.{Inside};
ghost use Rattle.objects_cms.specs.bcder_content.Here.{here};
ghost use Rattle.objects_cms.specs.bcder_content.InMode.{ReadsFields};
ghost use Rattle.objects_cms.specs.objects_payload.ObjectText.{IsContentInfo};
ghost use Rattle.objects_cms.specs.Frame.{AreTyped, IsString, typed_fields};
ghost use Rattle.objects_cms.specs.Said.{alone};

use certs_cert::decode::{Constructed, DecodeError, Source};
use certs_cert::{OctetString, Oid, Tag};
use std::alloc::Global;

/// The content's type, and the content.
pub type Typed = (Oid, OctetString);

// The string that is all of its content.
fn take_string<S: Source>(
    alloc: Global,
    cons: &mut Constructed<S>,
) -> Result<OctetString, DecodeError<S::Error>>
    ensures { ReadsFields alone IsString (here S.rest cons.old) result (here S.rest cons.new) }
{
    let octets = OctetString::take_from(alloc, cons)?;
    Ok(octets)
}

// The content: `[0] EXPLICIT OCTET STRING` (RFC 5652 5.2).
fn take_explicit<S: Source>(
    alloc: Global,
    cons: &mut Constructed<S>,
) -> Result<OctetString, DecodeError<S::Error>>
    ensures { ReadsAs alone (Inside (context 0) (IsString (here S.rest cons.old).mode))
        (here S.rest cons.old) result (here S.rest cons.new) }
{
    cons.take_constructed_if(
        Tag::CTX_0,
        |cons|
            ensures { ReadsFields alone IsString
                (here S.rest cons.old) result (here S.rest cons.new) }
        { take_string(alloc, cons) },
    )
}

// The content's type and the content, up to the end of their content.
fn take_fields<S: Source>(
    alloc: Global,
    cons: &mut Constructed<S>,
) -> Result<Typed, DecodeError<S::Error>>
    ensures { ReadsFields typed_fields AreTyped
        (here S.rest cons.old) result (here S.rest cons.new) }
{
    let oid = Oid::take_from(alloc, cons)?;
    let octets = take_explicit(alloc, cons)?;
    Ok((oid, octets))
}

/// The content that is next, and its type: `EncapsulatedContentInfo` (RFC 5652 5.2).
pub fn take_content_info<S: Source>(
    alloc: Global,
    cons: &mut Constructed<S>,
) -> Result<Typed, DecodeError<S::Error>>
    ensures reads { ReadsAs typed_fields (IsContentInfo (here S.rest cons.old).mode)
        (here S.rest cons.old) result (here S.rest cons.new) }
    ensures failed { OnErr result ((here S.rest cons.new).failed ≡ true) }
{
    cons.take_sequence(
        |cons|
            ensures { ReadsFields typed_fields AreTyped
                (here S.rest cons.old) result (here S.rest cons.new) }
        { take_fields(alloc, cons) },
    )
}
