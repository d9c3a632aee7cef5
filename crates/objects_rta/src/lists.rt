//! The revocation lists that an object carries: any number, or none (RFC 5652 5.1).

ghost use Rattle.std.specs.Prelude.{◌≡◌, IfOk, IfSome, OnErr, Some, true};
ghost use Rattle.std.specs.Option.{option_map};
ghost use Rattle.objects_cms.specs.bcder_tree.Tags.{context};
ghost use Rattle.objects_cms.specs.bcder_content.Exact.{ReadsOptAs};
ghost use Rattle.objects_cms.specs.bcder_content.Captures.{rest_of};
ghost use Rattle.objects_cms.specs.bcder_content.Grammar.{Inside, Many};
ghost use Rattle.objects_cms.specs.bcder_content.Here.{here};
ghost use Rattle.objects_cms.specs.bcder_content.InMode.{ReadsFields};
ghost use Rattle.objects_cms.specs.certs_x509.Took.{TookOctets};
ghost use Rattle.objects_cms.specs.certs_extension.CrlText.{IsCrl};
ghost use Rattle.objects_rta.specs.Carried.{AnyOctets, AreValues, DecodesLists, ReadsWhole, SpellsAny, octets_of};

use bcder::Captured;
use certs_cert::decode::{Constructed, ContentError, Decode, DecodeError, Source};
use certs_cert::{Mode, Tag};
use certs_crl::Crl;
use std::alloc::Global;
use std::convert::Infallible;

// The octets of the values that are left of a content.
fn take_octets<S: Source>(
    alloc: Global,
    cons: &mut Constructed<S>,
) -> Result<Captured, DecodeError<S::Error>>
    ensures reads { ReadsFields octets_of AreValues
        (here S.rest cons.old) result (here S.rest cons.new) }
    ensures octets { IfOk result (λ c. TookOctets octets_of AnyOctets
        (here S.rest cons.old) c (here S.rest cons.new)) }
    ensures failed { OnErr result ((here S.rest cons.new).failed ≡ true) }
{
    match cons.capture_all(alloc) {
        Ok(octets) => Ok(octets),
        Err(error) => {
            cons.fail();
            Err(error)
        }
    }
}

/// The octets of the lists, if `[1]` is next.
pub(crate) fn take_opt_lists<S: Source>(
    alloc: Global,
    cons: &mut Constructed<S>,
) -> Result<Option<Captured>, DecodeError<S::Error>>
    ensures reads { ReadsOptAs octets_of (context 1)
        (Inside (context 1) (AreValues (here S.rest cons.old).mode))
        (here S.rest cons.old) result (here S.rest cons.new) }
    ensures octets { IfOk result (λ o. IfSome o (λ c. TookOctets octets_of SpellsAny
        (here S.rest cons.old) c (here S.rest cons.new))) }
    ensures failed { OnErr result ((here S.rest cons.new).failed ≡ true) }
{
    cons.take_opt_constructed_if(
        Tag::CTX_1,
        |cons|
            ensures reads { ReadsFields octets_of AreValues
                (here S.rest cons.old) result (here S.rest cons.new) }
            ensures octets { IfOk result (λ c. TookOctets octets_of AnyOctets
                (here S.rest cons.old) c (here S.rest cons.new)) }
        { take_octets(alloc, cons) },
    )
}

// The lists that are left of a content.
fn take_crls<S: Source>(
    alloc: Global,
    cons: &mut Constructed<S>,
) -> Result<Vec<Crl>, DecodeError<S::Error>>
    ensures { ReadsFields (λ v. v.items) (λ m. Many (IsCrl m))
        (here S.rest cons.old) result (here S.rest cons.new) }
{
    let mut crls = Vec::new(alloc);
    while let Some(crl) = Crl::take_opt_from(alloc, cons)? {
        crls.push(crl)?;
    }
    Ok(crls)
}

// The lists that are left of a content, and nothing after them.
fn take_whole<S: Source>(
    alloc: Global,
    cons: &mut Constructed<S>,
) -> Result<Vec<Crl>, DecodeError<S::Error>>
    ensures { ReadsWhole (λ v. v.items) (here S.rest cons.old) result (here S.rest cons.new) }
{
    let crls = take_crls(alloc, cons)?;
    match cons.skip_one(alloc) {
        Ok(None) => Ok(crls),
        Ok(Some(())) => Err((*cons).content_err(ContentError::from_static("another value"))),
        Err(error) => Err(error),
    }
}

// The lists in DER that are all of the octets.
fn decode_octets(alloc: Global, octets: &[u8]) -> Result<Vec<Crl>, DecodeError<Infallible>>
    ensures { DecodesLists (λ v. v.items) (Some octets.now) result }
{
    Mode::Der.decode(
        octets,
        |cons|
            ensures { ReadsWhole (λ v. v.items)
                (here rest_of cons.old) result (here rest_of cons.new) }
        { take_whole(alloc, cons) },
    )
}

/// The lists in DER that are all of the octets; none where there are no octets.
pub(crate) fn decode_lists(
    alloc: Global,
    octets: &Option<Captured>,
) -> Result<Vec<Crl>, DecodeError<Infallible>>
    ensures { DecodesLists (λ v. v.items) (option_map octets_of octets.now) result }
{
    match octets {
        Some(octets) => decode_octets(alloc, octets.as_slice()),
        None => Ok(Vec::new(alloc)),
    }
}
