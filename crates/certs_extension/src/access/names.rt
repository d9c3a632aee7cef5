//! General names that are URIs (RFC 5280 4.2.1.6).

ghost use Rattle.certs_extension.specs.bcder_tree.Strings.{IsIa5};
ghost use Rattle.certs_extension.specs.bcder_tree.Tags.{context};
ghost use Rattle.certs_extension.specs.bcder.Sets.{alone};
ghost use Rattle.certs_extension.specs.bcder_content.Exact.{ReadsAs, ReadsOptAs};
ghost use Rattle.certs_extension.specs.bcder_content.Here.{here};
ghost use Rattle.certs_extension.specs.bcder_content.InMode.{ReadsFields};
ghost use Rattle.certs_extension.specs.bcder_content.Words.{Gathers};
ghost use Rattle.certs_extension.specs.bcder.Restricted.{IsRestricted};
ghost use Rattle.certs_extension.specs.bcder_content.Tagged.{ReadsTagged};
ghost use Rattle.certs_extension.specs.Grammars.{HaveOneRsync, IsName};
ghost use Rattle.certs_extension.specs.Seen.{NameSays, Seen};

use certs_basics::decode::{Constructed, ContentError, DecodeError, Source};
use certs_basics::uri::Rsync;
use certs_basics::{Ia5String, Tag};
use std::alloc::Global;

// The next name, if there is one.
pub(crate) fn take_opt_name<S: Source>(
    alloc: Global,
    cons: &mut Constructed<S>,
) -> Result<Option<Ia5String>, DecodeError<S::Error>>
    ensures { ReadsOptAs (λ octets. octets) (context 6) (IsName (here S.rest cons.old).mode)
        (here S.rest cons.old) result (here S.rest cons.new) }
{
    cons.take_opt_value_if(
        Tag::CTX_6,
        |content|
            ensures { ReadsTagged S.rest (λ octets. octets) (IsRestricted IsIa5 alone)
                content.old result content.new }
        { Ia5String::from_content(alloc, content) },
    )
}

// The next value, which is a name.
pub(crate) fn take_name<S: Source>(
    alloc: Global,
    cons: &mut Constructed<S>,
) -> Result<Ia5String, DecodeError<S::Error>>
    ensures { ReadsAs (λ octets. octets) (IsName (here S.rest cons.old).mode)
        (here S.rest cons.old) result (here S.rest cons.new) }
{
    cons.take_value_if(
        Tag::CTX_6,
        |content|
            ensures { ReadsTagged S.rest (λ octets. octets) (IsRestricted IsIa5 alone)
                content.old result content.new }
        { Ia5String::from_content(alloc, content) },
    )
}

// The rsync URI that a name is, if it is one.
fn rsync_of(name: Ia5String) -> Option<Rsync>
    ensures { NameSays name result }
{
    match Rsync::from_bytes(name.into_bytes()) {
        Ok(uri) => Some(uri),
        Err(_) => None,
    }
}

// The rsync URI among all names of a content, if one is there; two are refused.
fn take_names<S: Source>(
    alloc: Global,
    cons: &mut Constructed<S>,
) -> Result<Option<Rsync>, DecodeError<S::Error>>
    ensures { ReadsFields (λ found. found) (λ m. Gathers (IsName m) Seen)
        (here S.rest cons.old) result (here S.rest cons.new) }
{
    let mut found = None;
    while let Some(name) = take_opt_name(alloc, cons)? {
        if let Some(uri) = rsync_of(name) {
            if found.is_some() {
                return Err(cons.content_err(ContentError::from_static("several rsync URIs")));
            }
            found = Some(uri);
        }
    }
    Ok(found)
}

// The one rsync URI among all names of a content.
pub(crate) fn take_one_rsync<S: Source>(
    alloc: Global,
    cons: &mut Constructed<S>,
) -> Result<Rsync, DecodeError<S::Error>>
    ensures { ReadsFields (λ uri. uri) HaveOneRsync (here S.rest cons.old) result
        (here S.rest cons.new) }
{
    let found = take_names(alloc, cons)?;
    match found {
        Some(uri) => Ok(uri),
        None => Err(cons.content_err(ContentError::from_static("no rsync URI"))),
    }
}
