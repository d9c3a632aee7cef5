//! The identifiers of the keys that sign an attestation.

ghost use Rattle.objects_cms.specs.bcder_tree.Strings.{octet_string_tag};
ghost use Rattle.objects_cms.specs.bcder_tree.Tags.{set_tag};
ghost use Rattle.objects_cms.specs.bcder_content.Exact.{ReadsAs, ReadsOptAs};
ghost use Rattle.objects_cms.specs.bcder_content.Grammar.{Inside};
ghost use Rattle.objects_cms.specs.bcder_content.Here.{here};
ghost use Rattle.objects_cms.specs.bcder_content.InMode.{ReadsFields};
ghost use Rattle.objects_cms.specs.bcder_content.Tagged.{ReadsTagged};
ghost use Rattle.objects_cms.specs.certs_basics.Basics.{IsKeyIdentifier};
ghost use Rattle.objects_rta.specs.Attestations.{AreSubjectKeys, IsSubjectKey};

use certs_cert::decode::{Constructed, DecodeError, Source};
use certs_cert::{KeyIdentifier, Tag};
use std::alloc::Global;

// The identifier that is next, if an OCTET STRING is next.
fn take_opt_key<S: Source>(
    alloc: Global,
    cons: &mut Constructed<S>,
) -> Result<Option<KeyIdentifier>, DecodeError<S::Error>>
    ensures { ReadsOptAs (λ v. v) octet_string_tag (IsSubjectKey (here S.rest cons.old).mode)
        (here S.rest cons.old) result (here S.rest cons.new) }
{
    cons.take_opt_value_if(
        Tag::OCTET_STRING,
        |content|
            ensures { ReadsTagged S.rest (λ v. v) IsKeyIdentifier content.old result content.new }
        { KeyIdentifier::from_content(alloc, content) },
    )
}

// The identifiers that are left of a content.
fn take_keys<S: Source>(
    alloc: Global,
    cons: &mut Constructed<S>,
) -> Result<Vec<KeyIdentifier>, DecodeError<S::Error>>
    ensures { ReadsFields (λ v. v.items) AreSubjectKeys
        (here S.rest cons.old) result (here S.rest cons.new) }
{
    let mut keys = Vec::new(alloc);
    while let Some(key) = take_opt_key(alloc, cons)? {
        keys.push(key)?;
    }
    Ok(keys)
}

/// The SET of identifiers that is next, in its order.
pub(crate) fn take_key_set<S: Source>(
    alloc: Global,
    cons: &mut Constructed<S>,
) -> Result<Vec<KeyIdentifier>, DecodeError<S::Error>>
    ensures { ReadsAs (λ v. v.items)
        (Inside set_tag (AreSubjectKeys (here S.rest cons.old).mode))
        (here S.rest cons.old) result (here S.rest cons.new) }
{
    cons.take_set(
        |cons|
            ensures { ReadsFields (λ v. v.items) AreSubjectKeys
                (here S.rest cons.old) result (here S.rest cons.new) }
        { take_keys(alloc, cons) },
    )
}
