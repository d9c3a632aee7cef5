//! The signers of an object: one or more (RFC 5652 5.1).

ghost use Rattle.std.specs.Prelude.{◌≡◌, IfOk, IfSome, OnErr, map, true};
ghost use Rattle.objects_cms.specs.bcder_tree.Tags.{sequence_tag, set_tag};
ghost use Rattle.objects_cms.specs.bcder_content.Exact.{ReadsAs, ReadsOptAs};
ghost use Rattle.objects_cms.specs.bcder_content.Grammar.{Inside};
ghost use Rattle.objects_cms.specs.bcder_content.Here.{here};
ghost use Rattle.objects_cms.specs.bcder_content.InMode.{ReadsFields};
ghost use Rattle.objects_cms.specs.certs_x509.Took.{TookOctets};
ghost use Rattle.objects_cms.specs.objects_payload.ObjectText.{SpellsSigner};
ghost use Rattle.objects_cms.specs.Signer.{AreSigner, AreSignerOctets, IsSigner, signer_fields};
ghost use Rattle.objects_rta.specs.MultiFrame.{AnySignerOctets, AreAnySigners, AreSigners, SignerOctets};
ghost use Rattle.objects_rta.specs.MultiText.{SpellsSigners};

use certs_cert::decode::{Constructed, ContentError, DecodeError, Source};
use objects_cms::signed::SignerInfo;
use std::alloc::Global;

/// The signer that is next, if a SEQUENCE is next: by values in each mode, and by the very octets that stood there
/// (RFC 5652 5.3); one that is no signer is refused.
pub fn take_opt_signer<S: Source>(
    alloc: Global,
    cons: &mut Constructed<S>,
) -> Result<Option<SignerInfo>, DecodeError<S::Error>>
    ensures reads { ReadsOptAs signer_fields sequence_tag (IsSigner (here S.rest cons.old).mode)
        (here S.rest cons.old) result (here S.rest cons.new) }
    ensures octets { IfOk result (λ o. IfSome o (λ s. TookOctets signer_fields SpellsSigner
        (here S.rest cons.old) s (here S.rest cons.new))) }
    ensures failed { OnErr result ((here S.rest cons.new).failed ≡ true) }
{
    cons.take_opt_sequence(
        |cons|
            ensures reads { ReadsFields signer_fields AreSigner
                (here S.rest cons.old) result (here S.rest cons.new) }
            ensures octets { IfOk result (λ s. TookOctets signer_fields AreSignerOctets
                (here S.rest cons.old) s (here S.rest cons.new)) }
        { SignerInfo::from_constructed(alloc, cons) },
    )
}

// The signers that are left of a content.
fn take_any<S: Source>(
    alloc: Global,
    cons: &mut Constructed<S>,
) -> Result<Vec<SignerInfo>, DecodeError<S::Error>>
    ensures reads { ReadsFields (λ v. map signer_fields v.items) AreAnySigners
        (here S.rest cons.old) result (here S.rest cons.new) }
    ensures octets { IfOk result (λ v. TookOctets (λ v. map signer_fields v.items)
        AnySignerOctets (here S.rest cons.old) v (here S.rest cons.new)) }
{
    let mut signers = Vec::new(alloc);
    while let Some(signer) = take_opt_signer(alloc, cons)? {
        signers.push(signer)?;
    }
    Ok(signers)
}

// The signers that are left of a content, which are some.
fn take_some<S: Source>(
    alloc: Global,
    cons: &mut Constructed<S>,
) -> Result<Vec<SignerInfo>, DecodeError<S::Error>>
    ensures reads { ReadsFields (λ v. map signer_fields v.items) AreSigners
        (here S.rest cons.old) result (here S.rest cons.new) }
    ensures octets { IfOk result (λ v. TookOctets (λ v. map signer_fields v.items)
        SignerOctets (here S.rest cons.old) v (here S.rest cons.new)) }
{
    let signers = take_any(alloc, cons)?;
    if signers.is_empty() {
        return Err((*cons).content_err(ContentError::from_static("no signer")));
    }
    Ok(signers)
}

/// The signers: a SET of one or more.
pub(crate) fn take_signers<S: Source>(
    alloc: Global,
    cons: &mut Constructed<S>,
) -> Result<Vec<SignerInfo>, DecodeError<S::Error>>
    ensures reads { ReadsAs (λ v. map signer_fields v.items)
        (Inside set_tag (AreSigners (here S.rest cons.old).mode))
        (here S.rest cons.old) result (here S.rest cons.new) }
    ensures octets { IfOk result (λ v. TookOctets (λ v. map signer_fields v.items)
        SpellsSigners (here S.rest cons.old) v (here S.rest cons.new)) }
    ensures failed { OnErr result ((here S.rest cons.new).failed ≡ true) }
{
    cons.take_set(
        |cons|
            ensures reads { ReadsFields (λ v. map signer_fields v.items) AreSigners
                (here S.rest cons.old) result (here S.rest cons.new) }
            ensures octets { IfOk result (λ v. TookOctets (λ v. map signer_fields v.items)
                SignerOctets (here S.rest cons.old) v (here S.rest cons.new)) }
        { take_some(alloc, cons) },
    )
}
