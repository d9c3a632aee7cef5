//! What stands around the content of a signed object (RFC 5652 3, 5.1; RFC 6488 2.1).

ghost use Rattle.std.specs.Prelude.{◌≡◌, IfErr, IfOk, OnErr, true};
ghost use Rattle.objects_cms.specs.bcder_tree.Tags.{context};
ghost use Rattle.objects_cms.specs.bcder_content.Exact.{ReadsAs};
ghost use Rattle.objects_cms.specs.bcder_content.Grammar.{Inside};
ghost use Rattle.objects_cms.specs.bcder_content.Here.{here};
ghost use Rattle.objects_cms.specs.bcder_content.InMode.{ReadsFields};
ghost use Rattle.objects_cms.specs.bcder_content.Memory.{OnMemory};
ghost use Rattle.certs_cert.specs.certs_x509.Took.{TookOctets};
ghost use Rattle.objects_cms.specs.objects_payload.ObjectText.{SpellsContentInfo, SpellsSignedData};
ghost use Rattle.objects_cms.specs.Begun.{BeginsData, BeginsInfo, BeginsObject, BeginsSigned, Opens};
ghost use Rattle.objects_cms.specs.Frame.{AreFrame, AreFrameOctets, AreSigned, AreSignedOctets, IsFrame, IsOneSigned, IsSigned, SpellsInner, SpellsOneSigned, object_fields, one_signed, signed_fields};

use crate::signed::carried::{take_certificates, take_signers};
use crate::signed::content::{Typed, take_content_info};
use crate::signed::kept::KeptCert;
use crate::signed::signer::SignerInfo;
use certs_cert::decode::{Constructed, DecodeError, Source};
use certs_cert::{DigestAlgorithm, Tag, with_value};
use certs_key::oid::SIGNED_DATA;
use std::alloc::Global;

// The number that stands for the version of signed data with signers by key identifier (RFC 5652 5.1).
const VERSION: u8 = 3;

// The content with its type, the certificate, and the signer.
pub(crate) type Parts = (Typed, KeptCert, SignerInfo);

// The fields of signed data, up to the end of their content.
fn take_fields<S: Source>(
    alloc: Global,
    cons: &mut Constructed<S>,
) -> Result<Parts, DecodeError<S::Error>>
    ensures reads { ReadsFields signed_fields AreSigned
        (here S.rest cons.old) result (here S.rest cons.new) }
    ensures octets { IfOk result (λ p. TookOctets signed_fields AreSignedOctets
        (here S.rest cons.old) p (here S.rest cons.new)) }
    ensures memory { IfErr result (λ e. OnMemory e (BeginsSigned (here S.rest cons.old))) }
{
    let version = cons.skip_u8_if(VERSION)?;
    let digest = DigestAlgorithm::take_set_from(cons)?;
    let typed = take_content_info(alloc, cons)?;
    let (typed, cert) = with_value(typed, take_certificates(alloc, cons))?;
    let (both, signer) = with_value((typed, cert), take_signers(alloc, cons))?;
    Ok((both.0, both.1, signer))
}

// `SignedData`, without revocation lists (RFC 5652 5.1, RFC 6488 2.1).
fn take_signed_data<S: Source>(
    alloc: Global,
    cons: &mut Constructed<S>,
) -> Result<Parts, DecodeError<S::Error>>
    ensures reads { ReadsAs signed_fields (IsSigned (here S.rest cons.old).mode)
        (here S.rest cons.old) result (here S.rest cons.new) }
    ensures octets { IfOk result (λ p. TookOctets signed_fields SpellsSignedData
        (here S.rest cons.old) p (here S.rest cons.new)) }
    ensures memory { IfErr result (λ e. OnMemory e (BeginsData (here S.rest cons.old))) }
{
    cons.take_sequence(
        |cons|
            ensures reads { ReadsFields signed_fields AreSigned
                (here S.rest cons.old) result (here S.rest cons.new) }
            ensures octets { IfOk result (λ p. TookOctets signed_fields AreSignedOctets
                (here S.rest cons.old) p (here S.rest cons.new)) }
            ensures memory { IfErr result (λ e. OnMemory e (BeginsSigned (here S.rest cons.old))) }
        { take_fields(alloc, cons) },
    )
}

// The signed data that is all of its content.
fn take_only<S: Source>(
    alloc: Global,
    cons: &mut Constructed<S>,
) -> Result<Parts, DecodeError<S::Error>>
    ensures reads { ReadsFields one_signed IsOneSigned
        (here S.rest cons.old) result (here S.rest cons.new) }
    ensures octets { IfOk result (λ p. TookOctets one_signed SpellsOneSigned
        (here S.rest cons.old) p (here S.rest cons.new)) }
    ensures memory { IfErr result (λ e. OnMemory e (BeginsData (here S.rest cons.old))) }
{
    let parts = take_signed_data(alloc, cons)?;
    Ok(parts)
}

// `[0] EXPLICIT SignedData` (RFC 5652 3).
fn take_explicit<S: Source>(
    alloc: Global,
    cons: &mut Constructed<S>,
) -> Result<Parts, DecodeError<S::Error>>
    ensures reads { ReadsAs one_signed
        (Inside (context 0) (IsOneSigned (here S.rest cons.old).mode))
        (here S.rest cons.old) result (here S.rest cons.new) }
    ensures octets { IfOk result (λ p. TookOctets one_signed SpellsInner
        (here S.rest cons.old) p (here S.rest cons.new)) }
    ensures memory { IfErr result (λ e. OnMemory e
        (Opens (context 0) BeginsData (here S.rest cons.old))) }
{
    cons.take_constructed_if(
        Tag::CTX_0,
        |cons|
            ensures reads { ReadsFields one_signed IsOneSigned
                (here S.rest cons.old) result (here S.rest cons.new) }
            ensures octets { IfOk result (λ p. TookOctets one_signed SpellsOneSigned
                (here S.rest cons.old) p (here S.rest cons.new)) }
            ensures memory { IfErr result (λ e. OnMemory e (BeginsData (here S.rest cons.old))) }
        { take_only(alloc, cons) },
    )
}

// The identifier of signed data and the data, up to the end of their content.
fn take_info<S: Source>(
    alloc: Global,
    cons: &mut Constructed<S>,
) -> Result<Parts, DecodeError<S::Error>>
    ensures reads { ReadsFields object_fields AreFrame
        (here S.rest cons.old) result (here S.rest cons.new) }
    ensures octets { IfOk result (λ p. TookOctets object_fields AreFrameOctets
        (here S.rest cons.old) p (here S.rest cons.new)) }
    ensures memory { IfErr result (λ e. OnMemory e (BeginsInfo (here S.rest cons.old))) }
{
    let oid = SIGNED_DATA.skip_if(cons)?;
    let parts = take_explicit(alloc, cons)?;
    Ok(parts)
}

// `ContentInfo` (RFC 5652 3): by values in each mode, and by the very octets that stood there.
pub(crate) fn take_frame<S: Source>(
    alloc: Global,
    cons: &mut Constructed<S>,
) -> Result<Parts, DecodeError<S::Error>>
    ensures reads { ReadsAs object_fields (IsFrame (here S.rest cons.old).mode)
        (here S.rest cons.old) result (here S.rest cons.new) }
    ensures octets { IfOk result (λ p. TookOctets object_fields SpellsContentInfo
        (here S.rest cons.old) p (here S.rest cons.new)) }
    ensures failed { OnErr result ((here S.rest cons.new).failed ≡ true) }
    ensures memory { IfErr result (λ e. OnMemory e (BeginsObject (here S.rest cons.old))) }
{
    cons.take_sequence(
        |cons|
            ensures reads { ReadsFields object_fields AreFrame
                (here S.rest cons.old) result (here S.rest cons.new) }
            ensures octets { IfOk result (λ p. TookOctets object_fields AreFrameOctets
                (here S.rest cons.old) p (here S.rest cons.new)) }
            ensures memory { IfErr result (λ e. OnMemory e (BeginsInfo (here S.rest cons.old))) }
        { take_info(alloc, cons) },
    )
}
