//! The certificates that an object carries: one or more (RFC 5652 5.1).

ghost use Rattle.std.specs.Prelude.{◌≡◌, IfOk, OnErr, true};
ghost use Rattle.objects_cms.specs.bcder_tree.Tags.{context};
ghost use Rattle.objects_cms.specs.bcder_content.Exact.{ReadsAs};
ghost use Rattle.objects_cms.specs.bcder_content.Grammar.{Inside};
ghost use Rattle.objects_cms.specs.bcder_content.Here.{here};
ghost use Rattle.objects_cms.specs.bcder_content.InMode.{ReadsFields};
ghost use Rattle.objects_cms.specs.certs_x509.Took.{TookOctets};
ghost use Rattle.objects_rta.specs.Carried.{AnyCertOctets, AreAnyCerts, AreCerts, CertOctets, SpellsCerts};

use certs_cert::decode::{Constructed, ContentError, DecodeError, Source};
use certs_cert::{Cert, Tag};
use std::alloc::Global;

// The certificates that are left of a content.
fn take_certs<S: Source>(
    alloc: Global,
    cons: &mut Constructed<S>,
) -> Result<Vec<Cert>, DecodeError<S::Error>>
    ensures reads { ReadsFields (λ v. v.items) AreAnyCerts
        (here S.rest cons.old) result (here S.rest cons.new) }
    ensures octets { IfOk result (λ v. TookOctets (λ v. v.items) AnyCertOctets
        (here S.rest cons.old) v (here S.rest cons.new)) }
{
    let mut certs = Vec::new(alloc);
    while let Some(cert) = Cert::take_opt_from(alloc, cons)? {
        certs.push(cert)?;
    }
    Ok(certs)
}

// The certificates that are left of a content, which are some.
fn take_some<S: Source>(
    alloc: Global,
    cons: &mut Constructed<S>,
) -> Result<Vec<Cert>, DecodeError<S::Error>>
    ensures reads { ReadsFields (λ v. v.items) AreCerts
        (here S.rest cons.old) result (here S.rest cons.new) }
    ensures octets { IfOk result (λ v. TookOctets (λ v. v.items) CertOctets
        (here S.rest cons.old) v (here S.rest cons.new)) }
{
    let certs = take_certs(alloc, cons)?;
    if certs.is_empty() {
        return Err((*cons).content_err(ContentError::from_static("no certificate")));
    }
    Ok(certs)
}

/// The certificates: `[0] IMPLICIT SET` of one or more.
pub(crate) fn take_certificates<S: Source>(
    alloc: Global,
    cons: &mut Constructed<S>,
) -> Result<Vec<Cert>, DecodeError<S::Error>>
    ensures reads { ReadsAs (λ v. v.items)
        (Inside (context 0) (AreCerts (here S.rest cons.old).mode))
        (here S.rest cons.old) result (here S.rest cons.new) }
    ensures octets { IfOk result (λ v. TookOctets (λ v. v.items) SpellsCerts
        (here S.rest cons.old) v (here S.rest cons.new)) }
    ensures failed { OnErr result ((here S.rest cons.new).failed ≡ true) }
{
    cons.take_constructed_if(
        Tag::CTX_0,
        |cons|
            ensures reads { ReadsFields (λ v. v.items) AreCerts
                (here S.rest cons.old) result (here S.rest cons.new) }
            ensures octets { IfOk result (λ v. TookOctets (λ v. v.items) CertOctets
                (here S.rest cons.old) v (here S.rest cons.new)) }
        { take_some(alloc, cons) },
    )
}
