//! What is signed of a revocation list, read (RFC 5280 5.1.2, RFC 6487 5).

ghost use Rattle.std.specs.Prelude.{◌≡◌, IfOk, OnErr, true};
ghost use Rattle.certs_crl.specs.bcder_content.Exact.{ReadsAs};
ghost use Rattle.certs_crl.specs.bcder_content.Here.{here};
ghost use Rattle.certs_crl.specs.bcder_content.InMode.{ReadsFields};
ghost use Rattle.certs_crl.specs.Fields.{as_list};
ghost use Rattle.certs_crl.specs.Reading.{Finishes, IsRead, IsReadBody, IsTail, SpellsRead, SpellsReadBody, read_fields, tail_fields};
ghost use Rattle.certs_x509.specs.Took.{TookOctets};
ghost use Rattle.certs_x509.specs.certs_extension.CrlText.{IsTbsList, SpellsTbsList, entries};

use crate::extensions::{Pair, said_by, take_extensions};
use crate::tbs::TbsCertList;
use bcder::decode::{Constructed, DecodeError, Source};
use certs_basics::time::Time;
use certs_key::algorithm::{RpkiSignatureAlgorithm, SignatureAlgorithm};
use certs_name::Name;
use certs_x509::revoked::RevokedCertificates;
use std::alloc::Global;
use std::convert::Infallible;

// The number that stands for version 2 (RFC 5280 5.1.2.1).
const VERSION: u8 = 1;

// The revoked certificates, if they are there, and the extensions.
type Tail = (Option<RevokedCertificates>, Pair);

// The algorithm, the issuer, both updates, and what comes after them.
type Listed = (RpkiSignatureAlgorithm, Name, Time, Time, Tail);

// The fields after the updates, up to the end of their content.
fn take_tail<S: Source>(
    alloc: Global,
    cons: &mut Constructed<S>,
) -> Result<Tail, DecodeError<S::Error>>
    ensures { ReadsFields tail_fields IsTail
        (here S.rest cons.old) result (here S.rest cons.new) }
{
    let revoked = RevokedCertificates::take_opt_from(alloc, cons)?;
    let pair = take_extensions(alloc, cons)?;
    Ok((revoked, pair))
}

// All fields, up to the end of their content.
fn take_fields<S: Source>(
    alloc: Global,
    cons: &mut Constructed<S>,
) -> Result<Listed, DecodeError<S::Error>>
    ensures reads { ReadsFields read_fields IsReadBody
        (here S.rest cons.old) result (here S.rest cons.new) }
    ensures octets { IfOk result (λ l. TookOctets read_fields SpellsReadBody
        (here S.rest cons.old) l (here S.rest cons.new)) }
{
    let version = cons.skip_u8_if(VERSION)?;
    let signature = RpkiSignatureAlgorithm::x509_take_from(cons)?;
    let issuer = Name::take_from(alloc, cons)?;
    let this_update = Time::take_from(cons)?;
    let next_update = Time::take_from(cons)?;
    let tail = take_tail(alloc, cons)?;
    Ok((signature, issuer, this_update, next_update, tail))
}

// A SEQUENCE of the fields.
fn take_listed<S: Source>(
    alloc: Global,
    cons: &mut Constructed<S>,
) -> Result<Listed, DecodeError<S::Error>>
    ensures reads { ReadsAs read_fields (IsRead (here S.rest cons.old).mode)
        (here S.rest cons.old) result (here S.rest cons.new) }
    ensures octets { IfOk result (λ l. TookOctets read_fields SpellsRead
        (here S.rest cons.old) l (here S.rest cons.new)) }
    ensures failed { OnErr result ((here S.rest cons.new).failed ≡ true) }
{
    cons.take_sequence(
        |cons|
            ensures reads { ReadsFields read_fields IsReadBody
                (here S.rest cons.old) result (here S.rest cons.new) }
            ensures octets { IfOk result (λ l. TookOctets read_fields SpellsReadBody
                (here S.rest cons.old) l (here S.rest cons.new)) }
        { take_fields(alloc, cons) },
    )
}

// The revoked certificates; none where the list is absent.
fn revoked_in(revoked: Option<RevokedCertificates>) -> RevokedCertificates
    ensures { result ≡ entries revoked }
{
    match revoked {
        Some(revoked) => revoked,
        None => RevokedCertificates::empty(),
    }
}

// The list's fields, if the extensions say what they have to.
fn finished(
    alloc: Global,
    listed: Listed,
) -> Result<TbsCertList<RevokedCertificates>, DecodeError<Infallible>>
    ensures { Finishes (read_fields listed) result }
{
    let (signature, issuer, this_update, next_update, tail) = listed;
    let (revoked, pair) = tail;
    let said = said_by(alloc, &pair)?;
    let (authority_key_id, crl_number) = said;
    Ok(TbsCertList {
        signature,
        issuer,
        this_update,
        next_update,
        revoked_certs: revoked_in(revoked),
        authority_key_id,
        crl_number,
    })
}

impl TbsCertList<RevokedCertificates> {
    /// What is signed of a revocation list, where it is next: its fields in their order, and its two extensions in either
    /// order (RFC 5280 5.1.2, RFC 6487 5). The issuer's octets are those that stand there.
    pub fn take_from<S: Source>(
        alloc: Global,
        cons: &mut Constructed<S>,
    ) -> Result<TbsCertList<RevokedCertificates>, DecodeError<S::Error>>
        ensures reads { ReadsAs as_list (IsTbsList (here S.rest cons.old).mode)
            (here S.rest cons.old) result (here S.rest cons.new) }
        ensures octets { IfOk result (λ t. TookOctets as_list SpellsTbsList
            (here S.rest cons.old) t (here S.rest cons.new)) }
        ensures failed { OnErr result ((here S.rest cons.new).failed ≡ true) }
    {
        let listed = take_listed(alloc, cons)?;
        match finished(alloc, listed) {
            Ok(tbs) => Ok(tbs),
            Err(error) => {
                cons.fail();
                Err(error.convert())
            }
        }
    }
}
