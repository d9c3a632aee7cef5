//! What is signed of a certificate, read (RFC 5280 4.1.2, RFC 6487 4).

ghost use Rattle.std.specs.Prelude.{◌≡◌, IfOk, OnErr, true};
ghost use Rattle.certs_cert.specs.bcder_tree.Tags.{context};
ghost use Rattle.certs_cert.specs.bcder_content.Exact.{ReadsAs};
ghost use Rattle.certs_cert.specs.bcder_content.Grammar.{Inside};
ghost use Rattle.certs_cert.specs.bcder_content.Here.{here};
ghost use Rattle.certs_cert.specs.bcder_content.InMode.{ReadsFields};
ghost use Rattle.certs_cert.specs.Reading.{AreSlotted, IsListed, IsListedBody, IsNumber, IsNumbered, IsTail, SaysListed, SpellsListed, SpellsListedBody, SpellsTail, alone, listed_fields, slots_of, tail_fields};
ghost use Rattle.certs_extension.specs.Finishing.{Finishes};
ghost use Rattle.certs_extension.specs.declared.claims.finish.Claims.{Claims as ClaimsValue};
ghost use Rattle.certs_x509.specs.Took.{TookOctets};
ghost use Rattle.certs_extension.specs.CertText.{IsTbs, SpellsTbs};

use crate::tbs::TbsCert;
use certs_extension::ExtensionError;
use certs_extension::claims::{Slots, take_extensions};
use certs_extension::forms::Validity;
use certs_x509::signed::decode::{Constructed, ContentError, DecodeError, Source};
use certs_x509::signed::{
    Name, PublicKey, RpkiSignatureAlgorithm, Serial, SignatureAlgorithm, Tag,
};
use std::alloc::Global;

// The number that stands for version 3 (RFC 5280 4.1.2.1).
const VERSION: u8 = 2;

// The subject, its key, and the slots of the extensions.
type Tail = (Name, PublicKey, Slots);

// The serial number, the algorithm, the issuer, the validity, and what comes after them.
type Listed = (Serial, RpkiSignatureAlgorithm, Name, Validity, Tail);

// The number of the version.
fn take_number<S: Source>(cons: &mut Constructed<S>) -> Result<(), DecodeError<S::Error>>
    ensures { ReadsFields alone IsNumber (here S.rest cons.old) result (here S.rest cons.new) }
{
    let number = cons.skip_u8_if(VERSION)?;
    Ok(number)
}

// The version, which is 3: `[0] EXPLICIT INTEGER (2)` (RFC 6487 4.1).
fn take_version<S: Source>(cons: &mut Constructed<S>) -> Result<(), DecodeError<S::Error>>
    ensures { ReadsAs alone IsNumbered (here S.rest cons.old) result (here S.rest cons.new) }
{
    cons.take_constructed_if(
        Tag::CTX_0,
        |cons|
            ensures { ReadsFields alone IsNumber
                (here S.rest cons.old) result (here S.rest cons.new) }
        { take_number(cons) },
    )
}

// The list of extensions alone.
fn take_list<S: Source>(
    alloc: Global,
    cons: &mut Constructed<S>,
) -> Result<Slots, DecodeError<S::Error>>
    ensures { ReadsFields alone AreSlotted (here S.rest cons.old) result (here S.rest cons.new) }
{
    let slots = take_extensions(alloc, cons)?;
    Ok(slots)
}

// The extensions: `[3] EXPLICIT SEQUENCE OF Extension` (RFC 5280 4.1).
fn take_slots<S: Source>(
    alloc: Global,
    cons: &mut Constructed<S>,
) -> Result<Slots, DecodeError<S::Error>>
    ensures { ReadsAs alone (Inside (context 3) (AreSlotted (here S.rest cons.old).mode))
        (here S.rest cons.old) result (here S.rest cons.new) }
{
    cons.take_constructed_if(
        Tag::CTX_3,
        |cons|
            ensures { ReadsFields alone AreSlotted
                (here S.rest cons.old) result (here S.rest cons.new) }
        { take_list(alloc, cons) },
    )
}

// The fields after the validity, up to the end of their content.
fn take_tail<S: Source>(
    alloc: Global,
    cons: &mut Constructed<S>,
) -> Result<Tail, DecodeError<S::Error>>
    ensures reads { ReadsFields tail_fields IsTail
        (here S.rest cons.old) result (here S.rest cons.new) }
    ensures octets { IfOk result (λ t. TookOctets tail_fields SpellsTail
        (here S.rest cons.old) t (here S.rest cons.new)) }
{
    let subject = Name::take_from(alloc, cons)?;
    let key = PublicKey::take_from(alloc, cons)?;
    let slots = take_slots(alloc, cons)?;
    Ok((subject, key, slots))
}

// All fields, up to the end of their content.
fn take_fields<S: Source>(
    alloc: Global,
    cons: &mut Constructed<S>,
) -> Result<Listed, DecodeError<S::Error>>
    ensures reads { ReadsFields listed_fields IsListedBody
        (here S.rest cons.old) result (here S.rest cons.new) }
    ensures octets { IfOk result (λ l. TookOctets listed_fields SpellsListedBody
        (here S.rest cons.old) l (here S.rest cons.new)) }
{
    let version = take_version(cons)?;
    let serial = Serial::take_from(cons)?;
    let signature = RpkiSignatureAlgorithm::x509_take_from(cons)?;
    let issuer = Name::take_from(alloc, cons)?;
    let validity = Validity::take_from(cons)?;
    let tail = take_tail(alloc, cons)?;
    Ok((serial, signature, issuer, validity, tail))
}

// A SEQUENCE of the fields.
fn take_listed<S: Source>(
    alloc: Global,
    cons: &mut Constructed<S>,
) -> Result<Listed, DecodeError<S::Error>>
    ensures reads { ReadsAs listed_fields (IsListed (here S.rest cons.old).mode)
        (here S.rest cons.old) result (here S.rest cons.new) }
    ensures octets { IfOk result (λ l. TookOctets listed_fields SpellsListed
        (here S.rest cons.old) l (here S.rest cons.new)) }
    ensures failed { OnErr result ((here S.rest cons.new).failed ≡ true) }
{
    cons.take_sequence(
        |cons|
            ensures reads { ReadsFields listed_fields IsListedBody
                (here S.rest cons.old) result (here S.rest cons.new) }
            ensures octets { IfOk result (λ l. TookOctets listed_fields SpellsListedBody
                (here S.rest cons.old) l (here S.rest cons.new)) }
        { take_fields(alloc, cons) },
    )
}

// The certificate's fields, if the slots of the extensions mean something.
fn finished(listed: Listed) -> Result<TbsCert, ExtensionError>
    ensures ok { IfOk result (λ tbs. SaysListed (listed_fields listed) tbs) }
    ensures none { OnErr result ((c : ClaimsValue)
        → ¬ (Finishes (slots_of (listed_fields listed)) c)) }
{
    let (serial_number, signature, issuer, validity, tail) = listed;
    let (subject, subject_public_key_info, slots) = tail;
    let claims = slots.finish()?;
    Ok(TbsCert {
        serial_number,
        signature,
        issuer,
        validity,
        subject,
        subject_public_key_info,
        basic_ca: claims.basic_ca,
        subject_key_identifier: claims.subject_key_identifier,
        authority_key_identifier: claims.authority_key_identifier,
        key_usage: claims.key_usage,
        extended_key_usage: claims.extended_key_usage,
        crl_uri: claims.crl_uri,
        ca_issuer: claims.ca_issuer,
        ca_repository: claims.access.repository,
        rpki_manifest: claims.access.manifest,
        signed_object: claims.access.object,
        rpki_notify: claims.access.notify,
        overclaim: claims.overclaim,
        v4_resources: claims.v4,
        v6_resources: claims.v6,
        as_resources: claims.asn,
    })
}

impl TbsCert {
    /// What is signed of a certificate, where it is next: its fields in their order, and its
    /// extensions in any order (RFC 5280 4.1.2, RFC 6487 4). Extensions that don't fit together, or
    /// of which one is missing, are refused. The names' octets are those that stand there.
    pub fn from_constructed<S: Source>(
        alloc: Global,
        cons: &mut Constructed<S>,
    ) -> Result<TbsCert, DecodeError<S::Error>>
        ensures reads { ReadsAs (λ t. t) (IsTbs (here S.rest cons.old).mode)
            (here S.rest cons.old) result (here S.rest cons.new) }
        ensures octets { IfOk result (λ t. TookOctets (λ t. t) SpellsTbs
            (here S.rest cons.old) t (here S.rest cons.new)) }
        ensures failed { OnErr result ((here S.rest cons.new).failed ≡ true) }
    {
        let listed = take_listed(alloc, cons)?;
        match finished(listed) {
            Ok(tbs) => Ok(tbs),
            Err(fault) => {
                cons.fail();
                Err(cons.content_err(ContentError::from(fault)))
            }
        }
    }
}
