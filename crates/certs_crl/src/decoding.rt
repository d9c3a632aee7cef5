//! Revocation lists, read (RFC 5280 5.1.1).

ghost use Rattle.std.specs.Prelude.{◌≡◌, ◌↔◌, IfOk, IfSome, IsTrue, OnErr, true};
ghost use Rattle.certs_crl.specs.bcder_tree.declared.mode.Mode.TheVariants.{Der};
ghost use Rattle.certs_crl.specs.bcder_content.Captures.{rest_of};
ghost use Rattle.certs_crl.specs.bcder_content.Exact.{DecodesAs, ReadsAs, ReadsOptAs};
ghost use Rattle.certs_crl.specs.bcder_content.Here.{here};
ghost use Rattle.certs_crl.specs.bcder_content.InMode.{ReadsFields};
ghost use Rattle.certs_crl.specs.bcder_content.Texts.{InFront};
ghost use Rattle.certs_crl.specs.bcder_tree.Tags.{sequence_tag};
ghost use Rattle.certs_crl.specs.Fields.{as_list};
ghost use Rattle.certs_crl.specs.Whole.{AreCrl, AreCrlOctets};
ghost use Rattle.certs_x509.specs.Took.{TookOctets};
ghost use Rattle.certs_x509.specs.certs_extension.Calls.{DecodesCrl};
ghost use Rattle.certs_x509.specs.certs_extension.CrlText.{IsCrl, IsTbsList, SpellsCrl, SpellsTbsList};

use crate::crl::Crl;
use crate::tbs::TbsCertList;
use bcder::decode::{Constructed, ContentError, Decode, DecodeError, IntoSource, Source};
use bcder::{Captured, Mode};
use certs_x509::revoked::{RevokedCertificates, crl_is_spelled};
use certs_x509::signed::SignedData;
use std::alloc::{AllocError, Global};
use std::convert::Infallible;

// What is signed of it; no octet is copied.
fn message_of(signed: &SignedData) -> Result<Captured, AllocError>
    ensures { IfOk result (λ message. message ≡ signed.now.message) }
{
    signed.data().clone()
}

// What is signed, read of the octets that it begins with, and sharing them.
fn tbs_of(
    alloc: Global,
    signed: &SignedData,
    mode: Mode,
) -> Result<TbsCertList<RevokedCertificates>, DecodeError<Infallible>>
    ensures reads { DecodesAs as_list mode (IsTbsList mode) signed.now.message.octets result }
    ensures octets { IfOk result
        (λ t. InFront (SpellsTbsList mode) signed.now.message.octets (as_list t)) }
{
    let message = message_of(signed)?;
    mode.decode(
        message.into_bytes(),
        |cons|
            ensures reads { ReadsAs as_list (IsTbsList (here rest_of cons.old).mode)
                (here rest_of cons.old) result (here rest_of cons.new) }
            ensures octets { IfOk result (λ t. TookOctets as_list SpellsTbsList
                (here rest_of cons.old) t (here rest_of cons.new)) }
        { TbsCertList::take_from(alloc, cons) },
    )
}

// Whether both algorithms are the same, in what is signed and after it.
fn agree(tbs: &TbsCertList<RevokedCertificates>, signed: &SignedData) -> bool
    ensures { IsTrue result ↔ (tbs.now.has_null ≡ signed.now.signature.algorithm) }
{
    tbs.signature == *signed.signature().algorithm()
}

impl Crl {
    /// The fields of a revocation list, which are all of their content: signed octets, which are kept, and the fields that
    /// are read of them in the same mode; both algorithms are the same (RFC 5280 5.1.1).
    pub fn from_constructed<S: Source>(
        alloc: Global,
        cons: &mut Constructed<S>,
    ) -> Result<Crl, DecodeError<S::Error>>
        ensures reads { ReadsFields (λ c. c) AreCrl
            (here S.rest cons.old) result (here S.rest cons.new) }
        ensures octets { IfOk result (λ c. TookOctets (λ c. c) AreCrlOctets
            (here S.rest cons.old) c (here S.rest cons.new)) }
        ensures failed { OnErr result ((here S.rest cons.new).failed ≡ true) }
    {
        let mode = cons.mode();
        let signed = SignedData::from_constructed(alloc, cons)?;
        let tbs = match tbs_of(alloc, &signed, mode) {
            Ok(tbs) => tbs,
            Err(error) => {
                cons.fail();
                return Err(error.convert());
            }
        };
        if !agree(&tbs, &signed) {
            cons.fail();
            return Err((*cons).content_err(ContentError::from_static("another algorithm")));
        }
        Ok(Crl::from_parts(signed, tbs))
    }

    /// The revocation list that is next, in the mode of the content: by values, and by the very octets that stood there, of
    /// which those that are signed are kept, and the fields that are read of these in the same mode; both algorithms are the
    /// same (RFC 5280 5.1.1). The signature isn't verified.
    pub fn take_from<S: Source>(
        alloc: Global,
        cons: &mut Constructed<S>,
    ) -> Result<Crl, DecodeError<S::Error>>
        ensures reads { ReadsAs (λ c. c) (IsCrl (here S.rest cons.old).mode)
            (here S.rest cons.old) result (here S.rest cons.new) }
        ensures octets { IfOk result (λ c. TookOctets (λ c. c) SpellsCrl
            (here S.rest cons.old) c (here S.rest cons.new)) }
        ensures failed { OnErr result ((here S.rest cons.new).failed ≡ true) }
    {
        cons.take_sequence(
            |cons|
                ensures reads { ReadsFields (λ c. c) AreCrl
                    (here S.rest cons.old) result (here S.rest cons.new) }
                ensures octets { IfOk result (λ c. TookOctets (λ c. c) AreCrlOctets
                    (here S.rest cons.old) c (here S.rest cons.new)) }
            { Crl::from_constructed(alloc, cons) },
        )
    }

    /// The revocation list that is next, if a SEQUENCE is next, in the mode of the content; one that is no revocation list is
    /// refused. The signature isn't verified.
    pub fn take_opt_from<S: Source>(
        alloc: Global,
        cons: &mut Constructed<S>,
    ) -> Result<Option<Crl>, DecodeError<S::Error>>
        ensures reads { ReadsOptAs (λ c. c) sequence_tag (IsCrl (here S.rest cons.old).mode)
            (here S.rest cons.old) result (here S.rest cons.new) }
        ensures octets { IfOk result (λ found. IfSome found (λ c. TookOctets (λ c. c) SpellsCrl
            (here S.rest cons.old) c (here S.rest cons.new))) }
        ensures failed { OnErr result ((here S.rest cons.new).failed ≡ true) }
    {
        cons.take_opt_sequence(
            |cons|
                ensures reads { ReadsFields (λ c. c) AreCrl
                    (here S.rest cons.old) result (here S.rest cons.new) }
                ensures octets { IfOk result (λ c. TookOctets (λ c. c) AreCrlOctets
                    (here S.rest cons.old) c (here S.rest cons.new)) }
            { Crl::from_constructed(alloc, cons) },
        )
    }

    /// The revocation list that a source begins with, in DER; octets after it stay unread.
    pub fn decode<I: IntoSource>(
        alloc: Global,
        source: I,
    ) -> Result<Crl, DecodeError<<I::Source as Source>::Error>>
        ensures { DecodesCrl (I.octets source) result }
    {
        crl_is_spelled();
        Mode::Der.decode(
            source,
            |cons|
                ensures { ReadsAs (λ c. c) (IsCrl (here I.Source.rest cons.old).mode)
                    (here I.Source.rest cons.old) result (here I.Source.rest cons.new) }
            { Crl::take_from(alloc, cons) },
        )
    }
}
