//! Certificates, read (RFC 5280 4.1.1).

ghost use Rattle.std.specs.Prelude.{◌≡◌, IfOk, IfSome, OnErr, true};
ghost use Rattle.certs_cert.specs.bcder_tree.Tags.{sequence_tag};
ghost use Rattle.certs_cert.specs.bcder_tree.declared.mode.Mode.TheVariants.{Der};
ghost use Rattle.certs_cert.specs.bcder_content.Captures.{rest_of};
ghost use Rattle.certs_cert.specs.bcder_content.Exact.{DecodesAs, ReadsAs, ReadsOptAs};
ghost use Rattle.certs_cert.specs.bcder_content.Here.{here};
ghost use Rattle.certs_cert.specs.bcder_content.InMode.{ReadsFields};
ghost use Rattle.certs_cert.specs.bcder_content.Texts.{InFront};
ghost use Rattle.certs_cert.specs.Whole.{AreCert, AreCertOctets};
ghost use Rattle.certs_x509.specs.Took.{TookOctets};
ghost use Rattle.certs_extension.specs.Calls.{DecodesCert};
ghost use Rattle.certs_extension.specs.CertText.{IsCert, IsTbs, SpellsCert, SpellsTbs};

use crate::cert::Cert;
use crate::tbs::TbsCert;
use certs_extension::Captured;
use certs_extension::forms::laws::cert_is_spelled;
use certs_x509::signed::decode::{Constructed, Decode, DecodeError, IntoSource, Source};
use certs_x509::signed::{Mode, SignedData};
use std::alloc::{AllocError, Global};
use std::convert::Infallible;

// What is signed of it; no octet is copied.
fn message_of(signed: &SignedData) -> Result<Captured, AllocError>
    ensures { IfOk result (λ message. message ≡ signed.now.message) }
{
    signed.data().clone()
}

// What is signed, read of the octets that it begins with, and sharing them.
fn tbs_of(
    alloc: Global,
    signed: &SignedData,
    mode: Mode,
) -> Result<TbsCert, DecodeError<Infallible>>
    ensures reads { DecodesAs (λ t. t) mode (IsTbs mode) signed.now.message.octets result }
    ensures octets { IfOk result (InFront (SpellsTbs mode) signed.now.message.octets) }
{
    let message = message_of(signed)?;
    mode.decode(
        message.into_bytes(),
        |cons|
            ensures reads { ReadsAs (λ t. t) (IsTbs (here rest_of cons.old).mode)
                (here rest_of cons.old) result (here rest_of cons.new) }
            ensures octets { IfOk result (λ t. TookOctets (λ t. t) SpellsTbs
                (here rest_of cons.old) t (here rest_of cons.new)) }
        { TbsCert::from_constructed(alloc, cons) },
    )
}

impl Cert {
    /// The fields of a certificate, which are all of their content: signed octets, which are kept,
    /// and the fields that are read of them in the same mode (RFC 5280 4.1.1).
    pub fn from_constructed<S: Source>(
        alloc: Global,
        cons: &mut Constructed<S>,
    ) -> Result<Cert, DecodeError<S::Error>>
        ensures reads { ReadsFields (λ c. c) AreCert
            (here S.rest cons.old) result (here S.rest cons.new) }
        ensures octets { IfOk result (λ c. TookOctets (λ c. c) AreCertOctets
            (here S.rest cons.old) c (here S.rest cons.new)) }
        ensures failed { OnErr result ((here S.rest cons.new).failed ≡ true) }
    {
        let mode = cons.mode();
        let signed = SignedData::from_constructed(alloc, cons)?;
        let tbs = match tbs_of(alloc, &signed, mode) {
            Ok(tbs) => tbs,
            Err(error) => {
                cons.fail();
                return Err(error.convert());
            }
        };
        Ok(Cert::from_parts(signed, tbs))
    }

    /// The certificate that is next (RFC 5280 4.1.1): by values, and by the very octets that stood
    /// there, of which those that are signed are kept. The signature isn't verified.
    pub fn take_from<S: Source>(
        alloc: Global,
        cons: &mut Constructed<S>,
    ) -> Result<Cert, DecodeError<S::Error>>
        ensures reads { ReadsAs (λ c. c) (IsCert (here S.rest cons.old).mode)
            (here S.rest cons.old) result (here S.rest cons.new) }
        ensures octets { IfOk result (λ c. TookOctets (λ c. c) SpellsCert
            (here S.rest cons.old) c (here S.rest cons.new)) }
        ensures failed { OnErr result ((here S.rest cons.new).failed ≡ true) }
    {
        cons.take_sequence(
            |cons|
                ensures reads { ReadsFields (λ c. c) AreCert
                    (here S.rest cons.old) result (here S.rest cons.new) }
                ensures octets { IfOk result (λ c. TookOctets (λ c. c) AreCertOctets
                    (here S.rest cons.old) c (here S.rest cons.new)) }
            { Cert::from_constructed(alloc, cons) },
        )
    }

    /// The certificate that is next, if a SEQUENCE is next; one that is no certificate is refused
    /// (RFC 5280 4.1.1). The signature isn't verified.
    pub fn take_opt_from<S: Source>(
        alloc: Global,
        cons: &mut Constructed<S>,
    ) -> Result<Option<Cert>, DecodeError<S::Error>>
        ensures reads { ReadsOptAs (λ c. c) sequence_tag (IsCert (here S.rest cons.old).mode)
            (here S.rest cons.old) result (here S.rest cons.new) }
        ensures octets { IfOk result (λ found. IfSome found (λ c. TookOctets (λ c. c) SpellsCert
            (here S.rest cons.old) c (here S.rest cons.new))) }
        ensures failed { OnErr result ((here S.rest cons.new).failed ≡ true) }
    {
        cons.take_opt_sequence(
            |cons|
                ensures reads { ReadsFields (λ c. c) AreCert
                    (here S.rest cons.old) result (here S.rest cons.new) }
                ensures octets { IfOk result (λ c. TookOctets (λ c. c) AreCertOctets
                    (here S.rest cons.old) c (here S.rest cons.new)) }
            { Cert::from_constructed(alloc, cons) },
        )
    }

    /// The certificate that a source begins with, in DER; octets after it stay unread.
    pub fn decode<I: IntoSource>(
        alloc: Global,
        source: I,
    ) -> Result<Cert, DecodeError<<I::Source as Source>::Error>>
        ensures { DecodesCert (I.octets source) result }
    {
        cert_is_spelled();
        Mode::Der.decode(
            source,
            |cons|
                ensures { ReadsAs (λ c. c) (IsCert (here I.Source.rest cons.old).mode)
                    (here I.Source.rest cons.old) result (here I.Source.rest cons.new) }
            { Cert::take_from(alloc, cons) },
        )
    }
}
