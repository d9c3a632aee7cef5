//! Signed objects with several signers, written again (RFC 5652 3, 5.1).

ghost use Rattle.std.specs.Prelude.{◌≡◌, ◌↔◌, ◌++◌, ◌∷◌, [], All, IfErr, IfOk, IsTrue, OnOk, map};
ghost use Rattle.objects_written.specs.bcder_primitive.declared.written.error.EncodeError.TheVariants.{Memory as memory_lacks};
ghost use Rattle.objects_written.specs.bcder_tree.declared.mode.Mode.TheVariants.{Der};
ghost use Rattle.objects_rta.specs.MultiText.{Multi};
ghost use Rattle.objects_rta_written.specs.Again.{AgainRefused, AreCarriedInDer, IsCertInDer, IsCrlInDer, IsSignerInDer, PartsRefused, SignersRefused, StandsInDer, WritesAgain, parts_of, signer_parts, signers_seen};
ghost use Rattle.objects_rta_written.specs.Frames.{cert as cert_output, crl as crl_output, data_fields, lists, object as written_object, signed_data};

use crate::der::text_of;
use crate::signer::{EncodeSigner, SignerValues, octets_of};
use crate::tags::Context1;
use certs::written::{
    AlgorithmIdentifier, Captured, Context0, EncodeError, Identifier, Mode, Sequence, Values,
    Version,
};
use certs_cert::Cert;
use certs_cert::signed::SignedDataValues;
use certs_key::DigestAlgorithm;
use certs_key::encode::{Encodes, Slice, slice};
use certs_key::oid::SIGNED_DATA;
use objects_rta::{Crl, MultiSignedObject, Rta, SignerInfo};
use objects_written::frame::attributes::{OidValue, SetOf, StringValue};
use std::alloc::Global;
use std::io::Write;
use std::marker::Model;

// The number that stands for the version of signed data with signers by key identifier (RFC 5652 5.1).
const VERSION: u8 = 3;

// Certificates, each as it stood (RFC 5280 4.1).
#[derive(Drop)]
struct EachCert;

impl<'a> Encodes<'a, Cert> for EachCert {
    type Given = SignedDataValues<'a>;

    ghost trees = { λ e x m. (cert_output x).trees m };

    ghost writes = { λ e x m. (cert_output x).writes m };

    fn values_of(&self, item: &'a Cert) -> SignedDataValues<'a> {
        item.encode_ref()
    }

    ghost spelled = { λ e x m. (cert_output x).spelled m };

    ghost one_text = { λ e x m. (cert_output x).one_text m };
}

// Revocation lists, each as it stood (RFC 5280 5.1).
#[derive(Drop)]
struct EachCrl;

impl<'a> Encodes<'a, Crl> for EachCrl {
    type Given = SignedDataValues<'a>;

    ghost trees = { λ e x m. (crl_output x).trees m };

    ghost writes = { λ e x m. (crl_output x).writes m };

    fn values_of(&self, item: &'a Crl) -> SignedDataValues<'a> {
        item.encode_ref()
    }

    ghost spelled = { λ e x m. (crl_output x).spelled m };

    ghost one_text = { λ e x m. (crl_output x).one_text m };
}

// The revocation lists, with the tag [1]; nothing where there are none (RFC 5652 5.1).
#[derive(Drop)]
struct ListsValue<'a>(&'a [Crl]);

impl Values for ListsValue<'_> {
    ghost trees = { λ x. (lists x.0.now).trees };

    ghost writes = { λ x. (lists x.0.now).writes };

    fn encoded_len(&self, mode: Mode) -> Result<usize, EncodeError> {
        if self.0.is_empty() {
            return Ok(0);
        }
        let value = Context1(slice(self.0, EachCrl));
        value.encoded_len(mode)
    }

    fn write_encoded<W: Write>(&self, mode: Mode, target: &mut W) -> Result<(), EncodeError> {
        if self.0.is_empty() {
            return Ok(());
        }
        let value = Context1(slice(self.0, EachCrl));
        value.write_encoded(mode, target)
    }

    ghost spelled = { λ x. (lists x.0.now).spelled };

    ghost one_text = { λ x. (lists x.0.now).one_text };
}

/// What is written of signed data with several signers (RFC 5652 5.1). Contracts see its parts.
#[derive(Drop)]
pub struct MultiData<'a> {
    content_type: &'a [u8],
    content: &'a [u8],
    certs: &'a [Cert],
    crls: &'a [Crl],
    signers: Vec<SignerValues<'a>>,
}

impl<'a> Model for MultiData<'a> {
    ghost use Rattle.objects_rta_written.specs.Frames.{MultiParts};

    ghost Value = { MultiParts };

    ghost view = { λ o. record {
      content_type = o.content_type.now;
      content = o.content.now;
      certs = o.certs.now;
      crls = o.crls.now;
      signers = o.signers.items;
    } };
}

// The content with its type.
type ContentInfo<'b> = Sequence<(OidValue<'b>, Context0<StringValue<'b>>)>;

// The encoders of the fields of signed data.
type DataEncoders<'b, 'a> = (
    Version,
    SetOf<AlgorithmIdentifier>,
    ContentInfo<'b>,
    Context0<Slice<'b, Cert, EachCert>>,
    ListsValue<'b>,
    SetOf<&'b [SignerValues<'a>]>,
);

impl<'a> MultiData<'a> {
    // The encoders of the fields, in a SEQUENCE.
    fn fields(&self) -> Sequence<DataEncoders<'_, 'a>>
        ensures { (
          result.0.0.0,
          (
            result.0.1.0,
            (
              result.0.2.0.0.0.now,
              (
                result.0.2.0.1.0.0.now,
                (result.0.3.0.items.now, (result.0.4.0.now, result.0.5.0.now)),
              ),
            ),
          ),
        )
            ≡ data_fields self.now }
    {
        let digest = DigestAlgorithm::default();
        let content = Sequence((
            OidValue(self.content_type),
            Context0(StringValue(self.content)),
        ));
        Sequence((
            Version(VERSION),
            SetOf(digest.encode()),
            content,
            Context0(slice(self.certs, EachCert)),
            ListsValue(self.crls),
            SetOf(self.signers.as_slice()),
        ))
    }
}

impl Values for MultiData<'_> {
    ghost trees = { λ o. (signed_data o).trees };

    ghost writes = { λ o. (signed_data o).writes };

    fn encoded_len(&self, mode: Mode) -> Result<usize, EncodeError> {
        let value = self.fields();
        value.encoded_len(mode)
    }

    fn write_encoded<W: Write>(&self, mode: Mode, target: &mut W) -> Result<(), EncodeError> {
        let value = self.fields();
        value.write_encoded(mode, target)
    }

    ghost spelled = { λ o. (signed_data o).spelled };

    ghost one_text = { λ o. (signed_data o).one_text };
}

/// What is written of a signed object with several signers: its parts, of which it owns the octets of the attributes (RFC 5652
/// 3). Contracts see the parts.
#[derive(Drop)]
pub struct MultiValues<'a>(MultiData<'a>);

impl<'a> Model for MultiValues<'a> {
    ghost use Rattle.objects_rta_written.specs.Frames.{MultiParts};

    ghost Value = { MultiParts };

    ghost view = { λ o. o.0 };
}

impl Values for MultiValues<'_> {
    ghost trees = { λ o. (written_object o).trees };

    ghost writes = { λ o. (written_object o).writes };

    fn encoded_len(&self, mode: Mode) -> Result<usize, EncodeError> {
        let value = Sequence((Identifier(SIGNED_DATA), Context0(&self.0)));
        value.encoded_len(mode)
    }

    fn write_encoded<W: Write>(&self, mode: Mode, target: &mut W) -> Result<(), EncodeError> {
        let value = Sequence((Identifier(SIGNED_DATA), Context0(&self.0)));
        value.write_encoded(mode, target)
    }

    ghost spelled = { λ o. (written_object o).spelled };

    ghost one_text = { λ o. (written_object o).one_text };
}

// Whether what was signed of the certificate stands in DER.
fn is_cert_in_der(cert: &Cert) -> bool
    ensures { IsTrue result ↔ IsCertInDer cert.now }
{
    cert.signed_data().data().mode().is_der()
}

// Whether what was signed of the list stands in DER.
fn is_crl_in_der(crl: &Crl) -> bool
    ensures { IsTrue result ↔ IsCrlInDer crl.now }
{
    crl.signed_data().data().mode().is_der()
}

// Whether that is so of each certificate.
fn are_certs_in_der(certs: &[Cert]) -> bool
    ensures { IsTrue result ↔ All IsCertInDer certs.now }
{
    certs.iter().all(|cert| is_cert_in_der(cert))
}

// Whether that is so of each list.
fn are_crls_in_der(crls: &[Crl]) -> bool
    ensures { IsTrue result ↔ All IsCrlInDer crls.now }
{
    crls.iter().all(|crl| is_crl_in_der(crl))
}

// Whether that is so of all that the object carries.
fn are_carried_in_der(object: &MultiSignedObject) -> bool
    ensures { IsTrue result ↔ AreCarriedInDer object.now }
{
    are_certs_in_der(object.certificates()) && are_crls_in_der(object.crls())
}

// One signer more.
fn push<'a>(values: &mut Vec<SignerValues<'a>>, value: SignerValues<'a>) -> Result<(), EncodeError>
    ensures pushed { OnOk result (values.new.items ≡ values.old.items ++ value.entry ∷ []) }
    ensures refused { IfErr result (λ e. e ≡ memory_lacks) }
{
    match values.push(value) {
        Ok(()) => Ok(()),
        Err(_) => Err(EncodeError::Memory),
    }
}

// What is written of each signer.
fn signers_of(alloc: Global, signers: &[SignerInfo]) -> Result<Vec<SignerValues<'_>>, EncodeError>
    ensures parts { IfOk result (λ v. v.items ≡ map signer_parts (signers_seen signers.now)) }
    ensures stand { IfOk result (λ v. All IsSignerInDer (signers_seen signers.now)) }
    ensures refused { IfErr result (SignersRefused (signers_seen signers.now)) }
{
    let mut values = Vec::new(alloc);
    let mut rest = signers;
    while let Some((signer, others)) = rest.split_first() {
        let value = signer.encode_ref(alloc)?;
        push(&mut values, value)?;
        rest = others;
    }
    Ok(values)
}

// What is written of an object.
fn values_of(alloc: Global, object: &MultiSignedObject) -> Result<MultiValues<'_>, EncodeError>
    ensures parts { IfOk result (λ v. v ≡ parts_of object.now) }
    ensures stands { IfOk result (λ v. StandsInDer object.now) }
    ensures refused { IfErr result (PartsRefused object.now) }
{
    if !are_carried_in_der(object) {
        return Err(EncodeError::CerUnsupported);
    }
    let signers = signers_of(alloc, object.signer_infos())?;
    Ok(MultiValues(MultiData {
        content_type: object.content_type().as_slice(),
        content: octets_of(object.content()),
        certs: object.certificates(),
        crls: object.crls(),
        signers,
    }))
}

/// Signed objects with several signers that were read, and are written again.
pub trait EncodeMulti {
    // The object, by the standard's fields.
    ghost fields: { Self → Multi };

    /// What is written of the object: its certificates, its revocation lists and the attributes of its signers as they stood, and
    /// all else in the mode that is asked for; certificates, lists and signers in their order; the algorithm of digests without
    /// NULL, and that of each signature with NULL, whatever was read (RFC 5754 2, RFC 7935 2).
    ///
    /// `CerUnsupported` where attributes, or what was signed of a certificate or of a list, aren't values in DER, as can be of an
    /// object that was read in BER.
    fn encode_ref(&self, alloc: Global) -> Result<MultiValues<'_>, EncodeError>
        ensures parts { IfOk result (λ v. v ≡ parts_of (fields self.now)) }
        ensures refused { IfErr result (PartsRefused (fields self.now)) };

    /// The octets that are written in DER. An object that was read strictly is read again, strictly, with the same fields
    /// (`laws::objects_are_read_again`).
    ///
    /// `CerUnsupported` as by `encode_ref`; `TooLong` where a content has more than 2^32 - 1 octets.
    fn to_captured(&self, alloc: Global) -> Result<Captured, EncodeError>
        ensures written { IfOk result (λ c. WritesAgain (fields self.now) c.octets) }
        ensures mode { IfOk result (λ c. c.mode ≡ Der) }
        ensures refused { IfErr result (AgainRefused (fields self.now)) };
}

impl EncodeMulti for MultiSignedObject {
    ghost fields = { λ o. o };

    fn encode_ref(&self, alloc: Global) -> Result<MultiValues<'_>, EncodeError> {
        values_of(alloc, self)
    }

    fn to_captured(&self, alloc: Global) -> Result<Captured, EncodeError> {
        let values = values_of(alloc, self)?;
        text_of(alloc, &values)
    }
}

impl EncodeMulti for Rta {
    ghost fields = { λ r. r.signed };

    fn encode_ref(&self, alloc: Global) -> Result<MultiValues<'_>, EncodeError> {
        self.signed().encode_ref(alloc)
    }

    fn to_captured(&self, alloc: Global) -> Result<Captured, EncodeError> {
        self.signed().to_captured(alloc)
    }
}
