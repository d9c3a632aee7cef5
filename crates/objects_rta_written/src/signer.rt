//! What one signer signed, written again (RFC 5652 5.3).

ghost use Rattle.std.specs.Prelude.{◌≡◌, IfErr, IfOk, IfSome, OnErr, true};
ghost use Rattle.objects_written.specs.bcder_tree.declared.mode.Mode.TheVariants.{Der};
ghost use Rattle.objects_written.specs.bcder_tree.Tags.{sequence_tag};
ghost use Rattle.objects_written.specs.bcder_content.Kept.{SpellsValues};
ghost use Rattle.objects_written.specs.bcder_content.Exact.{ReadsOptAs};
ghost use Rattle.objects_written.specs.bcder_content.Here.{here};
ghost use Rattle.objects_written.specs.objects_payload.ObjectText.{SignerFields as FieldsOf, SpellsSigner, signer_of};
ghost use Rattle.objects_written.specs.Frames.{signer};
ghost use Rattle.objects_rta.specs.certs_x509.Took.{TookOctets};
ghost use Rattle.objects_rta.specs.objects_cms.Signer.{IsSigner, signer_fields};
ghost use Rattle.objects_rta_written.specs.Again.{signer_parts};
ghost use Rattle.objects_written.specs.Taking.{DerRefused};

use certs::written::{EncodeError, Time, Values};
use certs_key::decode::{Constructed, DecodeError, Source};
use certs_key::{Captured, KeyIdentifier, Mode, OctetString};
use objects_rta::SignerInfo;
use objects_rta::signers::take_opt_signer;
use objects_written::der::in_der;
use objects_written::frame::SignerValue;
use std::alloc::Global;
use std::io::Write;
use std::marker::Model;

/// What is written of a signer that was read: the identifier of its key, the octets of its attributes, which it owns, and the
/// signature. Contracts see the three.
#[derive(Drop)]
pub struct SignerValues<'a> {
    sid: KeyIdentifier,
    attributes: Captured,
    signature: &'a [u8],
}

impl<'a> Model for SignerValues<'a> {
    ghost use Rattle.objects_written.specs.Frames.{SignerParts};

    ghost Value = { SignerParts };

    ghost view = { λ s. record {
      sid = s.sid;
      attributes = s.attributes;
      signature = s.signature.now;
    } };
}

impl<'a> SignerValues<'a> {
    // What is written, lent.
    fn lent(&self) -> SignerValue<'_>
        ensures { result ≡ self.now }
    {
        SignerValue::new(self.sid.as_slice(), &self.attributes, self.signature)
    }
}

impl Values for SignerValues<'_> {
    ghost trees = { λ s. (signer s).trees };

    ghost writes = { λ s. (signer s).writes };

    fn encoded_len(&self, mode: Mode) -> Result<usize, EncodeError> {
        let value = self.lent();
        value.encoded_len(mode)
    }

    fn write_encoded<W: Write>(&self, mode: Mode, target: &mut W) -> Result<(), EncodeError> {
        let value = self.lent();
        value.write_encoded(mode, target)
    }

    ghost spelled = { λ s. (signer s).spelled };

    ghost one_text = { λ s. (signer s).one_text };
}

// The octets of a string, which lie in one piece.
pub(crate) fn octets_of(string: &OctetString) -> &[u8]
    ensures { result.now ≡ string.now }
{
    string.as_slice().unwrap_or(&[])
}

/// Signers that are read and written again.
pub trait EncodeSigner: Sized {
    // What is said of a signer.
    ghost fields: { Self → FieldsOf };

    /// When the content was signed, if the signer says so (RFC 5652 11.3).
    fn signing_time(&self) -> Option<Time>
        ensures { result ≡ (signer_of (fields self.now)).signing_time };

    /// What is written of the signer: its attributes as they stood, and all else in the mode that is asked for; the algorithm of
    /// its digest without NULL, and that of its signature with NULL, whatever was read (RFC 5754 2, RFC 7935 2).
    ///
    /// `CerUnsupported` where the attributes aren't values in DER, as can be of an object that was read in BER.
    fn encode_ref(&self, alloc: Global) -> Result<SignerValues<'_>, EncodeError>
        ensures parts { IfOk result (λ v. v ≡ signer_parts (signer_of (fields self.now))) }
        ensures stands { IfOk result
            (λ v. SpellsValues Der (signer_of (fields self.now)).attributes) }
        ensures refused { IfErr result (DerRefused (signer_of (fields self.now)).attributes) };

    /// The signer that is next, if a SEQUENCE is next: by values in each mode, and by the very octets that stood there
    /// (RFC 5652 5.3); one that is no signer is refused.
    fn take_opt_from<S: Source>(
        alloc: Global,
        cons: &mut Constructed<S>,
    ) -> Result<Option<Self>, DecodeError<S::Error>>
        ensures reads { ReadsOptAs fields sequence_tag (IsSigner (here S.rest cons.old).mode)
            (here S.rest cons.old) result (here S.rest cons.new) }
        ensures octets { IfOk result (λ o. IfSome o (λ s. TookOctets fields SpellsSigner
            (here S.rest cons.old) s (here S.rest cons.new))) }
        ensures failed { OnErr result ((here S.rest cons.new).failed ≡ true) };
}

impl EncodeSigner for SignerInfo {
    ghost fields = { signer_fields };

    fn signing_time(&self) -> Option<Time> {
        self.attributes().attributes().signing_time
    }

    fn encode_ref(&self, alloc: Global) -> Result<SignerValues<'_>, EncodeError> {
        let attributes = in_der(alloc, self.attributes().as_slice())?;
        Ok(SignerValues {
            sid: self.sid(),
            attributes,
            signature: octets_of(self.signature()),
        })
    }

    fn take_opt_from<S: Source>(
        alloc: Global,
        cons: &mut Constructed<S>,
    ) -> Result<Option<Self>, DecodeError<S::Error>> {
        take_opt_signer(alloc, cons)
    }
}
