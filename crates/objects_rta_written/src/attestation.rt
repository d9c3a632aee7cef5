//! What is written of the content of an attestation (draft-ietf-sidrops-rpki-rta; this project's profile).

ghost use Rattle.std.specs.Prelude.{◌≡◌, IfErr, IfOk};
ghost use Rattle.objects_written.specs.bcder_tree.declared.mode.Mode.TheVariants.{Der};
ghost use Rattle.resources_ip.specs.WrittenFamilies.{both};
ghost use Rattle.objects_rta.specs.Attestations.{Attestation};
ghost use Rattle.objects_rta_written.specs.Contents.{AttestationRefused, PartsRefused, attestation, content_fields, key, parts_of, written_parts};

pub(crate) mod stated;

use crate::attestation::stated::{StatedValue, numbers_of};
use crate::der::text_of;
use crate::signer::octets_of;
use certs::written::{AlgorithmIdentifier, Captured, EncodeError, Mode, Sequence, Values};
use certs_key::encode::{Encodes, Slice, slice};
use certs_key::{DigestAlgorithm, KeyIdentifier};
use objects_rta::ResourceTaggedAttestation;
use objects_written::frame::attributes::{SetOf, StringValue};
use resources_as::AsBlocks;
use resources_ip::IpResources;
use std::alloc::Global;
use std::io::Write;
use std::marker::Model;

// Identifiers of keys, each as an OCTET STRING (RFC 6487 4.8.2).
#[derive(Drop)]
struct EachKey;

impl<'a> Encodes<'a, KeyIdentifier> for EachKey {
    type Given = StringValue<'a>;

    ghost trees = { λ e x m. (key x).trees m };

    ghost writes = { λ e x m. (key x).writes m };

    fn values_of(&self, item: &'a KeyIdentifier) -> StringValue<'a> {
        StringValue(item.as_slice())
    }

    ghost spelled = { λ e x m. (key x).spelled m };

    ghost one_text = { λ e x m. (key x).one_text m };
}

/// What is written of an attestation: a SEQUENCE of a SET of the identifiers of keys, of the resources that are stated, of the
/// algorithm of digests, and of the digest. Contracts see all but the constants.
#[derive(Drop)]
pub struct AttestationValue<'a> {
    keys: &'a [KeyIdentifier],
    asn: Option<AsBlocks>,
    v4: &'a IpResources,
    v6: &'a IpResources,
    digest: &'a [u8],
}

impl<'a> Model for AttestationValue<'a> {
    ghost use Rattle.resources_ip.specs.WrittenFamilies.{both};
    ghost use Rattle.objects_rta_written.specs.Contents.{ContentParts};

    ghost Value = { ContentParts };

    ghost view = { λ a. record {
      keys = a.keys.now;
      resources = record { asn = a.asn; addresses = both a.v4.now a.v6.now };
      digest = a.digest.now;
    } };
}

// The encoders of the fields.
type ContentEncoders<'b> = (
    SetOf<Slice<'b, KeyIdentifier, EachKey>>,
    StatedValue<'b>,
    AlgorithmIdentifier,
    StringValue<'b>,
);

impl<'a> AttestationValue<'a> {
    /// An attestation with these identifiers of keys, resources and digest, which are lent.
    pub(crate) fn new(
        keys: &'a [KeyIdentifier],
        asn: Option<AsBlocks>,
        v4: &'a IpResources,
        v6: &'a IpResources,
        digest: &'a [u8],
    ) -> AttestationValue<'a>
        ensures { result ≡ record {
          keys = keys.now;
          resources = record { asn = asn; addresses = both v4.now v6.now };
          digest = digest.now;
        } }
    {
        AttestationValue {
            keys,
            asn,
            v4,
            v6,
            digest,
        }
    }

    // The encoders of the fields, in a SEQUENCE.
    fn fields(&self) -> Sequence<ContentEncoders<'_>>
        ensures { (
          result.0.0.0.items.now,
          (result.0.1, (result.0.2, result.0.3.0.now)),
        )
            ≡ content_fields self.now }
    {
        let digest = DigestAlgorithm::default();
        Sequence((
            SetOf(slice(self.keys, EachKey)),
            StatedValue::new(&self.asn, self.v4, self.v6),
            digest.encode(),
            StringValue(self.digest),
        ))
    }
}

impl Values for AttestationValue<'_> {
    ghost trees = { λ a. (written_parts a).trees };

    ghost writes = { λ a. (written_parts a).writes };

    fn encoded_len(&self, mode: Mode) -> Result<usize, EncodeError> {
        let value = self.fields();
        value.encoded_len(mode)
    }

    fn write_encoded<W: Write>(&self, mode: Mode, target: &mut W) -> Result<(), EncodeError> {
        let value = self.fields();
        value.write_encoded(mode, target)
    }

    ghost spelled = { λ a. (written_parts a).spelled };

    ghost one_text = { λ a. (written_parts a).one_text };
}

/// Attestations that are written.
pub trait EncodeAttestation {
    // What is attested.
    ghost said: { Self → Attestation };

    /// What is written of the attestation: the version, which is the default, is left out (X.690 11.5), and identifiers of keys
    /// are written in their order. The set of AS numbers is shared, and `Memory` comes of the count of its owners.
    ///
    /// `CerUnsupported` where the AS numbers are those of an issuer, which no attestation that was read states.
    fn encode_ref(&self) -> Result<AttestationValue<'_>, EncodeError>
        ensures parts { IfOk result (λ v. v ≡ parts_of (said self.now)) }
        ensures refused { IfErr result (PartsRefused (said self.now)) };

    /// The octets that are written in DER. An attestation that was read is read again of them, as the same
    /// (`laws::contents_are_read_again`).
    ///
    /// `CerUnsupported` as by `encode_ref`; `TooLong` where a content has more than 2^32 - 1 octets.
    fn to_captured(&self, alloc: Global) -> Result<Captured, EncodeError>
        ensures written { IfOk result (λ c. (attestation (said self.now)).writes Der c.octets) }
        ensures mode { IfOk result (λ c. c.mode ≡ Der) }
        ensures refused { IfErr result (AttestationRefused (said self.now)) };
}

impl EncodeAttestation for ResourceTaggedAttestation {
    ghost said = { λ a. a };

    fn encode_ref(&self) -> Result<AttestationValue<'_>, EncodeError> {
        let asn = numbers_of(self.as_resources())?;
        Ok(AttestationValue::new(
            self.subject_keys(),
            asn,
            self.v4_resources(),
            self.v6_resources(),
            octets_of(self.message_digest()),
        ))
    }

    fn to_captured(&self, alloc: Global) -> Result<Captured, EncodeError> {
        let values = self.encode_ref()?;
        text_of(alloc, &values)
    }
}
