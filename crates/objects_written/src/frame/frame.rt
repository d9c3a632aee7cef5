//! Signed objects, written (RFC 5652 3, 5; RFC 6488 2).

ghost use Rattle.std.specs.Prelude.{◌≡◌};
ghost use Rattle.objects_written.specs.bcder_tree.Tags.{context};
ghost use Rattle.objects_written.specs.bcder.Kinds.{octets_at};
ghost use Rattle.objects_written.specs.Frames.{object, signed_data, signed_fields, signer, signer_fields};

use crate::frame::attributes::{OidValue, SetOf, StringValue};
use certs::written::{
    Captured, Context0, EncodeError, Identifier, Mode, Sequence, Values, Version,
};
use certs_key::oid::SIGNED_DATA;
use certs_key::string::OctetSliceEncoder;
use certs_key::{AlgorithmIdentifier, DigestAlgorithm, RpkiSignatureAlgorithm, Tag};
use std::io::Write;
use std::marker::Model;

// The number that stands for the version of signed data, and of signers by key identifier (RFC 5652 5.1, 5.3).
const VERSION: u8 = 3;

/// The identifier of a signer's key: an OCTET STRING with the tag [0] (RFC 5652 5.3).
#[derive(Drop)]
pub struct SidValue<'a>(&'a [u8]);

impl Values for SidValue<'_> {
    ghost trees = { λ x. (octets_at (context 0)).trees x.0.now };

    ghost writes = { λ x. (octets_at (context 0)).writes x.0.now };

    fn encoded_len(&self, mode: Mode) -> Result<usize, EncodeError> {
        let value = OctetSliceEncoder {
            tag: Tag::CTX_0,
            octets: self.0,
        };
        value.encoded_len(mode)
    }

    fn write_encoded<W: Write>(&self, mode: Mode, target: &mut W) -> Result<(), EncodeError> {
        let value = OctetSliceEncoder {
            tag: Tag::CTX_0,
            octets: self.0,
        };
        value.write_encoded(mode, target)
    }

    ghost spelled = { λ x. (octets_at (context 0)).spelled x.0.now };

    ghost one_text = { λ x. (octets_at (context 0)).one_text x.0.now };
}

/// What one signer signed: a SEQUENCE of the version, of the identifier of its key, of the algorithm of digests, of the
/// attributes, of the algorithm of the signature, and of the signature (RFC 5652 5.3). Contracts see all but the constants.
#[derive(Drop)]
pub struct SignerValue<'a> {
    sid: &'a [u8],
    attributes: &'a Captured,
    signature: &'a [u8],
}

impl<'a> Model for SignerValue<'a> {
    ghost use Rattle.objects_written.specs.Frames.{SignerParts};

    ghost Value = { SignerParts };

    ghost view = { λ s. record {
      sid = s.sid.now;
      attributes = s.attributes.now;
      signature = s.signature.now;
    } };
}

// The encoders of a signer's fields.
type SignerEncoders<'a> = (
    Version,
    SidValue<'a>,
    AlgorithmIdentifier,
    Context0<&'a Captured>,
    AlgorithmIdentifier,
    StringValue<'a>,
);

impl<'a> SignerValue<'a> {
    /// What one signer signed.
    pub fn new(sid: &'a [u8], attributes: &'a Captured, signature: &'a [u8]) -> SignerValue<'a>
        ensures { result ≡ record {
          sid = sid.now;
          attributes = attributes.now;
          signature = signature.now;
        } }
    {
        SignerValue {
            sid,
            attributes,
            signature,
        }
    }

    // The encoders of the fields, in a SEQUENCE.
    fn fields(&self) -> Sequence<SignerEncoders<'a>>
        ensures { (
          result.0.0.0,
          (
            result.0.1.0.now,
            (result.0.2, (result.0.3.0.now, (result.0.4, result.0.5.0.now))),
          ),
        )
            ≡ signer_fields self.now }
    {
        let digest = DigestAlgorithm::default();
        let algorithm = RpkiSignatureAlgorithm::default();
        Sequence((
            Version(VERSION),
            SidValue(self.sid),
            digest.encode(),
            Context0(self.attributes),
            algorithm.cms_encode(),
            StringValue(self.signature),
        ))
    }
}

impl Values for SignerValue<'_> {
    ghost trees = { λ s. (signer s).trees };

    ghost writes = { λ s. (signer s).writes };

    fn encoded_len(&self, mode: Mode) -> Result<usize, EncodeError> {
        let value = self.fields();
        value.encoded_len(mode)
    }

    fn write_encoded<W: Write>(&self, mode: Mode, target: &mut W) -> Result<(), EncodeError> {
        let value = self.fields();
        value.write_encoded(mode, target)
    }

    ghost spelled = { λ s. (signer s).spelled };

    ghost one_text = { λ s. (signer s).one_text };
}

/// The data of a signed object: a SEQUENCE of the version, of a SET of the algorithm of digests, of the content with its
/// type, of the certificate, and of a SET of the signer (RFC 5652 5.1). Contracts see all but the constants.
#[derive(Drop)]
pub struct SignedDataValue<'a> {
    content_type: &'a [u8],
    content: &'a [u8],
    cert: &'a Captured,
    signer: &'a SignerValue<'a>,
}

impl<'a> Model for SignedDataValue<'a> {
    ghost use Rattle.objects_written.specs.Frames.{ObjectParts};

    ghost Value = { ObjectParts };

    ghost view = { λ o. record {
      content_type = o.content_type.now;
      content = o.content.now;
      cert = o.cert.now;
      signer = o.signer.now;
    } };
}

// The content with its type.
type ContentInfo<'a> = Sequence<(OidValue<'a>, Context0<StringValue<'a>>)>;

// The encoders of the fields of signed data.
type SignedEncoders<'a> = (
    Version,
    SetOf<AlgorithmIdentifier>,
    ContentInfo<'a>,
    Context0<&'a Captured>,
    SetOf<&'a SignerValue<'a>>,
);

impl<'a> SignedDataValue<'a> {
    // The encoders of the fields, in a SEQUENCE.
    fn fields(&self) -> Sequence<SignedEncoders<'a>>
        ensures { (
          result.0.0.0,
          (
            result.0.1.0,
            (
              result.0.2.0.0.0.now,
              (result.0.2.0.1.0.0.now, (result.0.3.0.now, result.0.4.0.now)),
            ),
          ),
        )
            ≡ signed_fields self.now }
    {
        let digest = DigestAlgorithm::default();
        let content = Sequence((
            OidValue(self.content_type),
            Context0(StringValue(self.content)),
        ));
        Sequence((
            Version(VERSION),
            SetOf(digest.encode()),
            content,
            Context0(self.cert),
            SetOf(self.signer),
        ))
    }
}

impl Values for SignedDataValue<'_> {
    ghost trees = { λ o. (signed_data o).trees };

    ghost writes = { λ o. (signed_data o).writes };

    fn encoded_len(&self, mode: Mode) -> Result<usize, EncodeError> {
        let value = self.fields();
        value.encoded_len(mode)
    }

    fn write_encoded<W: Write>(&self, mode: Mode, target: &mut W) -> Result<(), EncodeError> {
        let value = self.fields();
        value.write_encoded(mode, target)
    }

    ghost spelled = { λ o. (signed_data o).spelled };

    ghost one_text = { λ o. (signed_data o).one_text };
}

/// A signed object: `SEQUENCE { contentType (signedData), content [0] EXPLICIT SignedData }` (RFC 5652 3). Contracts see all
/// but the constants.
#[derive(Drop)]
pub struct ObjectValue<'a>(SignedDataValue<'a>);

impl<'a> Model for ObjectValue<'a> {
    ghost use Rattle.objects_written.specs.Frames.{ObjectParts};

    ghost Value = { ObjectParts };

    ghost view = { λ o. o.0 };
}

impl<'a> ObjectValue<'a> {
    /// A content of that type, with the certificate and the signer.
    pub fn new(
        content_type: &'a [u8],
        content: &'a [u8],
        cert: &'a Captured,
        signer: &'a SignerValue<'a>,
    ) -> ObjectValue<'a>
        ensures { result ≡ record {
          content_type = content_type.now;
          content = content.now;
          cert = cert.now;
          signer = signer.now;
        } }
    {
        ObjectValue(SignedDataValue {
            content_type,
            content,
            cert,
            signer,
        })
    }
}

impl Values for ObjectValue<'_> {
    ghost trees = { λ o. (object o).trees };

    ghost writes = { λ o. (object o).writes };

    fn encoded_len(&self, mode: Mode) -> Result<usize, EncodeError> {
        let value = Sequence((Identifier(SIGNED_DATA), Context0(&self.0)));
        value.encoded_len(mode)
    }

    fn write_encoded<W: Write>(&self, mode: Mode, target: &mut W) -> Result<(), EncodeError> {
        let value = Sequence((Identifier(SIGNED_DATA), Context0(&self.0)));
        value.write_encoded(mode, target)
    }

    ghost spelled = { λ o. (object o).spelled };

    ghost one_text = { λ o. (object o).one_text };
}
