//! The fields of a certificate, written (RFC 5280 4.1).

ghost use Rattle.std.specs.Prelude.{◌≡◌};
ghost use Rattle.certs.specs.Tbs.{tbs, tbs_parts};

use crate::built::extensions::ExtensionsValue;
use crate::written::{
    AlgorithmIdentifier, Context0, Context3, EncodeError, Mode, Name, PublicKey, Sequence,
    SerialValue, SignatureAlgorithm, TimeValue, Values, Version,
};
use certs_cert::TbsCert;
use std::io::Write;
use std::marker::Model;

// The number that stands for version 3 (RFC 5280 4.1.2.1).
const VERSION: u8 = 2;

/// What is written of a certificate's fields: a SEQUENCE of them, with the extensions in the order of
/// the profile (RFC 5280 4.1, RFC 6487 4). Contracts see the fields.
#[derive(Drop)]
pub struct TbsCertValues<'a>(&'a TbsCert);

impl<'a> Model for TbsCertValues<'a> {
    ghost use Rattle.certs.specs.certs_extension.Cert.{TbsValue};

    ghost Value = { TbsValue };

    ghost view = { λ v. v.0.now };
}

// The encoders of the fields.
type Fields<'a> = (
    Context0<Version>,
    SerialValue,
    AlgorithmIdentifier,
    &'a Name,
    Sequence<(TimeValue, TimeValue)>,
    &'a Name,
    &'a PublicKey,
    Context3<Sequence<ExtensionsValue<'a>>>,
);

impl<'a> TbsCertValues<'a> {
    // What is written of these fields.
    pub(crate) fn new(tbs: &'a TbsCert) -> TbsCertValues<'a>
        ensures { result ≡ tbs.now }
    {
        TbsCertValues(tbs)
    }

    // The encoders of the fields, in a SEQUENCE.
    fn fields(&self) -> Sequence<Fields<'a>>
        ensures { (
          result.0.0.0.0,
          (
            result.0.1.0,
            (
              result.0.2,
              (
                result.0.3.now,
                (
                  (result.0.4.0.0.0, result.0.4.0.1.0),
                  (result.0.5.now, (result.0.6.now, result.0.7.0.0)),
                ),
              ),
            ),
          ),
        )
            ≡ tbs_parts self.now }
    {
        let tbs = self.0;
        let validity = tbs.validity();
        Sequence((
            Context0(Version(VERSION)),
            SerialValue(tbs.serial_number()),
            tbs.signature().x509_encode(),
            tbs.issuer(),
            Sequence((
                TimeValue(validity.not_before()),
                TimeValue(validity.not_after()),
            )),
            tbs.subject(),
            tbs.subject_public_key_info(),
            Context3(Sequence(ExtensionsValue::new(tbs))),
        ))
    }
}

/// A SEQUENCE of the fields.
///
/// `CerUnsupported` in CER, and where a name is kept in a mode that isn't the one that is wanted, unless
/// that is BER; `TooLong` where a content has more than 2^32 - 1 octets.
impl Values for TbsCertValues<'_> {
    ghost trees = { λ c. (tbs c).trees };

    ghost writes = { λ c. (tbs c).writes };

    fn encoded_len(&self, mode: Mode) -> Result<usize, EncodeError> {
        let value = self.fields();
        value.encoded_len(mode)
    }

    fn write_encoded<W: Write>(&self, mode: Mode, target: &mut W) -> Result<(), EncodeError> {
        let value = self.fields();
        value.write_encoded(mode, target)
    }

    ghost spelled = { λ c. (tbs c).spelled };

    ghost one_text = { λ c. (tbs c).one_text };
}
