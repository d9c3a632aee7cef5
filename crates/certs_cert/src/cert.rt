//! Certificates.

ghost use Rattle.std.specs.Prelude.{◌≡◌, IfErr, IfOk};
ghost use Rattle.certs_cert.specs.bcder_tree.declared.mode.Mode.TheVariants.{Der};
ghost use Rattle.certs_cert.specs.Whole.{signed_of};
ghost use Rattle.certs_cert.specs.Written.{RefusesCert, WritesCert};

use crate::tbs::TbsCert;
use certs_extension::Captured;
use certs_extension::claims::with_value;
use certs_extension::encode::EncodeError;
use certs_x509::signed::{SignedData, SignedDataValues};
use std::alloc::{AllocError, Global};
use std::marker::Model;

/// A certificate: signed octets with their signature, and the fields that the octets spell (RFC
/// 5280 4.1.1). Contracts see both.
#[derive(Debug, Drop)]
pub struct Cert {
    signed: SignedData,
    tbs: TbsCert,
}

impl Model for Cert {
    ghost use Rattle.certs_extension.specs.Cert.{CertValue};
    ghost use Rattle.certs_cert.specs.Whole.{signed_of};

    ghost Value = { CertValue };

    ghost view = { λ c. record { signed = signed_of c.signed; tbs = c.tbs } };
}

/// What is written of a certificate: a SEQUENCE of the octets that were signed, the algorithm and
/// the signature.
pub type CertValues<'a> = SignedDataValues<'a>;

impl Cert {
    /// The certificate of signed octets, and of the fields that they spell: for builders. Nothing is
    /// tested.
    pub fn from_parts(signed: SignedData, tbs: TbsCert) -> Cert
        ensures { result ≡ record { signed = signed_of signed; tbs = tbs } }
    {
        Cert { signed, tbs }
    }

    /// The signed octets, and the signature over them.
    pub fn signed_data(&self) -> &SignedData
        ensures { signed_of result.now ≡ self.now.signed }
    {
        &self.signed
    }

    /// The fields.
    pub fn tbs(&self) -> &TbsCert
        ensures { result.now ≡ self.now.tbs }
    {
        &self.tbs
    }

    /// What is written of the certificate: what was signed is written as it stood.
    pub fn encode_ref(&self) -> CertValues<'_>
        ensures { signed_of result ≡ self.now.signed }
    {
        self.signed.encode_ref()
    }

    /// What is written of the certificate in DER. `CerUnsupported` where the octets that were signed
    /// stand in another mode; `TooLong` where they stand in DER, and a content would have more than
    /// 2^32 - 1 octets; `Memory` only where something can be written.
    pub fn to_captured(&self, alloc: Global) -> Result<Captured, EncodeError>
        ensures captured { IfOk result (λ c. WritesCert self.now Der c.octets) }
        ensures mode { IfOk result (λ c. c.mode ≡ Der) }
        ensures refused { IfErr result (RefusesCert self.now) }
    {
        self.encode_ref().in_der(alloc)
    }
}

/// A clone has the same signed octets, signature and fields. Octets and sets are shared, so that
/// memory is taken for the purposes of the key alone; but a count of copies can be full.
impl Clone for Cert {
    ghost is_clone = { λ cert copy. copy ≡ cert };

    fn clone(&self) -> Result<Self, AllocError> {
        let signed = self.signed.clone()?;
        let (signed, tbs) = with_value(signed, self.tbs.clone())?;
        Ok(Cert { signed, tbs })
    }
}
