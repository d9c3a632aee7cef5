//! Revocation lists.

ghost use Rattle.std.specs.Prelude.{◌≡◌, ◌↔◌, ◌≤◌, ◌+◌, ◌-◌, ◌^◌, min, false, true, IfErr, IfOk, IfSome, IsOk, IsSome, IsTrue, OnErr, OnOk};
ghost use Rattle.certs_crl.specs.bcder_tree.declared.mode.Mode.TheVariants.{Der};
ghost use Rattle.certs_crl.specs.Caches.{IsCache, IsLeft, IsLookedUp};
ghost use Rattle.certs_crl.specs.Fields.{as_list, fields_of};
ghost use Rattle.certs_crl.specs.Whole.{signed_of};
ghost use Rattle.certs_crl.specs.Written.{RefusesCrl, WritesCrl};
ghost use Rattle.certs_x509.specs.declared.errors.verification.VerificationError.TheVariants.{BadSignature};
ghost use Rattle.certs_x509.specs.certs_extension.CrlText.{IsOn};

use crate::tbs::TbsCertList;
use bcder::Captured;
use bcder::encode::EncodeError;
use certs_name::Serial;
use certs_x509::errors::VerificationError;
use certs_x509::revoked::{RevokedCertificates, SerialCache};
use certs_x509::signed::{PublicKey, SignedData, SignedDataValues, Verifier};
use std::alloc::{AllocError, Global};
use std::marker::Model;

/// A revocation list: signed octets with their signature, and the fields that the octets spell (RFC 5280 5.1.1). Contracts
/// see both, and whether serial numbers are kept aside.
#[derive(Debug, Drop)]
pub struct Crl {
    signed: SignedData,
    tbs: TbsCertList<RevokedCertificates>,
    serials: Option<SerialCache>,
}

impl Model for Crl {
    ghost use Rattle.std.specs.Prelude.{is_some};
    ghost use Rattle.certs_x509.specs.certs_extension.CrlText.{CrlValue};
    ghost use Rattle.certs_crl.specs.Caches.{IsCached};
    ghost use Rattle.certs_crl.specs.Fields.{as_list};
    ghost use Rattle.certs_crl.specs.Whole.{signed_of};

    ghost Value = { CrlValue };

    ghost view = { λ c. record {
      signed = signed_of c.signed;
      tbs = as_list c.tbs;
      caches = is_some c.serials;
    } };

    ghost invariant = { λ c. IsCached c.tbs.revoked c.serials };
}

/// What is written of a list: a SEQUENCE of the octets that were signed, the algorithm and the signature.
pub type CrlValues<'a> = SignedDataValues<'a>;

impl Crl {
    // The list of signed octets, and of the fields that were read of them. No serial numbers are kept aside.
    pub(crate) fn from_parts(signed: SignedData, tbs: TbsCertList<RevokedCertificates>) -> Crl
        ensures { result
            ≡ record { signed = signed_of signed; tbs = as_list tbs; caches = false } }
    {
        Crl {
            signed,
            tbs,
            serials: None,
        }
    }

    /// The signed octets, and the signature over them.
    pub fn signed_data(&self) -> &SignedData
        ensures { signed_of result.now ≡ self.now.signed }
    {
        &self.signed
    }

    /// The fields.
    pub fn as_cert_list(&self) -> &TbsCertList<RevokedCertificates>
        ensures { result.now ≡ fields_of self.now.tbs }
    {
        &self.tbs
    }

    /// Keeps the serial numbers aside, sorted, so that one is found by halving. Nothing else of the list changes, and
    /// nothing at all where memory is refused.
    pub fn cache_serials(&mut self, alloc: Global) -> Result<(), AllocError>
        ensures kept { OnOk result (self.new ≡ record self.old { caches = true }) }
        ensures same { OnErr result (self.new ≡ self.old) }
    {
        let cache = SerialCache::new(alloc, self.tbs.revoked_certs())?;
        self.serials = Some(cache);
        Ok(())
    }

    /// Whether a certificate with that serial number is on the list: by the serial numbers that are kept aside, if any,
    /// and else by the entries, one by one. It takes no memory.
    pub fn contains(&self, serial: Serial) -> bool
        ensures { IsTrue result ↔ IsOn self.now serial }
    {
        match &self.serials {
            Some(cache) => cache.contains(serial),
            None => self.tbs.revoked_certs().contains(serial),
        }
    }

    /// The serial numbers, where they are kept aside: those of the entries, each once, ascending.
    pub fn cached_serials(&self) -> Option<&SerialCache>
        ensures there { IsSome result ↔ (self.now.caches ≡ true) }
        ensures cache { IfSome result (λ cache. IsCache self.now.tbs.revoked cache.now) }
    {
        self.serials.as_ref()
    }

    /// The place of the serial number among those that are kept aside, each once, ascending; none where it isn't on the
    /// list, and where none are kept. The looks at serial numbers that it takes are added to `probes`: at most as many as
    /// the count of those that are kept has binary digits.
    pub fn cached_position(&self, serial: Serial, probes: &mut u64) -> Option<usize>
        requires { probes.old ≤ 18446744073709551551 }
        ensures cached { self.now.caches ≡ true
            → IsLookedUp self.now.tbs.revoked serial probes.old probes.new result }
        ensures uncached { self.now.caches ≡ false → IsLeft probes.old probes.new result }
    {
        match &self.serials {
            Some(cache) => cache.position(serial, probes),
            None => None,
        }
    }

    /// Whether the signature is one of that key, over the very octets that stood there; else `BadSignature`. The verifier
    /// is asked just once: with the key, the algorithm, these octets, and those of the signature.
    pub fn verify_signature<V: Verifier>(
        &self,
        key: &PublicKey,
        verifier: &mut V,
    ) -> Result<(), VerificationError>
        ensures answer { IsOk result ↔ (V.says verifier.old key.now self.now.signed.has_null
            self.now.signed.message self.now.signed.signature ≡ true) }
        ensures refused { IfErr result (λ e. e ≡ BadSignature) }
        ensures same { V.says verifier.new ≡ V.says verifier.old }
        ensures counted { V.count verifier.new ≡ min (V.count verifier.old + 1) (2 ^ 64 - 1) }
    {
        self.signed.verify_signature(key, verifier)
    }

    /// What is written of the list: what was signed is written as it stood.
    pub fn encode_ref(&self) -> CrlValues<'_>
        ensures { signed_of result ≡ self.now.signed }
    {
        self.signed.encode_ref()
    }

    /// What is written of the list in DER. `CerUnsupported` where the octets that were signed stand in another mode;
    /// `TooLong` where they stand in DER, and a content would have more than 2^32 - 1 octets; `Memory` only where
    /// something can be written.
    pub fn to_captured(&self, alloc: Global) -> Result<Captured, EncodeError>
        ensures captured { IfOk result (λ c. WritesCrl self.now Der c.octets) }
        ensures mode { IfOk result (λ c. c.mode ≡ Der) }
        ensures refused { IfErr result (RefusesCrl self.now) }
    {
        self.encode_ref().in_der(alloc)
    }
}

// A copy of the serial numbers that are kept aside, if any.
fn cache_copied(serials: &Option<SerialCache>) -> Result<Option<SerialCache>, AllocError>
    ensures { IfOk result (λ copy. copy ≡ serials.now) }
{
    match serials {
        Some(cache) => Ok(Some(cache.clone()?)),
        None => Ok(None),
    }
}

/// A clone has the same signed octets, signature and fields, and keeps the same serial numbers aside. Octets aren't copied,
/// those serial numbers are.
impl Clone for Crl {
    ghost is_clone = { λ crl copy. copy ≡ crl };

    fn clone(&self) -> Result<Self, AllocError> {
        let serials = cache_copied(&self.serials)?;
        let tbs = self.tbs.clone()?;
        let signed = self.signed.clone()?;
        Ok(Crl {
            signed,
            tbs,
            serials,
        })
    }
}
