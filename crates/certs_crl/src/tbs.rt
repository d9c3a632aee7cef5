//! What is signed of a revocation list.

ghost use Rattle.std.specs.Prelude.{◌≡◌, ◌<◌, ◌↔◌, IsTrue};

use certs_basics::time::Time;
use certs_key::algorithm::RpkiSignatureAlgorithm;
use certs_name::{Name, Serial};
use certs_x509::revoked::RevokedCertificates;
use certs_x509::signed::KeyIdentifier;
use std::alloc::AllocError;
use std::marker::Model;

/// What is signed of a revocation list: its fields and its two extensions (RFC 5280 5.1.2, RFC 6487 5), with a `C` that
/// holds the revoked certificates. Contracts see all of them.
#[derive(Debug, Drop)]
pub struct TbsCertList<C> {
    pub(crate) signature: RpkiSignatureAlgorithm,
    pub(crate) issuer: Name,
    pub(crate) this_update: Time,
    pub(crate) next_update: Time,
    pub(crate) revoked_certs: C,
    pub(crate) authority_key_id: KeyIdentifier,
    pub(crate) crl_number: Serial,
}

impl<C> Model for TbsCertList<C> {
    ghost use Rattle.certs_crl.specs.Fields.{ListOf};

    ghost Value = { ListOf C };

    ghost view = { λ t. record {
      has_null = t.signature;
      issuer = t.issuer;
      this_update = t.this_update;
      next_update = t.next_update;
      revoked = t.revoked_certs;
      authority_key_identifier = t.authority_key_id;
      number = t.crl_number;
    } };
}

impl<C> TbsCertList<C> {
    /// A list with these fields and extensions.
    pub fn new(
        signature: RpkiSignatureAlgorithm,
        issuer: Name,
        this_update: Time,
        next_update: Time,
        revoked_certs: C,
        authority_key_id: KeyIdentifier,
        crl_number: Serial,
    ) -> TbsCertList<C>
        ensures { result ≡ record {
          has_null = signature;
          issuer = issuer;
          this_update = this_update;
          next_update = next_update;
          revoked = revoked_certs;
          authority_key_identifier = authority_key_id;
          number = crl_number;
        } }
    {
        TbsCertList {
            signature,
            issuer,
            this_update,
            next_update,
            revoked_certs,
            authority_key_id,
            crl_number,
        }
    }

    /// The algorithm with which the list is signed.
    pub fn signature(&self) -> RpkiSignatureAlgorithm
        ensures { result ≡ self.now.has_null }
    {
        self.signature
    }

    /// The name of the issuer.
    pub fn issuer(&self) -> &Name
        ensures { result.now ≡ self.now.issuer }
    {
        &self.issuer
    }

    /// When the list was made.
    pub fn this_update(&self) -> Time
        ensures { result ≡ self.now.this_update }
    {
        self.this_update
    }

    /// When the next list is made at the latest.
    pub fn next_update(&self) -> Time
        ensures { result ≡ self.now.next_update }
    {
        self.next_update
    }

    /// Whether the next list should have been made before that moment (RFC 5280 5.1.2.5).
    pub fn is_stale(&self, now: Time) -> bool
        ensures { IsTrue result ↔ (self.now.next_update < now) }
    {
        self.next_update < now
    }

    /// What holds the revoked certificates.
    pub fn revoked_certs(&self) -> &C
        ensures { result.now ≡ self.now.revoked }
    {
        &self.revoked_certs
    }

    /// The identifier of the key with which the list is signed.
    pub fn authority_key_identifier(&self) -> &KeyIdentifier
        ensures { result.now ≡ self.now.authority_key_identifier }
    {
        &self.authority_key_id
    }

    /// The number of the list.
    pub fn crl_number(&self) -> Serial
        ensures { result ≡ self.now.number }
    {
        self.crl_number
    }
}

/// A clone has the same fields. It takes no memory, but a count of copies can be full.
impl Clone for TbsCertList<RevokedCertificates> {
    ghost is_clone = { λ list copy. copy ≡ list };

    fn clone(&self) -> Result<Self, AllocError> {
        let issuer = self.issuer.clone()?;
        let revoked_certs = self.revoked_certs.clone()?;
        Ok(TbsCertList {
            signature: self.signature,
            issuer,
            this_update: self.this_update,
            next_update: self.next_update,
            revoked_certs,
            authority_key_id: self.authority_key_id,
            crl_number: self.crl_number,
        })
    }
}
