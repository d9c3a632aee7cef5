//! The key of a certificate, and the identifiers of keys (RFC 5280 4.1.2.7, 4.2.1.1, 4.2.1.2).

ghost use Rattle.std.specs.Prelude.{◌≡◌, ◌↔◌, ◌⊎◌, IsTrue, Some, None};
ghost use Rattle.certs_cert.specs.certs_key.Digesting.{digests_of};
ghost use Rattle.certs_cert.specs.certs_basics.Keys.{identifier};

use crate::tbs::TbsCert;
use certs_x509::signed::{Digester, KeyIdentifier, PublicKey};

impl TbsCert {
    /// The key of the subject (RFC 5280 4.1.2.7).
    pub fn subject_public_key_info(&self) -> &PublicKey
        ensures { result.now ≡ self.now.key }
    {
        &self.subject_public_key_info
    }

    /// Sets the key of the subject and, with it, the subject key identifier, which is the key's.
    pub fn set_subject_public_key<D: Digester>(&mut self, key: PublicKey, digester: &D)
        ensures { self.new ≡ record self.old {
          key = key;
          subject_key_identifier =
              identifier (digests_of D.sha256_digest D.sha1_digest digester.now) key;
        } }
    {
        self.subject_key_identifier = key.key_identifier(digester);
        self.subject_public_key_info = key;
    }

    /// The identifier of the subject's key, as the certificate has it (RFC 6487 4.8.2).
    pub fn subject_key_identifier(&self) -> KeyIdentifier
        ensures { result ≡ self.now.subject_key_identifier }
    {
        self.subject_key_identifier
    }

    /// The identifier of the issuer's key, if there is one (RFC 6487 4.8.3).
    pub fn authority_key_identifier(&self) -> Option<KeyIdentifier>
        ensures { result ≡ self.now.authority_key_identifier }
    {
        self.authority_key_identifier
    }

    /// Sets the identifier of the issuer's key.
    pub fn set_authority_key_identifier(&mut self, key_identifier: Option<KeyIdentifier>)
        ensures { self.new ≡ record self.old { authority_key_identifier = key_identifier } }
    {
        self.authority_key_identifier = key_identifier;
    }

    /// Whether the certificate is signed by its own key, if it is valid: no authority key
    /// identifier is there, or it is the subject key identifier (RFC 6487 4.8.3).
    pub fn is_self_signed(&self) -> bool
        ensures { IsTrue result ↔ ((self.now.authority_key_identifier ≡ None)
            ⊎ (self.now.authority_key_identifier ≡ Some self.now.subject_key_identifier)) }
    {
        match self.authority_key_identifier {
            Some(identifier) => identifier == self.subject_key_identifier,
            None => true,
        }
    }
}
