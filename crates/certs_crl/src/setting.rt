//! Setters of what is signed of a revocation list. Each changes its own field alone, or lends it for a change.

ghost use Rattle.std.specs.Borrow.{Lends, sem};
ghost use Rattle.std.specs.Prelude.{◌≡◌};
ghost use Rattle.certs_crl.specs.contracts.tbs.TbsCertList.{the_row};

use crate::tbs::TbsCertList;
use certs_basics::time::Time;
use certs_key::algorithm::RpkiSignatureAlgorithm;
use certs_name::{Name, Serial};
use certs_x509::signed::KeyIdentifier;

impl<C: Drop> TbsCertList<C> {
    /// Sets the algorithm with which the list is signed (RFC 5280 5.1.2.2).
    pub fn set_signature(&mut self, signature: RpkiSignatureAlgorithm)
        ensures { self.new ≡ record self.old { has_null = signature } }
    {
        self.signature = signature;
    }

    /// Sets the name of the issuer (RFC 5280 5.1.2.3).
    pub fn set_issuer(&mut self, issuer: Name)
        ensures { self.new ≡ record self.old { issuer = issuer } }
    {
        self.issuer = issuer;
    }

    /// Sets when the list was made (RFC 5280 5.1.2.4).
    pub fn set_this_update(&mut self, this_update: Time)
        ensures { self.new ≡ record self.old { this_update = this_update } }
    {
        self.this_update = this_update;
    }

    /// Sets when the next list is made at the latest (RFC 5280 5.1.2.5).
    pub fn set_next_update(&mut self, next_update: Time)
        ensures { self.new ≡ record self.old { next_update = next_update } }
    {
        self.next_update = next_update;
    }

    /// Sets what holds the revoked certificates (RFC 5280 5.1.2.6).
    pub fn set_revoked_certs(&mut self, revoked_certs: C)
        ensures { self.new ≡ record self.old { revoked = revoked_certs } }
    {
        self.revoked_certs = revoked_certs;
    }

    /// Lends what holds the revoked certificates, for a change (RFC 5280 5.1.2.6). Once the borrow ends the list has what
    /// the borrow left, and its other fields are what they were.
    pub fn revoked_certs_mut(&mut self) -> &mut C
        ensures* lends { sem 𝓛 (Lends (the_row C.row) C.row self.entry result
            (λ revoked. record self.old { revoked = revoked })) }
        ensures lent { result.now ≡ self.old.revoked }
    {
        &mut self.revoked_certs
    }

    /// Sets the identifier of the key with which the list is signed (RFC 5280 5.2.1).
    pub fn set_authority_key_identifier(&mut self, id: KeyIdentifier)
        ensures { self.new ≡ record self.old { authority_key_identifier = id } }
    {
        self.authority_key_id = id;
    }

    /// Sets the number of the list (RFC 5280 5.2.3).
    pub fn set_crl_number(&mut self, crl_number: Serial)
        ensures { self.new ≡ record self.old { number = crl_number } }
    {
        self.crl_number = crl_number;
    }
}
