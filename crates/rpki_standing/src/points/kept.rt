//! Revocation lists whose serial numbers are kept aside.

ghost use Rattle.std.specs.Prelude.{◌≡◌, ◌↔◌, IfOk, IsTrue, true};
ghost use Rattle.rpki_standing.specs.Crls.{as_read};
ghost use Rattle.rpki_rules.specs.Certs.{IsOn};

use certs_cert::signed::Serial;
use certs_crl::Crl as List;
use std::alloc::{AllocError, Global};
use std::marker::Model;

/// A revocation list, with its serial numbers kept aside, so that one is found by halving. Contracts see it as it was read.
#[derive(Drop)]
pub struct Crl {
    list: List,
}

impl Model for Crl {
    ghost use Rattle.std.specs.Prelude.{◌≡◌, true};
    ghost use Rattle.rpki_rules.specs.Certs.{Crl as CrlValue};
    ghost use Rattle.rpki_standing.specs.Crls.{as_read};

    ghost Value = { CrlValue };

    ghost view = { λ c. as_read c.list };

    ghost invariant = { λ c. c.list.caches ≡ true };
}

impl Crl {
    // The list, with its serial numbers kept aside.
    pub(crate) fn keep(alloc: Global, list: List) -> Result<Crl, AllocError>
        ensures { IfOk result (λ crl. crl ≡ as_read list) }
    {
        let mut list = list;
        if list.cache_serials(alloc).is_err() {
            drop(list);
            return Err(AllocError);
        }
        Ok(Crl { list })
    }

    /// The list itself, with its serial numbers kept aside.
    pub fn as_list(&self) -> &List
        ensures value { as_read result.now ≡ self.now }
        ensures kept { result.now.caches ≡ true }
    {
        &self.list
    }

    /// Whether a certificate with that serial number is on the list. It takes no memory.
    pub fn contains(&self, serial: Serial) -> bool
        ensures { IsTrue result ↔ IsOn self.now serial }
    {
        self.list.contains(serial)
    }
}
