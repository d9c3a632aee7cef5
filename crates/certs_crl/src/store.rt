//! Revocation lists that are kept by their URIs.

ghost use Rattle.std.specs.Prelude.{◌≡◌, ◌↔◌, ◌∷◌, ◌++◌, [], false, true, IfErr, IsTrue, MatchOption, OnErr, OnOk};
ghost use Rattle.certs_crl.specs.Store.{IsFirstUnder, NoneUnder, as_stored};

use crate::crl::Crl;
use certs_basics::uri::Rsync;
use std::alloc::{AllocError, Global};
use std::marker::Model;

/// Revocation lists, each with its URI, in the order in which they came. Contracts see them, and whether serial numbers are
/// kept aside.
#[derive(Debug, Drop)]
pub struct CrlStore {
    crls: Vec<(Rsync, Crl)>,
    cache_serials: bool,
}

impl Model for CrlStore {
    ghost use Rattle.certs_crl.specs.Store.{StoreValue};

    ghost Value = { StoreValue };

    ghost view = { λ s. record { crls = s.crls.items; caches = s.cache_serials } };
}

// Whether a list came under the URI.
fn is_under(pair: &(Rsync, Crl), uri: &Rsync) -> bool
    ensures { IsTrue result ↔ (pair.now.0 ≡ uri.now) }
{
    pair.0 == *uri
}

// The list that came first under the URI.
fn first_under<'a>(crls: &'a [(Rsync, Crl)], uri: &Rsync) -> Option<&'a Crl>
    ensures { MatchOption result (NoneUnder crls.now uri.now)
        (λ c. IsFirstUnder crls.now uri.now c.now) }
{
    let mut rest = crls;
    while let Some((pair, others)) = rest.split_first() {
        if is_under(pair, uri) {
            return Some(&pair.1);
        }
        rest = others;
    }
    None
}

// Keeps the serial numbers of a list aside, where that is wanted of it.
fn keep_serials(alloc: Global, crl: &mut Crl, wanted: bool) -> Result<(), AllocError>
    ensures kept { OnOk result (crl.new ≡ as_stored wanted crl.old) }
    ensures same { OnErr result (crl.new ≡ crl.old) }
{
    if !wanted {
        return Ok(());
    }
    crl.cache_serials(alloc)
}

impl CrlStore {
    /// No lists. Serial numbers aren't kept aside.
    pub fn new(alloc: Global) -> CrlStore
        ensures { result ≡ record { crls = []; caches = false } }
    {
        CrlStore {
            crls: Vec::new(alloc),
            cache_serials: false,
        }
    }

    /// From now on the serial numbers of each list that comes are kept aside.
    pub fn enable_serial_caching(&mut self)
        ensures { self.new ≡ record { crls = self.old.crls; caches = true } }
    {
        self.cache_serials = true;
    }

    /// Puts a list after the others, with its serial numbers kept aside where the store does so. Where memory is refused
    /// the store is as it was, and the pair comes back as it was.
    pub fn push(&mut self, alloc: Global, uri: Rsync, crl: Crl) -> Result<(), (Rsync, Crl)>
        ensures ok { OnOk result (self.new ≡ record {
          crls = self.old.crls ++ (uri, as_stored self.old.caches crl) ∷ [];
          caches = self.old.caches;
        }) }
        ensures refused { IfErr result (λ pair. pair ≡ (uri, crl)) }
        ensures same { OnErr result (self.new ≡ self.old) }
    {
        let mut crl = crl;
        if self.crls.reserve(1).is_err() {
            return Err((uri, crl));
        }
        if keep_serials(alloc, &mut crl, self.cache_serials).is_err() {
            return Err((uri, crl));
        }
        self.crls.push((uri, crl)).unwrap();
        Ok(())
    }

    /// The list that came first under the URI, if any.
    pub fn get(&self, uri: &Rsync) -> Option<&Crl>
        ensures { MatchOption result (NoneUnder self.now.crls uri.now)
            (λ c. IsFirstUnder self.now.crls uri.now c.now) }
    {
        first_under(self.crls.as_slice(), uri)
    }
}

/// A clone has the same lists, in their order, and keeps serial numbers aside from now on where the store does.
impl Clone for CrlStore {
    ghost is_clone = { λ store copy. copy ≡ store };

    fn clone(&self) -> Result<Self, AllocError> {
        let crls = self.crls.clone()?;
        Ok(CrlStore {
            crls,
            cache_serials: self.cache_serials,
        })
    }
}
