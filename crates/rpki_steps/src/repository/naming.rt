//! A bundle, of which one also asks what its locators and authorities name.

use crate::anchor::keys::locator_keys;
use crate::authority::Authority;
use crate::manifest::named_keys;
use crate::repository::BundleRepository;
use bytes::Bytes;
use certs_verify::{Digester, Verifier};
use rpki_walk::reach::{Naming, ResourceSet};
use std::alloc::{AllocError, Global};

impl<'a, D: Digester, V: Verifier> Naming for BundleRepository<'a, D, V> {
    fn locator_keys(&self, alloc: Global, at: usize) -> Result<Option<Vec<Bytes>>, AllocError> {
        let locator = &self.reader.index.locators()[at];
        locator_keys(alloc, locator)
    }

    fn named_keys(&mut self, alloc: Global, ca: &Authority) -> Result<Vec<Bytes>, AllocError> {
        named_keys(alloc, ca.verified().as_cert(), &self.reader.index)
    }

    fn held(&self, ca: &Authority) -> Result<ResourceSet, AllocError> {
        ca.held()
    }
}
