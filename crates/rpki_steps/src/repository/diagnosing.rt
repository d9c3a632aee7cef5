//! A bundle, as it is asked why something is refused.

use crate::anchor::locator::locator_reason;
use crate::authority::Authority;
use crate::file::file_reason;
use crate::point::held::read_point;
use crate::repository::BundleRepository;
use bytes::Bytes;
use certs_verify::{Digester, Verifier};
use rpki_rules::reason::{FileReason, LocatorReason, PointReason};
use rpki_standing::StandingPoint;
use rpki_walk::Diagnosing;
use std::alloc::{AllocError, Global};

impl<'a, D: Digester, V: Verifier> Diagnosing for BundleRepository<'a, D, V> {
    fn locator_reason(
        &mut self,
        alloc: Global,
        at: usize,
    ) -> Result<Option<LocatorReason>, AllocError> {
        let locator = &self.reader.index.locators()[at];
        locator_reason(alloc, locator, &mut self.reader)
    }

    fn judged_point(
        &mut self,
        alloc: Global,
        ca: &Authority,
    ) -> Result<Result<StandingPoint, PointReason>, AllocError> {
        read_point(alloc, ca.verified(), &mut self.reader)
    }

    fn file_reason(
        &mut self,
        alloc: Global,
        ca: &Authority,
        p: &StandingPoint,
        keys: &[Bytes],
        uri: &[u8],
    ) -> Result<Option<FileReason>, AllocError> {
        file_reason(alloc, ca, p, keys, uri, &mut self.reader)
    }
}
