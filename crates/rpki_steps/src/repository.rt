//! A bundle with what digests and verifies, and how the walk reads it. Beside it, as modules, how it is asked what its locators
//! and authorities name, why something is refused, and by the judge.

ghost use Rattle.std.specs.Prelude.{◌≡◌};
ghost use Rattle.rpki_steps.specs.Holders.{cert_of, sets_of};
ghost use Rattle.rpki_standing.specs.Readers.{world_by};
ghost use Rattle.rpki_standing.specs.Views.{payload_of};
ghost use Rattle.rpki_steps.specs.Points.{point_of};

pub mod diagnosing;
pub mod evidence;
pub mod naming;

use crate::anchor::locator::read_locator;
use crate::authority::Authority;
use crate::file::read_file;
use crate::point::held::find_point;
use bytes::Bytes;
use certs_verify::{Digester, Verifier};
use rpki_standing::payloads::{Origin, Payload, Provision};
use rpki_standing::table::Index;
use rpki_standing::{BundleReader, StandingPoint};
use rpki_walk::{AnchorLookup, FileKind, Repository};
use std::alloc::{AllocError, Global};

/// A bundle with a digester and a verifier: what the walk and the judge ask of it is read of its objects.
#[derive(Drop)]
pub struct BundleRepository<'a, D: Digester, V: Verifier> {
    /// The bundle as it is read.
    pub reader: BundleReader<'a, D, V>,
}

impl<'a, D: Digester, V: Verifier> BundleRepository<'a, D, V> {
    /// The bundle, with this digester and this verifier, which is asked through it as long as it is lent.
    pub fn new(index: Index<'a>, digester: &'a D, verifier: &'a mut V) -> Self
        ensures index { result.reader.index ≡ index.entry }
        ensures digester { result.reader.digester.now ≡ digester.now }
        ensures verifier { result.reader.verifier.now ≡ verifier.old }
        ensures lender { result.reader.verifier.ghost_name ≡ verifier.entry.ghost_name }
    {
        let reader = BundleReader::new(index, digester, verifier);
        BundleRepository { reader }
    }
}

impl<'a, D: Digester, V: Verifier> Repository for BundleRepository<'a, D, V> {
    type Authority = Authority;

    type Point = StandingPoint;

    type Payload = Payload;

    ghost world = { λ s. world_by D.sha256_digest D.sha1_digest V.says s.reader };

    ghost lender = { λ s. s.reader.verifier.ghost_name };

    ghost cert = { cert_of };

    ghost sets = { sets_of };

    ghost point = { point_of };

    ghost listed = { λ p. p.keys };

    ghost payload = { payload_of };

    fn depth(&self) -> usize {
        usize::from(self.reader.index.depth())
    }

    fn locator_count(&self) -> usize {
        // So a chain may have an anchor.
        let _ = self.reader.index.depth();
        self.reader.index.locators().len()
    }

    fn locator_name(&self, at: usize) -> Result<Bytes, AllocError> {
        self.reader.index.locators()[at].name.clone()
    }

    fn read_locator(
        &mut self,
        alloc: Global,
        at: usize,
    ) -> Result<AnchorLookup<Authority>, AllocError> {
        let locator = &self.reader.index.locators()[at];
        read_locator(alloc, locator, &mut self.reader)
    }

    fn key_identifier(&self, alloc: Global, ca: &Authority) -> Result<Bytes, AllocError> {
        let key = ca.verified().as_cert().tbs().subject_key_identifier();
        Bytes::copy_from_slice(alloc, key.as_slice())
    }

    fn read_point(
        &mut self,
        alloc: Global,
        ca: &Authority,
    ) -> Result<Option<StandingPoint>, AllocError> {
        find_point(alloc, ca.verified(), &mut self.reader)
    }

    fn uris<'p>(&self, _ca: &Authority, p: &'p StandingPoint) -> &'p [Bytes] {
        p.files()
    }

    fn read_file(
        &mut self,
        alloc: Global,
        ca: &Authority,
        p: &StandingPoint,
        uri: &[u8],
    ) -> Result<FileKind<Authority, Payload>, AllocError> {
        read_file(alloc, ca, p, uri, &mut self.reader)
    }

    fn add_origins(&self, object: &Payload, out: &mut Vec<Origin>) -> Result<(), AllocError> {
        object.add_origins(out)
    }

    fn add_provisions(&self, object: &Payload, out: &mut Vec<Provision>) -> Result<(), AllocError> {
        object.add_provisions(out)
    }
}
