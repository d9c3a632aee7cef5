//! A bundle, as the judge asks it. Each question is answered exactly, and what chains hold is looked at nowhere.

ghost use Rattle.rpki_standing.specs.Readers.{world_by};

use crate::anchor::named::is_anchor;
use crate::cert::{claims_of, find_cert, have_one_key};
use crate::issued::sound::is_below;
use crate::object::found::read_object;
use crate::object::needs::needs_of;
use crate::point::unheld::read_point;
use crate::repository::BundleRepository;
use rpki_judge::{Claims, Evidence, Needed};
use rpki_standing::attested::Published;
use rpki_standing::{Cert, Digester, StandingPoint, Verifier};
use std::alloc::{AllocError, Global};

impl<'a, D: Digester, V: Verifier> Evidence for BundleRepository<'a, D, V> {
    type Cert = Cert;

    type Point = StandingPoint;

    type Object = Published;

    ghost world = { λ e. world_by D.sha256_digest D.sha1_digest V.says e.reader };

    ghost asked = { λ e. V.count e.reader.verifier.now };

    ghost lender = { λ e. e.reader.verifier.ghost_name };

    ghost cert = { λ c. c };

    ghost point = { λ p. p.point };

    ghost listed = { λ p. p.keys };

    ghost object = { λ o. o.object };

    ghost payload = { λ o. o.payload };

    fn depth(&self) -> usize {
        usize::from(self.reader.index.depth())
    }

    fn have_one_key(&self, c: &Cert, other: &Cert) -> bool {
        have_one_key(c, other)
    }

    fn claims<'c>(&self, c: &'c Cert) -> Claims<'c> {
        claims_of(c)
    }

    fn manifest_cert<'p>(&self, p: &'p StandingPoint) -> &'p Cert {
        p.manifest_cert()
    }

    fn object_cert<'o>(&self, o: &'o Published) -> &'o Cert {
        o.cert()
    }

    fn needs(&self, alloc: Global, o: &Published) -> Result<Needed, AllocError> {
        needs_of(alloc, o.payload())
    }

    fn read_cert(&mut self, alloc: Global, uri: &[u8]) -> Result<Option<Cert>, AllocError> {
        find_cert(alloc, uri, &self.reader.index)
    }

    fn is_anchor(
        &mut self,
        alloc: Global,
        locator: &[u8],
        uri: &[u8],
        c: &Cert,
    ) -> Result<bool, AllocError> {
        is_anchor(alloc, locator, uri, c, &mut self.reader)
    }

    fn read_point(
        &mut self,
        alloc: Global,
        ca: &Cert,
    ) -> Result<Option<StandingPoint>, AllocError> {
        read_point(alloc, ca, &mut self.reader)
    }

    fn is_below(
        &mut self,
        alloc: Global,
        ca: &Cert,
        p: &StandingPoint,
        uri: &[u8],
        c: &Cert,
    ) -> Result<bool, AllocError> {
        is_below(alloc, ca, p, uri, c, &mut self.reader)
    }

    fn read_object(
        &mut self,
        alloc: Global,
        ca: &Cert,
        p: &StandingPoint,
        uri: &[u8],
    ) -> Result<Option<Published>, AllocError> {
        read_object(alloc, ca, p, uri, &mut self.reader)
    }
}
