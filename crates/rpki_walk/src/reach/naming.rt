//! What locators and authorities name.

ghost use Rattle.std.specs.Prelude.{◌≡◌, ◌<◌, length, IfOk};
ghost use Rattle.rpki_walk.specs.Repository.{locator_at};
ghost use Rattle.rpki_walk.specs.Naming.{AreLocatorKeys, AreNamed};

use crate::Repository;
use bytes::Bytes;
use resources::set::ResourceSet;
use std::alloc::{AllocError, Global};

/// A bundle of which one also asks what its locators and authorities name, and what an authority holds.
pub trait Naming: Repository {
    /// The lookup keys of the URIs that the locator at that place names, where its text is a locator's (RFC 8630 2.2).
    fn locator_keys(&self, alloc: Global, at: usize) -> Result<Option<Vec<Bytes>>, AllocError>
        requires { at < length (Self.world self.now).locators }
        ensures { IfOk result (AreLocatorKeys (locator_at (Self.world self.now) at)) };

    /// The lookup keys that the authority names: that of its manifest's URI, and where a manifest reads there those of
    /// the files that it lists (RFC 9286 4.2).
    fn named_keys(&mut self, alloc: Global, ca: &Self::Authority) -> Result<Vec<Bytes>, AllocError>
        ensures named { IfOk result
            (λ keys. AreNamed (Self.world self.old) (Self.cert ca.now) keys.items) }
        ensures same { Self.world self.new ≡ Self.world self.old }
        ensures lender { Self.lender self.new ≡ Self.lender self.old };

    /// The numbers that the authority's chain holds.
    fn held(&self, ca: &Self::Authority) -> Result<ResourceSet, AllocError>
        ensures { IfOk result (λ set. set ≡ Self.sets ca.now) };
}
