//! What the walk asks of a bundle.

ghost use Rattle.std.specs.Prelude.{◌≡◌, ◌<◌, ◌≤◌, ◌++◌, List, length, map, OnOk, IfOk, IfSome, ℕ};
ghost use Rattle.rpki_walk.specs.resources.Resources.{Resources};
ghost use Rattle.rpki_rules.specs.Certs.{Cert};
ghost use Rattle.rpki_rules.specs.Words.{Mem, NoRepeat};
ghost use Rattle.rpki_rules.specs.Kinds.{InSet};
ghost use Rattle.rpki_rules.specs.World.{World};
ghost use Rattle.rpki_rules.specs.Points.{Point as PointValue, files};
ghost use Rattle.rpki_rules.specs.Attests.{Payload as PayloadValue, origins, provisions};
ghost use Rattle.rpki_rules.specs.Views.{origin_of, provision_of};
ghost use Rattle.rpki_walk.specs.Repository.{locator_at, IsAnchorLookup, IsFileKind, IsRead};

use bytes::Bytes;
use rpki_rules::{Origin, Provision};
use std::alloc::{AllocError, Global};

/// What a locator leads to.
#[derive(Drop)]
pub enum AnchorLookup<A> {
    /// Its text is no locator's.
    Unreadable,
    /// There is no trust anchor.
    Nowhere,
    /// A trust anchor's certificate, by its lookup key, with what it lists.
    Anchor(Bytes, A),
}

/// What a file of a publication point is.
#[derive(Drop)]
pub enum FileKind<A, P> {
    /// None that tells anything.
    Nothing,
    /// Not what it has to be.
    Bad,
    /// An authority's certificate, with what it holds.
    Child(A),
    /// A good object, with what it attests.
    Attests(P),
}

/// A bundle with a digester and a verifier: what the walk asks of its objects.
pub trait Repository {
    /// An authority's certificate, with the numbers that its chain holds.
    type Authority: Drop;

    /// A publication point.
    type Point: Drop;

    /// What an object attests.
    type Payload: Drop;

    // The bundle, the digests and the good signatures.
    ghost world: { Self → World };

    // Who lends it the verifier, by the name of the loan: it asks no other.
    ghost lender: { Self → ℕ };

    // What contracts see of these.
    ghost cert: { Self.Authority → Cert };

    ghost sets: { Self.Authority → Resources };

    ghost point: { Self.Point → PointValue };

    // The lookup keys of its files, which a point has of the authority that it was read of.
    ghost listed: { Self.Point → List (List ℕ) };

    ghost payload: { Self.Payload → PayloadValue };

    /// The most certificates that a chain may have.
    fn depth(&self) -> usize
        ensures { result ≡ (world self.now).depth };

    /// How many locators there are. No two have one name, and a chain may have an anchor at least.
    fn locator_count(&self) -> usize
        ensures count { result ≡ length (world self.now).locators }
        ensures deep { 1 ≤ (world self.now).depth }
        ensures apart { NoRepeat (map (λ l. l.name) (world self.now).locators) };

    /// The name of the locator at that place.
    fn locator_name(&self, at: usize) -> Result<Bytes, AllocError>
        requires { at < length (world self.now).locators }
        ensures { IfOk result (λ name. name ≡ (locator_at (world self.now) at).name) };

    /// What the locator at that place leads to.
    fn read_locator(
        &mut self,
        alloc: Global,
        at: usize,
    ) -> Result<AnchorLookup<Self::Authority>, AllocError>
        requires { at < length (world self.old).locators }
        ensures led { IfOk result (IsAnchorLookup cert sets (world self.old)
            (locator_at (world self.old) at)) }
        ensures same { world self.new ≡ world self.old }
        ensures lender { lender self.new ≡ lender self.old };

    /// The certificate's subject key identifier.
    fn key_identifier(&self, alloc: Global, ca: &Self::Authority) -> Result<Bytes, AllocError>
        ensures { IfOk result (λ key. key ≡ (cert ca.now).tbs.subject_key_identifier) };

    /// The authority's publication point, where it stands by what the authority holds.
    fn read_point(
        &mut self,
        alloc: Global,
        ca: &Self::Authority,
    ) -> Result<Option<Self::Point>, AllocError>
        ensures read { IfOk result (IsRead point (world self.old) (InSet (sets ca.now))
            (cert ca.now)) }
        ensures listed { IfOk result (λ found. IfSome found
            (λ p. listed p ≡ files (cert ca.now) (point p).manifest)) }
        ensures same { world self.new ≡ world self.old }
        ensures lender { lender self.new ≡ lender self.old };

    /// The lookup keys of the files of a point that was read of that authority.
    fn uris<'a>(&self, ca: &Self::Authority, p: &'a Self::Point) -> &'a [Bytes]
        requires { listed p.now ≡ files (cert ca.now) (point p.now).manifest }
        ensures { result.now ≡ files (cert ca.now) (point p.now).manifest };

    /// What a file of the point is, keys and depth of the chain apart.
    fn read_file(
        &mut self,
        alloc: Global,
        ca: &Self::Authority,
        p: &Self::Point,
        uri: &[u8],
    ) -> Result<FileKind<Self::Authority, Self::Payload>, AllocError>
        requires { Mem (files (cert ca.now) (point p.now).manifest) uri.now }
        ensures filed { IfOk result (IsFileKind cert sets payload (world self.old)
            (InSet (sets ca.now)) (cert ca.now) (point p.now) uri.now) }
        ensures same { world self.new ≡ world self.old }
        ensures lender { lender self.new ≡ lender self.old };

    /// Adds the origins that an object attests.
    fn add_origins(&self, object: &Self::Payload, out: &mut Vec<Origin>) -> Result<(), AllocError>
        ensures { OnOk result (map origin_of out.new.items ≡
            map origin_of out.old.items ++ origins (payload object.now)) };

    /// Adds the customer with each of the providers that an object attests.
    fn add_provisions(
        &self,
        object: &Self::Payload,
        out: &mut Vec<Provision>,
    ) -> Result<(), AllocError>
        ensures { OnOk result (map provision_of out.new.items ≡
            map provision_of out.old.items ++ provisions (payload object.now)) };
}
