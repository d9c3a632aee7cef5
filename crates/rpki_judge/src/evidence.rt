//! What the judge asks of a bundle.

ghost use Rattle.std.specs.Prelude.{◌≡◌, ℕ, ◌+◌, ◌≤◌, ◌↔◌, IsTrue, IfOk, IfSome, List};
ghost use Rattle.rpki_rules.specs.Certs.{Cert};
ghost use Rattle.rpki_rules.specs.Objects.{Object as ObjectValue};
ghost use Rattle.rpki_rules.specs.World.{World};
ghost use Rattle.rpki_rules.specs.Points.{Anchor, Point as PointValue, files};
ghost use Rattle.rpki_rules.specs.Chains.{CertAt};
ghost use Rattle.rpki_rules.specs.Attests.{Payload as PayloadValue};
ghost use Rattle.rpki_rules.specs.Judge.{Needs};
ghost use Rattle.rpki_judge.specs.Needed.{AreClaims, IsNeed};
ghost use Rattle.rpki_judge.specs.Evidence.{IsReadCert, IsReadPoint, IsReadObject, IsBelow};

use crate::{Claims, Needed};
use std::alloc::{AllocError, Global};

/// A bundle with a digester and a verifier: what the judge asks of its objects. Nothing that it is asked depends on what
/// a chain holds.
pub trait Evidence {
    /// A certificate.
    type Cert: Drop;

    /// A publication point, the claim of its manifest's certificate apart.
    type Point: Drop;

    /// A signed object that attests something, the claim of its certificate apart.
    type Object: Drop;

    // The bundle, the digests and the good signatures.
    ghost world: { Self → World };

    // How often the verifier was asked for a signature.
    ghost asked: { Self → ℕ };

    // The name of the loan by which it has its verifier: it asks no other.
    ghost lender: { Self → ℕ };

    // What contracts see of these.
    ghost cert: { Self.Cert → Cert };

    ghost point: { Self.Point → PointValue };

    // The lookup keys of its files, which a point has of the authority that it was read of.
    ghost listed: { Self.Point → List (List ℕ) };

    ghost object: { Self.Object → ObjectValue };

    ghost payload: { Self.Object → PayloadValue };

    /// The most certificates that a chain may have.
    fn depth(&self) -> usize
        ensures { result ≡ (world self.now).depth };

    /// Whether both certificates have one subject key identifier.
    fn have_one_key(&self, c: &Self::Cert, other: &Self::Cert) -> bool
        ensures { IsTrue result ↔ ((cert c.now).tbs.subject_key_identifier
            ≡ (cert other.now).tbs.subject_key_identifier) };

    /// What the certificate claims.
    fn claims<'a>(&self, c: &'a Self::Cert) -> Claims<'a>
        ensures { AreClaims (cert c.now) result };

    /// The certificate of the point's manifest.
    fn manifest_cert<'a>(&self, p: &'a Self::Point) -> &'a Self::Cert
        ensures { cert result.now ≡ (point p.now).object.cert };

    /// The object's own certificate.
    fn object_cert<'a>(&self, o: &'a Self::Object) -> &'a Self::Cert
        ensures { cert result.now ≡ (object o.now).cert };

    /// The numbers of what the object attests: the addresses of its prefixes, or its customer.
    fn needs(&self, alloc: Global, o: &Self::Object) -> Result<Needed, AllocError>
        ensures { IfOk result (IsNeed (Needs (payload o.now))) };

    /// The certificate that the object with this lookup key reads as, if it does. No signature is asked for.
    fn read_cert(&mut self, alloc: Global, uri: &[u8]) -> Result<Option<Self::Cert>, AllocError>
        ensures read { IfOk result (IsReadCert cert (world self.old) uri.now) }
        ensures same { world self.new ≡ world self.old }
        ensures lender { lender self.new ≡ lender self.old }
        ensures asks { asked self.new ≤ asked self.old };

    /// Whether the certificate at the lookup key is the anchor to which the locator of that name leads. One signature is
    /// asked for at most.
    fn is_anchor(
        &mut self,
        alloc: Global,
        locator: &[u8],
        uri: &[u8],
        c: &Self::Cert,
    ) -> Result<bool, AllocError>
        requires { CertAt (world self.old) uri.now (cert c.now) }
        ensures anchor { IfOk result (λ yes. IsTrue yes ↔ Anchor (world self.old) locator.now
            (record { uri = uri.now; cert = cert c.now })) }
        ensures same { world self.new ≡ world self.old }
        ensures lender { lender self.new ≡ lender self.old }
        ensures asks { asked self.new ≤ asked self.old + 1 };

    /// The authority's publication point, the claim of its manifest's certificate apart, if it is one. Three signatures
    /// are asked for at most: of the manifest's certificate, of the manifest and of the revocation list.
    fn read_point(
        &mut self,
        alloc: Global,
        ca: &Self::Cert,
    ) -> Result<Option<Self::Point>, AllocError>
        ensures read { IfOk result (IsReadPoint point (world self.old) (cert ca.now)) }
        ensures listed { IfOk result (λ found. IfSome found
            (λ p. listed p ≡ files (cert ca.now) (point p).manifest)) }
        ensures same { world self.new ≡ world self.old }
        ensures lender { lender self.new ≡ lender self.old }
        ensures asks { asked self.new ≤ asked self.old + 3 };

    /// Whether the certificate at the lookup key is at a file of the point, for an authority's certificate, and sound
    /// there, its claim apart. One signature is asked for at most.
    fn is_below(
        &mut self,
        alloc: Global,
        ca: &Self::Cert,
        p: &Self::Point,
        uri: &[u8],
        c: &Self::Cert,
    ) -> Result<bool, AllocError>
        requires at { CertAt (world self.old) uri.now (cert c.now) }
        requires listed { listed p.now ≡ files (cert ca.now) (point p.now).manifest }
        ensures below { IfOk result (λ yes. IsTrue yes ↔ IsBelow (world self.old) (cert ca.now)
            (point p.now) uri.now (cert c.now)) }
        ensures same { world self.new ≡ world self.old }
        ensures lender { lender self.new ≡ lender self.old }
        ensures asks { asked self.new ≤ asked self.old + 1 };

    /// The object at a file of the point that is sound there, its claim apart, if it is one. Two signatures are asked for
    /// at most: of its certificate and of its content.
    fn read_object(
        &mut self,
        alloc: Global,
        ca: &Self::Cert,
        p: &Self::Point,
        uri: &[u8],
    ) -> Result<Option<Self::Object>, AllocError>
        requires { listed p.now ≡ files (cert ca.now) (point p.now).manifest }
        ensures read { IfOk result (IsReadObject object payload (world self.old) (cert ca.now)
            (point p.now) uri.now) }
        ensures same { world self.new ≡ world self.old }
        ensures lender { lender self.new ≡ lender self.old }
        ensures asks { asked self.new ≤ asked self.old + 2 };
}
