//! What is asked of a bundle to tell why something is refused.

ghost use Rattle.std.specs.Prelude.{◌≡◌, ◌<◌, length, IfOk};
ghost use Rattle.rpki_rules.specs.Words.{Mem};
ghost use Rattle.rpki_rules.specs.Kinds.{InSet};
ghost use Rattle.rpki_rules.specs.Points.{files};
ghost use Rattle.rpki_walk.specs.Repository.{locator_at};
ghost use Rattle.rpki_walk.specs.Asked.{HasLocatorReason, IsJudged, HasFileReason};

use crate::repository::Repository;
use bytes::Bytes;
use rpki_rules::reason::{FileReason, LocatorReason, PointReason};
use std::alloc::{AllocError, Global};

/// A bundle of which one asks, too, why something is refused.
pub trait Diagnosing: Repository {
    /// Why the locator at that place is refused, or nothing where it isn't.
    fn locator_reason(
        &mut self,
        alloc: Global,
        at: usize,
    ) -> Result<Option<LocatorReason>, AllocError>
        requires { at < length (Self.world self.old).locators }
        ensures reason { IfOk result (HasLocatorReason (Self.world self.old)
            (locator_at (Self.world self.old) at)) }
        ensures same { Self.world self.new ≡ Self.world self.old }
        ensures lender { Self.lender self.new ≡ Self.lender self.old };

    /// The authority's publication point by what the authority holds, or why none stands.
    fn judged_point(
        &mut self,
        alloc: Global,
        ca: &Self::Authority,
    ) -> Result<Result<Self::Point, PointReason>, AllocError>
        ensures judged { IfOk result (IsJudged Self.point (Self.world self.old)
            (InSet (Self.sets ca.now)) (Self.cert ca.now)) }
        ensures listed { IfOk result (λ judged. IfOk judged
            (λ p. Self.listed p ≡ files (Self.cert ca.now) (Self.point p).manifest)) }
        ensures same { Self.world self.new ≡ Self.world self.old }
        ensures lender { Self.lender self.new ≡ Self.lender self.old };

    /// Why a file of the point is refused on a chain with these keys, or nothing where it isn't.
    fn file_reason(
        &mut self,
        alloc: Global,
        ca: &Self::Authority,
        p: &Self::Point,
        keys: &[Bytes],
        uri: &[u8],
    ) -> Result<Option<FileReason>, AllocError>
        requires { Mem (files (Self.cert ca.now) (Self.point p.now).manifest) uri.now }
        ensures reason { IfOk result (HasFileReason (Self.world self.old)
            (InSet (Self.sets ca.now)) keys.now (Self.cert ca.now) (Self.point p.now) uri.now) }
        ensures same { Self.world self.new ≡ Self.world self.old }
        ensures lender { Self.lender self.new ≡ Self.lender self.old };
}
