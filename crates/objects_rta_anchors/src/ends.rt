//! Where paths end.

ghost use Rattle.std.specs.Prelude.{◌≡◌, ◌≢◌, ◌∷◌, [], IfOk};
ghost use Rattle.objects_rta_valid.specs.Places.{last_of};
ghost use Rattle.objects_rta_anchors.specs.Ends.{AreEnds};

use objects_rta_valid::{Cert, PathPlaces, Paths};
use std::alloc::{AllocError, Global};

/// The certificates that paths go through, and by signer the places where these end.
#[derive(Drop)]
pub(crate) struct Ends<'a> {
    pub(crate) certs: &'a [Cert],
    pub(crate) places: &'a [usize],
}

// The last place of a path, which has one.
fn last_place(path: PathPlaces<'_>) -> usize
    requires { path ≢ [] }
    ensures { last_of path.entry ≡ result ∷ [] }
{
    let mut path = path;
    let mut last = 0;
    while let Some(place) = path.next() {
        last = place;
    }
    last
}

/// The places where paths end, in their order.
pub(crate) fn last_places(alloc: Global, paths: &Paths) -> Result<Vec<usize>, AllocError>
    ensures { IfOk result (λ ends. AreEnds paths.now.paths ends.items) }
{
    let mut ends = Vec::new(alloc);
    for signer in 0..paths.len() {
        ends.push(last_place(paths.path(signer)))?;
    }
    Ok(ends)
}
