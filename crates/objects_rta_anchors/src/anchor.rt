//! How paths are anchored.

ghost use Rattle.std.specs.Prelude.{◌≡◌, ◌↔◌, ◌<◌, ℕ, IsTrue, Some, length, slice_get};
ghost use Rattle.objects_rta_anchors.specs.declared.anchor.Anchor.TheVariants.{Open};

/// How a path is anchored.
#[derive(Clone, Copy, Debug, PartialEq, Eq)]
pub enum Anchor {
    /// Not yet.
    Open,
    /// By a locator that has the key of its last certificate.
    Locator,
    /// By the supplied authority of that number, from 0 on, which signed its last certificate.
    Issuer(usize),
}

// Whether a path isn't anchored.
fn is_open(anchor: Anchor) -> bool
    ensures { IsTrue result ↔ (anchor ≡ Open) }
{
    matches!(anchor, Anchor::Open)
}

/// Whether the path of that signer is there, and isn't anchored.
pub(crate) fn is_open_at(anchors: &[Anchor], signer: usize) -> bool
    ensures { IsTrue result ↔ (slice_get anchors.now signer ≡ Some Open) }
{
    match anchors.get(signer) {
        Some(anchor) => is_open(*anchor),
        None => false,
    }
}

/// How the path of that signer is anchored.
pub(crate) fn anchor_at(anchors: &[Anchor], signer: usize) -> Anchor
    requires { signer < length anchors.now }
    ensures { slice_get anchors.now signer ≡ Some result }
{
    anchors[signer]
}

/// Whether no path is open.
pub(crate) fn are_anchored(anchors: &[Anchor]) -> bool
    ensures { IsTrue result ↔ ((signer : ℕ) → slice_get anchors.now signer ≡ Some Open → ⊥) }
{
    for signer in 0..anchors.len() {
        if is_open_at(anchors, signer) {
            return false;
        }
    }
    true
}
