//! What is answered of a list of URIs.

use resources::set::ResourceSet;

/// What whoever may change the objects at some URIs can reach.
#[derive(Debug, Drop)]
pub enum Reach {
    /// A locator names one of the URIs, so all may change.
    Locator,
    /// None does, and these are the numbers of the accepted chains that name one of the URIs.
    Held(ResourceSet),
}
