//! What a certificate says of one kind of resources: nothing, `inherit`, or a set.

pub use resources_chain::{Claim, InheritedResources, ResourcesChoice};
