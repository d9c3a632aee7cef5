//! Route origin and provider attestations at a publication point, what their certificates claim apart (RFC 6488 3, RFC 9582,
//! draft-ietf-sidrops-aspa-profile).
//!
//! What is read here depends on no numbers that are held, so that a judge who climbs may read it too.

pub mod find;
pub mod laws;
pub mod published;
pub mod readings;

pub use find::find_object;
pub use published::Published;
pub use readings::object_at;
