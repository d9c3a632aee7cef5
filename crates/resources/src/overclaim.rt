//! What becomes of numbers that a certificate lists and that its issuer doesn't hold, by the certificate's policy.

pub use resources_as::policy::OverclaimIds;
pub use resources_chain::{ClaimError, Overclaim};
