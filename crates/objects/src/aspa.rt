//! Provider attestations (version 1 of the profile): a customer, and the providers that it has; their builder.

pub use crate::attested::{AspaBuilder, AspaValue, DuplicateProviderAs, ProviderError};
pub use objects_payload::aspa::attestation::AttestationValues;
pub use objects_payload::aspa::{AsProviderAttestation, ProviderAsIter, ProviderAsSet};
pub use objects_valid::Aspa;
