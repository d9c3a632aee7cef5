//! Why certificates, revocation lists and signed objects are refused: inspection, verification, and both.
//!
//! What is inspected is the form of a certificate (RFC 6487 4); what is verified is what others vouch for: moments,
//! claims, digests and signatures (RFC 6487 7, RFC 6488 3).

mod inspection;
mod validation;
mod verification;

pub use certs_extension::forms::{Clock, Time, TimeText, Validity, ValidityError, validity};
pub use inspection::InspectionError;
pub use validation::ValidationError;
pub use verification::{ClaimedKind, Overclaimed, VerificationError};
