//! Readers of the extensions of certificates that name URIs: where revocation lists, the issuer's certificate and what
//! the subject publishes are found (RFC 5280 4.2.1.13, 4.2.2; RFC 6487 4.8.6 to 4.8.8).
//!
//! Names are IA5Strings with tag [6]. One that is no IA5String refuses the extension; one that is no URI of the scheme
//! that is wanted is passed over.

pub mod authority;
pub mod crl;
mod names;
pub mod subject;

pub use authority::take_authority_access;
pub use certs_basics::PublicKeyFormat;
pub use certs_basics::uri::{Https, Rsync, grammar, paths};
pub use crl::take_crl_distribution;
pub use subject::{SubjectAccess, take_subject_access};
