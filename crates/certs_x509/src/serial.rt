//! Serial numbers of certificates, and the numbers of manifests and revocation lists.

pub use certs_key::Serial;
