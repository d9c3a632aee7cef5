//! Revocation lists: their entries, the search for a serial number, stores, and how they are built.

pub use certs_crl::crl::CrlValues;
pub use certs_crl::written::ListExtensionValues;
pub use certs_crl::{
    Crl, CrlEntry, CrlStore, IntoRevoked, InvalidExtension, RevokedCertificates,
    RevokedCertificatesIter, SerialCache, TbsCertList, TbsCertListValues,
};
pub use certs_x509::revoked::entry::EntryValues;
pub use certs_x509::revoked::revoked::RevokedValues;
