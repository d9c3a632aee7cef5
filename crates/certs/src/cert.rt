//! Certificates: their fields, their tests in each role, what they hold, and how they are built.

pub use crate::again::fields_are_lawful;
pub use crate::built::{BuildCert, TbsCertValues};
pub use crate::written::resources::{EncodeAsExtension, EncodeIpExtension};
pub use certs_cert::{Cert, CertValues, ExtendedKeyUsage, KeyUsage, Role, TbsCert};
pub use certs_extension::{EncodeUsage, ExtensionError, KeyUsageValue, Overclaim, OverclaimIds};
pub use certs_verify::{Inspect, Refused, ResourceCert, Validate, Verify};
