//! Extensions of certificates (RFC 5280 4.2, RFC 6487 4.8): one extension by its octets, the rule by which its value is
//! read once, and the values that name neither a URI nor resources.
//!
//! Extensions are values within the octets of an OCTET STRING, in DER whatever the mode around them. They are read from
//! the front of these octets; what comes after the value isn't looked at.
#![tactic(auto)]

pub mod access;
pub mod claims;
pub mod constraints;
pub mod error;
pub mod extension;
pub mod forms;
pub mod identifiers;
pub mod laws;
pub mod policies;
pub mod purposes;
pub mod put;
pub mod usage;

pub use access::{
    Https, PublicKeyFormat, Rsync, SubjectAccess, grammar, paths, take_authority_access,
    take_crl_distribution, take_subject_access,
};
pub use certs_key::{Captured, ConstOid, Digester, KeyIdentifier, Mode, Oid, decode, encode};
pub use constraints::take_basic_constraints;
pub use error::ExtensionError;
pub use extension::Extension;
pub use forms::laws::cert_is_spelled;
pub use forms::{
    AsBlock, AsBlocks, AsBlocksBuilder, AsResources, AsResourcesBuilder, Block, ClaimError,
    InheritedAsResources, InheritedIpResources, InspectionError, IpBlock, IpBlocks,
    IpBlocksBuilder, IpFamilies, IpResources, IpResourcesBuilder, KeyUsage, Overclaim,
    OverclaimIds, Role, Time, Validity,
};
pub use identifiers::take_authority_key_identifier;
pub use policies::take_policies;
pub use purposes::ExtendedKeyUsage;
pub use put::{Need, put_once, skip_unknown};
pub use usage::{EncodeUsage, KeyUsageValue, take_key_usage};
