//! Parts of certificates and revocation lists as they are written (RFC 5280 4, 5; RFC 6487 4): each
//! extension by its value, and the fields that both have.
//!
//! A value of an extension is a type of its own, of which contracts see what it means; what is
//! written of it is a definition in `specs/Values.antt`, line by line that of the standard. A
//! builder puts extensions together by [`encode_extension`], in the order that it wants.
//!
//! What differs from the Rust crate: `encode_extension` is public; IP and AS resources have theirs
//! by the traits [`EncodeIpExtension`] and [`EncodeAsExtension`].

pub mod access;
pub mod extension;
pub mod fields;
pub mod identifiers;
pub mod parts;
pub mod policies;
pub mod resources;
pub mod usages;

pub use access::{
    CrlValue, IssuerAccessValue, SubjectAccessValue, crl_extension, issuer_extension,
    subject_access_value, subject_extension,
};
pub use certs_extension::{AsResources, IpResources, Time};
pub use certs_key::encode::{EncodeError, Values};
pub use certs_key::{
    AlgorithmIdentifier, Captured, KeyIdentifier, Mode, Name, PublicKey, Serial, Signature,
    SignatureAlgorithm, Signer, SigningError,
};
pub use extension::{ExtensionEncoder, encode_extension};
pub use fields::{SerialValue, TimeValue, Version};
pub use identifiers::{
    AuthorityKeyValue, SubjectKeyValue, authority_key_extension, subject_key_extension,
};
pub use parts::{Context0, Context3, DerString, Identifier, Sequence, Truth, UriName};
pub use policies::{PolicyValue, policy_extension};
pub use resources::{AsValue, EncodeAsExtension, EncodeIpExtension, IpValue};
pub use usages::{
    ConstraintsValue, PurposesValue, UsageValue, constraints_extension, purposes_extension,
    usage_extension,
};
