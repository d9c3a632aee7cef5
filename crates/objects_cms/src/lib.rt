//! Signed objects as CMS has them (RFC 5652, RFC 6488): signed attributes ([`attributes`]), the object around a content
//! ([`signed`]), the tests that make one sound ([`verify`]), the content of manifests ([`manifest`], RFC 9286 4), and versions of
//! contents ([`version`]).
#![tactic(auto)]

pub mod attributes;
pub mod manifest;
pub mod signed;
pub mod verify;
pub mod version;

pub use certs_key::oid;
