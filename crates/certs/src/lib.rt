//! Certificates and revocation lists of the RPKI (RFC 5280; RFC 6487; RFC 8360): read, inspected, verified and built.
//!
//! This is a face: a port of `rpki::repository::cert` and `rpki::repository::crl` of the Rust crate `rpki` 0.20.1 in which
//! each call is proved to meet its contract. A certificate, or a revocation list, is read exactly where octets spell one of
//! the profile; each test says yes exactly where a written conjunction holds, and else which of its parts is the first that
//! fails. The `specs/` of each crate have the definitions that its contracts cite.
//!
//! | Module | Has |
//! |---|---|
//! | [`cert`] | certificates: their fields, their tests in each role, what they hold, and how they are built |
//! | [`crl`] | revocation lists: their entries, the search for a serial number, stores, and how they are built |
//! | [`x509`] | names, serial numbers, times, keys, signatures, URIs, and the causes of refusals |
//! | [`built`] | what is written of a certificate's fields, and the certificate that a signer makes of them |
//! | [`again`] | what is built of a certificate's fields is read again |
//! | [`written`] | parts of certificates and lists as they are written: each extension by its value, and the fields that both have |
//! | [`laws`] | what follows for certificates and lists, as functions that do nothing |
//!
//! A certificate below an issuer is read and validated like this:
//!
//! ```text
//! let cert = Cert::decode(alloc, octets)?;
//! let held = cert.validate_ca_at(alloc, &issuer, strict, moment, &digester, &mut verifier)?;
//! ```
//!
//! What differs from the Rust crate:
//!
//! - What takes memory is given an allocator, first of all, and answers a `Result`: lack of memory is an error of its own,
//!   and never another answer.
//! - Digests, verdicts on signatures, keys that sign and clocks are handed in.
//! - Inspection, verification, validation and building are calls of traits ([`cert::Inspect`], [`cert::Verify`],
//!   [`cert::Validate`], [`cert::BuildCert`]), since they stand apart from the type's own crate. A call that consumes a certificate hands it
//!   back where it refuses it ([`cert::Refused`]).
//!
//! Each part's page has the rest.
#![tactic(auto)]

pub mod again;
pub mod built;
pub mod cert;
pub mod crl;
pub mod laws;
pub mod written;
pub mod x509;

pub use cert::{Cert, ResourceCert, TbsCert};
pub use crl::{Crl, CrlStore, TbsCertList};
