//! What certificates, revocation lists and signed objects share: names, serial numbers, times, keys, signatures, URIs, and
//! the causes of refusals (RFC 5280 4.1; RFC 6487; RFC 7935).
//!
//! This is a face: a port of `rpki::repository::x509`, `rpki::crypto` and `rpki::uri` of the Rust crate `rpki` 0.20.1 in
//! which each call is proved to meet its contract. What is read is of the standard's grammar and what is of the grammar is
//! read, in BER, CER and DER; what is written is read again. The `specs/` of each crate
//! have the definitions that its contracts cite.
//!
//! | Module | Has |
//! |---|---|
//! | [`name`] | names of issuers and subjects, and what inspection asks of them |
//! | [`serial`] | serial numbers, below 2^160 |
//! | [`time`] | moments, to seconds, validity, and a clock that is handed in |
//! | [`key`] | public keys and their identifiers |
//! | [`crypto`] | algorithms, signatures, and what is handed in: digests, verdicts on signatures, keys that sign |
//! | [`signed`] | signed data: the very octets that are signed, and the signature |
//! | [`revoked`] | the entries of revocation lists, and the search for a serial number |
//! | [`uri`] | rsync and https URIs, and the keys under which they are looked up |
//! | [`tal`] | what a trust anchor locator is called |
//! | [`errors`] | why certificates, revocation lists and signed objects are refused |
//! | [`laws`] | what follows for these values, as functions that do nothing |
//!
//! A certificate's issuer and serial number are read like this:
//!
//! ```text
//! let issuer = Name::take_from(alloc, cons)?;
//! let serial = Serial::take_from(cons)?;
//! issuer.inspect_rpki(strict)?;
//! ```
//!
//! What differs from the Rust crate:
//!
//! - What takes memory is given an allocator, first of all, and answers a `Result`, `clone` too: lack of memory is an error
//!   of its own, and never another answer.
//! - Nothing is asked of the system: digests, verdicts on signatures, keys that sign and clocks are handed in, as a
//!   [`Digester`], a [`Verifier`], a [`Signer`] and a [`Clock`]. `Validity::from_secs` is given the moment.
//! - A [`Time`] is a number of seconds, in the years 0000 to 9999. A [`Serial`] has no text that is read.
//! - A [`PublicKey`] keeps its encoded octets, which `encoded` lends: its DER, whatever was read.
//! - A [`Signature`] keeps how many bits of its last octet are unused.
//! - URIs are equal where their texts are, and `lookup_key` has scheme and host in lower case.
//! - The causes of refusals are enums of this project, without positions in the source; texts of causes are for people.
//!
//! Each part's page has the rest.
#![tactic(auto)]

pub mod crypto;
pub mod errors;
pub mod key;
pub mod laws;
pub mod name;
pub mod revoked;
pub mod serial;
pub mod signed;
pub mod tal;
pub mod time;
pub mod uri;

pub use certs_extension::forms;
pub use crypto::{
    DigestAlgorithm, Digester, RpkiSignature, RpkiSignatureAlgorithm, Signature,
    SignatureAlgorithm, Signer, SigningError, Verifier,
};
pub use errors::{ClaimedKind, InspectionError, Overclaimed, ValidationError, VerificationError};
pub use key::{KeyIdentifier, PublicKey, PublicKeyFormat};
pub use name::Name;
pub use serial::Serial;
pub use signed::SignedData;
pub use tal::TalInfo;
pub use time::{Clock, Time, Validity};
