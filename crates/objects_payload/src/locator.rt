//! Trust anchor locators: where a trust anchor's certificate is, and which key it has (RFC 8630 2).
//!
//! A locator is a text: comments, each a line that begins with `#`; then URIs, rsync or https, one a line; an empty
//! line; and the anchor's key, a SubjectPublicKeyInfo in base 64. Lines end with LF or with CR LF.
//!
//! What differs from the Rust crate: a locator is read of octets that are there, too (`from_text`); of a reader fewer than
//! 2^32 octets are read; causes carry no detail of what was refused; a text without URIs is `BadUri`; and what takes memory
//! is given an allocator and answers a `Result`.

mod encoding;
pub mod error;
mod key;
pub mod laws;
mod lines;
mod order;
pub mod tal;
mod text;
pub mod uri;
mod uris;

pub use bcder::decode;
pub use certs_basics::time::Time;
pub use certs_basics::uri::Rsync;
pub use certs_key::Serial;
pub use error::ReadError;
pub use tal::Tal;
pub use uri::TalUri;
