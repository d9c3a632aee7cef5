//! rsync and https URIs, the keys under which they are looked up, and general names.
//!
//! A URI is its text, of octets 21 to 7E: equality, order and hash are the text's. Dot segments and empty segments of
//! a path are allowed and not treated apart.
//!
//! What differs from the Rust crate: equality minds letter case everywhere, and `lookup_key` has scheme and host in
//! lower case; what takes memory is given an allocator and answers a `Result`, `clone` and `parent` too; one cause,
//! `BadUri`, stands for every text that is refused; `join` takes the last segment of the URI for a folder.

pub mod error;
pub mod grammar;
pub mod https;
pub mod laws;
pub mod paths;
pub mod rsync;

pub use bcder::decode;
pub use error::Error;
pub use https::Https;
pub use rsync::Rsync;
