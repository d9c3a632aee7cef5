//! What is built of a certificate's fields is read again (RFC 5280 4.1, RFC 6487 4): laws about `TbsCert`,
//! what `BuildCert` makes of it, and what `Cert::decode` reads.
//!
//! Nothing here does anything when it runs: each contract is a law. [`fields_are_lawful`] says of fields what their
//! types promise, and [`laws::what_is_built_is_read`] what is read of that which is written of them.

pub mod lawful;
pub mod laws;

pub use lawful::fields_are_lawful;
