//! rsync and https URIs.

pub use certs_basics::uri::{Error, Https, Rsync};
