//! rsync and https URIs, and the keys under which they are looked up: those of `certs_basics::uri`.

pub use certs_basics::uri::grammar::{
    cmp_lookup_key, is_https, is_lookup_key, is_rsync, is_uri, lookup_key,
};
pub use certs_basics::uri::laws::{lookup_key_of_uri, lookup_key_twice};
