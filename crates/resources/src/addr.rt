//! Strict prefixes, as texts and route origins have them.

pub use resources_ip::ip_addr::{
    MaxLenError, MaxLenPrefix, ParseMaxLenPrefixError, ParsePrefixError, Prefix, PrefixError,
};
