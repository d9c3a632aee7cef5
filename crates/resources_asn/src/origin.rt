//! Origins: prefixes with the AS numbers that may announce them, in the order in which they are listed.

ghost use Rattle.std.specs.Prelude.{◌≡◌};
ghost use Rattle.resources_asn.specs.Origins.{origin_cmp, origin_value};

use crate::asn::Asn;
use resources_ip_prefix::ip_addr::Prefix;
use std::cmp::Ordering;

/// A prefix, the greatest length of the prefixes inside it that are meant too, and the AS number that may announce them
/// (RFC 9582 4).
#[derive(Clone, Copy, Debug)]
pub struct Origin {
    /// The prefix.
    pub prefix: Prefix,
    /// The greatest length.
    pub max_len: u8,
    /// The AS number.
    pub asn: Asn,
}

impl Origin {
    /// The order in which origins are listed: by prefix as `Prefix::cmp_by_start` has it, which is by family, address and
    /// length, then by greatest length, then by AS number.
    pub fn cmp_by_start(&self, other: &Self) -> Ordering
        ensures { result ≡ origin_cmp (origin_value self.now) (origin_value other.now) }
    {
        let by_prefix = self.prefix.cmp_by_start(&other.prefix);
        let by_max_len = self.max_len.cmp(&other.max_len);
        by_prefix.then(by_max_len.then(self.asn.cmp(&other.asn)))
    }
}
