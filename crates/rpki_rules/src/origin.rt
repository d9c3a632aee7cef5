//! Origins: prefixes with the AS number that may announce them.

ghost use Rattle.std.specs.Prelude.{◌≡◌, ◌≤◌};
ghost use Rattle.rpki_rules.specs.resources_ip_prefix.Address.{bits_of};
ghost use Rattle.rpki_rules.specs.resources_ip_prefix.Prefixes.{first_of};

use crate::{Addr, AddressFamily, Asn, Prefix};

/// A prefix, the greatest length of a prefix in it that may be announced, and the AS number that may announce it
/// (RFC 9582 4).
///
/// Origins are ordered as their fields stand: by family, IPv4 first, by address, length, greatest length and AS
/// number.
#[derive(Clone, Copy, Debug, PartialEq, Eq, PartialOrd, Ord, Hash)]
pub struct Origin {
    family: AddressFamily,
    addr: Addr,
    len: u8,
    max_len: u8,
    asn: Asn,
    ghost short: { len ≤ 128 },
    ghost clear: { first_of len (bits_of addr) ≡ bits_of addr },
}

impl Origin {
    ghost use Rattle.rpki_rules.specs.resources_ip_prefix.Prefix.{prefix_addr, prefix_len};
    ghost use Rattle.rpki_rules.specs.Views.{kind_of, origin_of};

    /// The AS number may announce prefixes in this one of the family, of at most that length.
    pub fn new(asn: Asn, family: AddressFamily, prefix: Prefix, max_len: u8) -> Self
        ensures { origin_of result ≡ record {
          kind = kind_of family;
          addr = bits_of (prefix_addr prefix);
          len = prefix_len prefix;
          max_len = max_len;
          asn = asn.value;
        } }
    {
        Origin {
            family,
            addr: prefix.addr(),
            len: prefix.addr_len(),
            max_len,
            asn,
        }
    }

    /// The AS number.
    pub fn asn(&self) -> Asn
        ensures { result.value ≡ (origin_of self.now).asn }
    {
        self.asn
    }

    /// The family of the prefix.
    pub fn family(&self) -> AddressFamily
        ensures { kind_of result ≡ (origin_of self.now).kind }
    {
        self.family
    }

    /// The prefix.
    pub fn prefix(&self) -> Prefix
        ensures addr { bits_of (prefix_addr result) ≡ (origin_of self.now).addr }
        ensures len { prefix_len result ≡ (origin_of self.now).len }
    {
        Prefix::new(self.addr, self.len)
    }

    /// The greatest length.
    pub fn max_len(&self) -> u8
        ensures { result ≡ (origin_of self.now).max_len }
    {
        self.max_len
    }
}
