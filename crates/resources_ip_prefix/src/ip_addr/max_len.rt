//! Prefixes with a greatest length.

ghost use Rattle.std.specs.Prelude.{◌≡◌, Option, Some, None, refl, MatchResult};
ghost use Rattle.std.specs.Cmp.{partial_equiv_from_equiv, po};
ghost use Rattle.std.specs.Ordering.{as_partial_cmp};
ghost use Rattle.resources_ip_prefix.specs.AddrPrefixes.{family_of, bits_of};
ghost use Rattle.resources_ip_prefix.specs.MaxLens.{MaxLenValue, IsMaxLen, resolved, saturated, max_len_cmp};
ghost use Rattle.resources_ip_prefix.specs.Refusals.{HasNoMaxLen};
ghost use Rattle.resources_ip_prefix.specs.Orders.{max_len_total, max_len_eq, max_len_equiv, max_len_ties, max_len_fed, max_len_alike};

use super::error::MaxLenError;
use super::prefix::Prefix;
use std::cmp::Ordering;
use std::hash::{Hash, Hasher};
use std::marker::Model;
use std::net::IpAddr;

/// A prefix, and the greatest length of the prefixes inside it that are meant, where it is given (RFC 9582 4.3.2.2).
///
/// They are ordered by prefix and then by greatest length, none first.
#[derive(Clone, Copy, Debug)]
pub struct MaxLenPrefix {
    prefix: Prefix,
    max_len: Option<u8>,
}

impl Model for MaxLenPrefix {
    ghost use Rattle.resources_ip_prefix.specs.MaxLens.{MaxLenValue, IsMaxLen};

    ghost Value = { MaxLenValue };

    ghost view = { λ a. record { prefix = a.prefix; max_len = a.max_len } };

    ghost invariant = { λ a. IsMaxLen (record { prefix = a.prefix; max_len = a.max_len }) };

    ghost inverse = { λ m. record { prefix = m.prefix; max_len = m.max_len } };
}

impl MaxLenPrefix {
    /// The prefix with this greatest length. Refused with `Overflow` where it is above the address's number of bits,
    /// and else with `Underflow` where it is below the prefix's length.
    pub fn new(prefix: Prefix, max_len: Option<u8>) -> Result<Self, MaxLenError>
        ensures { MatchResult result
            (λ m. IsMaxLen m × (m ≡ record { prefix = prefix; max_len = max_len }))
            (HasNoMaxLen prefix max_len) }
    {
        if let Some(max_len) = max_len {
            if max_len > prefix.addr_len() {
                return Err(MaxLenError::Overflow);
            }
            if max_len < prefix.len() {
                return Err(MaxLenError::Underflow);
            }
        }
        Ok(MaxLenPrefix { prefix, max_len })
    }

    /// The prefix with the greatest length that is nearest to this one: between the prefix's length and the
    /// address's number of bits.
    pub fn saturating_new(prefix: Prefix, max_len: Option<u8>) -> Self
        ensures value { result ≡ saturated prefix max_len }
        ensures whole { IsMaxLen result }
    {
        let least = prefix.len();
        let most = prefix.addr_len();
        let max_len = match max_len {
            Some(max_len) => Some(max_len.clamp(least, most)),
            None => None,
        };
        MaxLenPrefix { prefix, max_len }
    }

    /// The prefix.
    pub fn prefix(self) -> Prefix
        ensures { result ≡ self.prefix }
    {
        self.prefix
    }

    /// The prefix's first address.
    pub fn addr(self) -> IpAddr
        ensures family { family_of result ≡ self.prefix.family }
        ensures bits { bits_of result ≡ self.prefix.first }
    {
        self.prefix.addr()
    }

    /// The prefix's length.
    pub fn prefix_len(self) -> u8
        ensures { result ≡ self.prefix.len }
    {
        self.prefix.len()
    }

    /// The greatest length, where it is given.
    pub fn max_len(self) -> Option<u8>
        ensures value { result ≡ self.max_len }
        ensures whole { IsMaxLen self }
    {
        self.max_len
    }

    /// The greatest length, or the prefix's own where none is given.
    pub fn resolved_max_len(self) -> u8
        ensures { result ≡ resolved self }
    {
        self.max_len.unwrap_or(self.prefix.len())
    }
}

impl From<Prefix> for MaxLenPrefix {
    ghost from_gives = { λ prefix m. m ≡ record { prefix = prefix; max_len = None } };

    fn from(prefix: Prefix) -> Self {
        MaxLenPrefix {
            prefix,
            max_len: None,
        }
    }
}

impl PartialEq for MaxLenPrefix {
    ghost eq = { max_len_eq };

    ghost laws = { partial_equiv_from_equiv max_len_equiv };

    fn eq(&self, other: &MaxLenPrefix) -> bool {
        self.prefix == other.prefix && self.max_len == other.max_len
    }
}

impl Eq for MaxLenPrefix {
    ghost laws = { max_len_equiv };
}

impl Ord for MaxLenPrefix {
    ghost cmp = { max_len_cmp };

    ghost total = { max_len_total };

    ghost matches_partial_cmp = { λ m n. refl };

    ghost matches_eq = { max_len_ties };

    fn cmp(&self, other: &MaxLenPrefix) -> Ordering {
        self.prefix
            .cmp(&other.prefix)
            .then(self.max_len.cmp(&other.max_len))
    }
}

impl PartialOrd for MaxLenPrefix {
    ghost partial_cmp = { as_partial_cmp max_len_cmp };

    ghost laws = { po max_len_total max_len_ties };

    fn partial_cmp(&self, other: &MaxLenPrefix) -> Option<Ordering> {
        Some(self.cmp(other))
    }
}

impl Hash for MaxLenPrefix {
    ghost hash_input = { max_len_fed };

    ghost respects_eq = { max_len_alike };

    fn hash<H: Hasher>(&self, state: &mut H) {
        self.prefix.hash(state);
        self.max_len.hash(state);
    }
}
