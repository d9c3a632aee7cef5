//! Ranges of addresses.

ghost use Rattle.std.specs.Prelude.{◌≡◌, ◌≢◌, ◌+◌, ℕ, ◌≤◌, MatchOption, MatchResult, refl};
ghost use Rattle.std.specs.Range.{range_inclusive_start, range_inclusive_end};
ghost use Rattle.resources_ip_prefix.specs.All.{last_address};
ghost use Rattle.resources_ip_prefix.specs.Address.{bits_of, bits_within, one_addr};
ghost use Rattle.resources_ip_prefix.specs.Prefix.{run_of_prefix};
ghost use Rattle.resources_ip_prefix.specs.Prefixes.{first_of, prefix_run};

use resources_chain::Block;
use resources_ip_prefix::{Addr, Prefix};
use std::ops::RangeInclusive;

// How many bits an address has.
pub(crate) const ADDR_BITS: u8 = 128;

/// The addresses from one on up to another, both included (RFC 3779 2.2.3.9).
#[derive(Clone, Copy, Debug, PartialEq, Eq, Hash)]
pub struct AddressRange {
    first: Addr,
    last: Addr,
    ghost ordered: { bits_of first ≤ bits_of last },
}

impl AddressRange {
    ghost use Rattle.resources_ip_block.specs.Range.{run_of_range};

    /// The addresses from `min` to `max`, which isn't before it.
    pub fn new(min: Addr, max: Addr) -> Self
        requires { bits_of min ≤ bits_of max }
        ensures { run_of_range result ≡ record { first = bits_of min; last = bits_of max } }
    {
        AddressRange {
            first: min,
            last: max,
        }
    }

    /// The first address.
    pub fn min(self) -> Addr
        ensures value { bits_of result ≡ (run_of_range self).first }
        ensures order { bits_of result ≤ (run_of_range self).last }
    {
        self.first
    }

    /// The last address.
    pub fn max(self) -> Addr
        ensures value { bits_of result ≡ (run_of_range self).last }
        ensures order { (run_of_range self).first ≤ bits_of result }
    {
        self.last
    }

    /// Puts another first address, which isn't after the last.
    pub fn set_min(&mut self, min: Addr)
        requires { bits_of min ≤ (run_of_range self.old).last }
        ensures { run_of_range self.new ≡ record (run_of_range self.old) { first = bits_of min } }
    {
        *self = AddressRange::new(min, self.max());
    }

    /// Puts another last address, which isn't before the first.
    pub fn set_max(&mut self, max: Addr)
        requires { (run_of_range self.old).first ≤ bits_of max }
        ensures { run_of_range self.new ≡ record (run_of_range self.old) { last = bits_of max } }
    {
        *self = AddressRange::new(self.min(), max);
    }

    /// The prefix of the same addresses; the range itself where there is none.
    pub fn into_prefix(self) -> Result<Prefix, Self>
        ensures { MatchResult result (λ p. run_of_prefix p ≡ run_of_range self)
            (λ r. (r ≡ self)
            × ((addr len : ℕ) → len ≤ 128 → first_of len addr ≡ addr
            → prefix_run addr len ≢ run_of_range self)) }
    {
        let min = self.min();
        let max = self.max();
        let size = max.to_bits() - min.to_bits();
        let prefix = Prefix::new(min, size.leading_zeros() as u8);
        if prefix.min() == min && prefix.max() == max {
            Ok(prefix)
        } else {
            Err(self)
        }
    }
}

// The address after this one; none after the last.
pub(crate) fn after(addr: Addr) -> Option<Addr>
    ensures { MatchOption result (bits_of addr ≡ last_address)
        (λ next. bits_of next ≡ bits_of addr + 1) }
{
    Some(Addr::from_bits(addr.to_bits().checked_add(1)?))
}

// The address before this one; none before the first.
pub(crate) fn before(addr: Addr) -> Option<Addr>
    ensures { MatchOption result (bits_of addr ≡ 0)
        (λ previous. bits_of previous + 1 ≡ bits_of addr) }
{
    Some(Addr::from_bits(addr.to_bits().checked_sub(1)?))
}

impl Block for AddressRange {
    ghost use Rattle.resources_ip_block.specs.Range.{run_of_range, range_within};

    type Item = Addr;

    ghost place = { bits_of };

    ghost last_place = { last_address };

    ghost run = { run_of_range };

    fn new(bounds: RangeInclusive<Addr>) -> Self
        requires { bits_of (range_inclusive_start bounds) ≤ bits_of (range_inclusive_end bounds) }
        ensures first { (run_of_range result).first ≡ bits_of (range_inclusive_start bounds) }
        ensures last { (run_of_range result).last ≡ bits_of (range_inclusive_end bounds) }
    {
        let (min, max) = bounds.into_inner();
        AddressRange::new(min, max)
    }

    fn min(&self) -> Addr {
        AddressRange::min(*self)
    }

    fn max(&self) -> Addr {
        AddressRange::max(*self)
    }

    fn next(item: Addr) -> Option<Addr> {
        after(item)
    }

    fn previous(item: Addr) -> Option<Addr> {
        before(item)
    }

    ghost item_within = { bits_within };

    ghost item_is_its_place = { one_addr };

    ghost item_order = { λ x y. refl };

    ghost run_within = { range_within };
}

impl From<Prefix> for AddressRange {
    ghost use Rattle.resources_ip_block.specs.Range.{run_of_range};

    ghost from_gives = { λ p r. run_of_range r ≡ run_of_prefix p };

    fn from(prefix: Prefix) -> Self {
        AddressRange::new(prefix.min(), prefix.max())
    }
}
