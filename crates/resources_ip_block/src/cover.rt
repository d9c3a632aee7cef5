//! The prefixes that cover a range of addresses.

ghost use Rattle.std.specs.Prelude.{ℕ, ◌+◌, ◌^◌, ◌≤◌, List};
ghost use Rattle.std.specs.Iterator.{Drains};
ghost use Rattle.resources_ip_block.specs.Range.{run_of_range};
ghost use Rattle.resources_ip_block.specs.Cover.{IsCover, IsFirst, IsBehind, filled, gives, left_at_most};

use crate::range::{ADDR_BITS, AddressRange, after};
use resources_ip_prefix::Prefix;

/// The prefixes that cover a range, as few as there can be, ascending.
#[derive(Clone, Copy, Debug)]
pub struct RangePrefixes {
    left: Option<AddressRange>,
}

impl AddressRange {
    /// The prefixes that cover the range: those that lie in it and whose parent doesn't, ascending. There is no
    /// shorter list of prefixes with exactly its addresses.
    pub fn to_v6_prefixes(self) -> RangePrefixes
        ensures { (prefixes : List _) → Drains gives result prefixes
            → IsCover (run_of_range self) prefixes }
    {
        RangePrefixes { left: Some(self) }
    }

    /// The prefixes over whole IPv4 addresses, from the first 32 bits of its first address to those of its last.
    pub fn to_v4_prefixes(self) -> RangePrefixes
        ensures { (prefixes : List _) → Drains gives result prefixes
            → IsCover (filled (run_of_range self)) prefixes }
    {
        AddressRange::new(self.min().to_min(32), self.max().to_max(32)).to_v6_prefixes()
    }

    // The largest of the prefixes that lie in the range and begin where it does.
    fn first_prefix(self) -> Prefix
        ensures { IsFirst (run_of_range self) result }
    {
        let first = self.min().to_bits();
        let zeros = first.trailing_zeros() as u8;
        let fitting = fitting_bits(self.max().to_bits() - first);
        Prefix::new(self.min(), ADDR_BITS - zeros.min(fitting))
    }

    // What is left of the range after a prefix that begins where it does.
    fn behind(self, prefix: Prefix) -> Option<AddressRange>
        requires { IsFirst (run_of_range self) prefix }
        ensures { IsBehind (run_of_range self) prefix result }
    {
        let min = after(prefix.max())?;
        if self.max() < min {
            return None;
        }
        Some(AddressRange::new(min, self.max()))
    }
}

// How many bits can be free at most where there are only so many addresses as numbers from 0 to `last`.
fn fitting_bits(last: u128) -> u8
    ensures within { result ≤ 128 }
    ensures fits { 2 ^ result ≤ last + 1 }
    ensures most { (bits : ℕ) → bits ≤ 128 → 2 ^ bits ≤ last + 1 → bits ≤ result }
{
    match last.checked_add(1) {
        Some(count) => ADDR_BITS - 1 - count.leading_zeros() as u8,
        None => ADDR_BITS,
    }
}

impl Iterator for RangePrefixes {
    type Item = Prefix;

    ghost next_gives = { gives };

    ghost remaining = { left_at_most };

    fn next(&mut self) -> Option<Prefix> {
        let range = self.left?;
        let prefix = range.first_prefix();
        self.left = range.behind(prefix);
        Some(prefix)
    }
}
