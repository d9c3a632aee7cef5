//! Blocks of addresses: prefixes and ranges.

ghost use Rattle.std.specs.Prelude.{◌≡◌, ℕ, ◌≤◌, ◌↔◌, ◌≢◌, IsTrue, MatchResult, refl};
ghost use Rattle.std.specs.Range.{range_inclusive_start, range_inclusive_end};
ghost use Rattle.resources_ip_prefix.specs.All.{all_addresses, last_address};
ghost use Rattle.resources_ip_prefix.specs.Address.{bits_of, bits_within, one_addr};
ghost use Rattle.resources_ip_prefix.specs.Prefix.{run_of_prefix};
ghost use Rattle.resources_ip_prefix.specs.Prefixes.{first_of, prefix_run};
ghost use Rattle.resources_ip_prefix.specs.Whole.{IsWhole};
ghost use Rattle.resources_ip_prefix.specs.Wide.{wide_run};
ghost use Rattle.resources_ip_block.specs.Range.{run_of_range};

use crate::range::{AddressRange, after, before};
use resources_chain::Block;
use resources_ip_prefix::{Addr, Prefix};
use std::ops::RangeInclusive;

/// A prefix or a range of addresses (RFC 3779 2.2.3.7).
#[derive(Clone, Copy, Debug)]
pub enum IpBlock {
    /// All addresses that begin with the same bits.
    Prefix(Prefix),
    /// All addresses from one on up to another.
    Range(AddressRange),
}

impl IpBlock {
    ghost use Rattle.resources_ip_block.specs.Block.{HasOneForm, run_of_block};

    /// The block of all addresses.
    pub fn all() -> Self
        ensures form { HasOneForm result }
        ensures run { run_of_block result ≡ all_addresses }
    {
        IpBlock::Prefix(Prefix::new(Addr::from_bits(0), 0))
    }

    /// Whether the block has all addresses.
    pub fn is_slash_zero(&self) -> bool
        ensures { IsTrue result ↔ (run_of_block self.now ≡ all_addresses) }
    {
        self.min().to_bits() == 0 && self.max().to_bits() == u128::MAX
    }

    /// The first address.
    pub fn min(&self) -> Addr
        ensures { bits_of result ≡ (run_of_block self.now).first }
    {
        match self {
            IpBlock::Prefix(prefix) => prefix.min(),
            IpBlock::Range(range) => range.min(),
        }
    }

    /// The last address.
    pub fn max(&self) -> Addr
        ensures { bits_of result ≡ (run_of_block self.now).last }
    {
        match self {
            IpBlock::Prefix(prefix) => prefix.max(),
            IpBlock::Range(range) => range.max(),
        }
    }

    /// Whether the block is over whole IPv4 addresses: the 96 bits after the first 32 are zeros in the first
    /// address and ones in the last.
    pub fn is_whole_v4(&self) -> bool
        ensures { IsTrue result ↔ IsWhole (run_of_block self.now) }
    {
        const HOST: u128 = u128::MAX >> 32;
        self.min().to_bits() & HOST == 0 && self.max().to_bits() & HOST == HOST
    }

    /// The block of the addresses of a prefix that knows its family: those of IPv4 are the first 32 of 128 bits
    /// (RFC 3779 2.1.1).
    pub fn from_addr_prefix(prefix: resources_ip_prefix::ip_addr::Prefix) -> Self
        ensures run { run_of_block result ≡ wide_run prefix }
        ensures form { HasOneForm result }
    {
        IpBlock::Prefix(Prefix::from_addr_prefix(prefix))
    }

    // The prefix of the same addresses, or else the range.
    pub(crate) fn as_prefix(&self) -> Result<Prefix, AddressRange>
        ensures { MatchResult result (λ p. run_of_prefix p ≡ run_of_block self.now)
            (λ r. (run_of_range r ≡ run_of_block self.now)
            × ((addr len : ℕ) → len ≤ 128 → first_of len addr ≡ addr
            → prefix_run addr len ≢ run_of_block self.now)) }
    {
        match self {
            IpBlock::Prefix(prefix) => Ok(*prefix),
            IpBlock::Range(range) => range.into_prefix(),
        }
    }
}

impl Block for IpBlock {
    ghost use Rattle.resources_ip_block.specs.Block.{HasOneForm, block_within, run_of_block};

    type Item = Addr;

    ghost place = { bits_of };

    ghost last_place = { last_address };

    ghost run = { run_of_block };

    // A prefix wherever the addresses are those of one (RFC 3779 2.2.3.7).
    fn new(bounds: RangeInclusive<Addr>) -> Self
        requires { bits_of (range_inclusive_start bounds) ≤ bits_of (range_inclusive_end bounds) }
        ensures first { (run_of_block result).first ≡ bits_of (range_inclusive_start bounds) }
        ensures last { (run_of_block result).last ≡ bits_of (range_inclusive_end bounds) }
        ensures form { HasOneForm result }
    {
        let (min, max) = bounds.into_inner();
        match AddressRange::new(min, max).into_prefix() {
            Ok(prefix) => IpBlock::Prefix(prefix),
            Err(range) => IpBlock::Range(range),
        }
    }

    fn min(&self) -> Addr {
        IpBlock::min(self)
    }

    fn max(&self) -> Addr {
        IpBlock::max(self)
    }

    fn next(item: Addr) -> Option<Addr> {
        after(item)
    }

    fn previous(item: Addr) -> Option<Addr> {
        before(item)
    }

    ghost item_within = { bits_within };

    ghost item_is_its_place = { one_addr };

    ghost item_order = { λ x y. refl };

    ghost run_within = { block_within };
}

impl From<Prefix> for IpBlock {
    ghost use Rattle.resources_ip_block.specs.declared.block.IpBlock.TheVariants as Of;

    ghost from_gives = { λ p b. b ≡ Of.Prefix p };

    fn from(prefix: Prefix) -> Self {
        Self::Prefix(prefix)
    }
}

impl From<AddressRange> for IpBlock {
    ghost use Rattle.resources_ip_block.specs.declared.block.IpBlock.TheVariants as Of;

    ghost from_gives = { λ r b. b ≡ Of.Range r };

    fn from(range: AddressRange) -> Self {
        Self::Range(range)
    }
}

impl PartialEq for IpBlock {
    ghost use Rattle.std.specs.Cmp.{partial_equiv_from_equiv};
    ghost use Rattle.resources_ip_block.specs.Block.{run_of_block};
    ghost use Rattle.resources_ip_block.specs.BlockEq.{block_eq, block_eq_equiv};

    ghost eq = { block_eq };

    /// Whether the two blocks have the same addresses.
    fn eq(&self, other: &Self) -> bool
        ensures value { result ≡ block_eq self.now other.now }
        ensures same { IsTrue result ↔ (run_of_block self.now ≡ run_of_block other.now) }
    {
        self.min() == other.min() && self.max() == other.max()
    }

    ghost laws = { partial_equiv_from_equiv block_eq_equiv };
}

impl Eq for IpBlock {
    ghost use Rattle.resources_ip_block.specs.BlockEq.{block_eq_equiv};

    ghost laws = { block_eq_equiv };
}
