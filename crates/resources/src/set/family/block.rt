//! Blocks of one family.

ghost use Rattle.std.specs.Prelude.{◌≡◌, ◌↔◌, IsTrue, IfOk, Some};
ghost use Rattle.resources.specs.resources_ip_prefix.All.{all_addresses};
ghost use Rattle.resources.specs.resources_ip_prefix.Address.{bits_of};
ghost use Rattle.resources.specs.resources_ip_block.Block.{run_of_block};
ghost use Rattle.resources.specs.resources_ip_block.BlockText.{address_text, block_text};
ghost use Rattle.resources.specs.Families.{FitsBlock};
ghost use Rattle.resources.specs.FamilyTexts.{ReadsFamilyBlock};

use crate::set::family::{Family, V4, V6};
use resources_ip::{Addr, AddressFamily, FromStrError, IpBlock};
use std::alloc::AllocError;
use std::fmt;
use std::marker::{Model, PhantomData};
use std::str::FromStr;

/// A block of addresses of one family: of IPv4 over whole addresses. Contracts see the block.
#[derive(Debug, Drop)]
pub struct FamilyBlock<F: Family> {
    block: IpBlock,
    family: PhantomData<F>,
}

/// A block of whole IPv4 addresses.
pub type Ipv4Block = FamilyBlock<V4>;

/// A block of IPv6 addresses.
pub type Ipv6Block = FamilyBlock<V6>;

impl<F: Family> Model for FamilyBlock<F> {
    ghost use Rattle.resources.specs.resources_ip_block.declared.block.IpBlock.{IpBlock as BlockValue};
    ghost use Rattle.resources.specs.resources_ip_block.Block.{run_of_block};
    ghost use Rattle.resources.specs.Families.{FitsBlock};

    ghost Value = { BlockValue };

    ghost view = { λ a. a.block };

    ghost invariant = { λ a. FitsBlock F.family (run_of_block a.block) };

    ghost inverse = { λ b. record { block = b; family = record {} } };
}

impl<F: Family> FamilyBlock<F> {
    // The block, which is one of the family.
    fn of_block(block: IpBlock) -> Self
        requires { FitsBlock F.family (run_of_block block) }
        ensures { result ≡ block }
    {
        FamilyBlock {
            block,
            family: PhantomData,
        }
    }

    /// The block of all addresses.
    #[tactic(auto, using(crate::proofs::FamilyLemmas::all_fit))]
    pub fn all() -> Self
        ensures { run_of_block result ≡ all_addresses }
    {
        FamilyBlock::of_block(IpBlock::all())
    }

    /// Whether the block has all addresses.
    pub fn is_slash_zero(&self) -> bool
        ensures { IsTrue result ↔ (run_of_block self.now ≡ all_addresses) }
    {
        self.block.is_slash_zero()
    }

    /// The first address.
    pub fn min(&self) -> Addr
        ensures { bits_of result ≡ (run_of_block self.now).first }
    {
        self.block.min()
    }

    /// The last address; of IPv4 with ones after its 32 bits.
    pub fn max(&self) -> Addr
        ensures { bits_of result ≡ (run_of_block self.now).last }
    {
        self.block.max()
    }

    // The block, as one of either family.
    pub(crate) fn as_block(&self) -> IpBlock
        ensures same { result ≡ self.now }
        ensures fits { FitsBlock F.family (run_of_block self.now) }
    {
        self.block
    }
}

impl<F: Family> Clone for FamilyBlock<F> {
    ghost is_clone = { λ block copy. copy ≡ block };

    fn clone(&self) -> Result<Self, AllocError> {
        Ok(*self)
    }
}

impl<F: Family> Copy for FamilyBlock<F> {}

impl<F: Family> From<FamilyBlock<F>> for IpBlock {
    ghost from_gives = { λ x b. b ≡ x };

    fn from(block: FamilyBlock<F>) -> Self {
        block.block
    }
}

/// The block of a text `10.0.0.0/8` or `2001:db8::-2001:db8::9`.
impl<F: Family> FromStr for FamilyBlock<F> {
    type Err = FromStrError;

    ghost from_str_gives = { ReadsFamilyBlock F.family };

    fn from_str(text: &str) -> Result<Self, FromStrError> {
        let block = block_of_text(F::family(), text)?;
        Ok(FamilyBlock::of_block(block))
    }
}

// The block of the family that the text writes.
fn block_of_text(family: AddressFamily, text: &str) -> Result<IpBlock, FromStrError>
    ensures fits { IfOk result (λ b. FitsBlock family (run_of_block b)) }
    ensures reads { ReadsFamilyBlock family text.now result }
{
    match family {
        AddressFamily::Ipv4 => IpBlock::from_v4_str(text),
        AddressFamily::Ipv6 => IpBlock::from_v6_str(text),
    }
}

/// As a prefix where it is one, else as a range.
impl<F: Family> fmt::Display for FamilyBlock<F> {
    ghost output = { λ b. Some (block_text (address_text F.family) (run_of_block b)) };

    fn fmt<W: fmt::Write>(&self, f: &mut fmt::Formatter<W>) -> fmt::Result {
        match F::family() {
            AddressFamily::Ipv4 => write!(f, "{}", self.block.display_v4()),
            AddressFamily::Ipv6 => write!(f, "{}", self.block.display_v6()),
        }
    }
}
