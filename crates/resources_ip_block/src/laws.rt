//! Laws of prefixes, ranges and blocks: the contracts of functions that do nothing.

ghost use Rattle.std.specs.Prelude.{◌≡◌, ◌≤◌, ℕ};
ghost use Rattle.resources_ip_block.specs.bcder_tree.declared.mode.Mode.{Mode as ModeValue};
ghost use Rattle.resources_ip_block.specs.bcder_tree.Tree.{Tree, Trees};
ghost use Rattle.resources_ip_block.specs.bcder_values.declared.choice.Choice2.{Choice2 as EitherValue};
ghost use Rattle.resources_ip_block.specs.bcder_primitive.declared.written.primitive.Primitive.{Primitive as PrimitiveValue};
ghost use Rattle.resources_ip_block.specs.resources_chain.Sets.{Run};
ghost use Rattle.resources_ip_prefix.specs.declared.addr.AddressFamily.{AddressFamily as FamilyValue};
ghost use Rattle.resources_ip_prefix.specs.declared.addr.AddressFamily.TheVariants.{Ipv4};
ghost use Rattle.resources_ip_prefix.specs.declared.prefix.Prefix.{Prefix as PrefixValue};
ghost use Rattle.resources_ip_block.specs.BlockEncodings.{IsBlock};
ghost use Rattle.resources_ip_block.specs.Cover.{IsLargest, filled};
ghost use Rattle.resources_ip_prefix.specs.Whole.{IsWhole};
ghost use Rattle.resources_ip_block.specs.Written.{BlockTrees, EncodesBlock, FitsRun, RangeValue, ReadsBlock};

pub use resources_ip_prefix::laws::{one_meaning as one_address, prefix_is_shared_bits};

/// A value has one meaning: as a block of addresses of a family, a prefix or a range (RFC 3779 2.2.3.7).
pub fn one_meaning()
    ensures block { (m : ModeValue) (family : FamilyValue) (t : Tree) (one other : Run)
        → IsBlock m family t one → IsBlock m family t other → one ≡ other }
{}

/// Over whole IPv4 addresses `to_v4_prefixes` and `to_v6_prefixes` cover the same.
#[tactic(auto, using(crate::proofs::CoverLemmas::whole_filled))]
pub fn whole_addresses_are_filled()
    ensures { (r : Run) → IsWhole r → filled r ≡ r }
{}

/// A prefix of the cover of whole IPv4 addresses has at most 32 bits.
#[tactic(auto, using(crate::proofs::CoverLemmas::short_v4))]
pub fn prefixes_of_whole_addresses_are_short()
    ensures { (r : Run) (addr len : ℕ) → IsLargest (filled r) addr len → len ≤ 32 }
{}

/// What is written of a block is one value, which is read as a block with the same addresses, in each mode
/// (RFC 3779 2.2.3.7); as one of IPv4 where it is over whole addresses.
#[tactic(auto, using(crate::proofs::Again::block_again))]
pub fn a_block_is_read_again()
    ensures { (m : ModeValue) (family : FamilyValue) (run : Run)
        (x : EitherValue (PrimitiveValue PrefixValue) RangeValue) (ts : Trees)
        → run.first ≤ run.last → FitsRun family run → EncodesBlock run x → BlockTrees m x ts
        → ReadsBlock m family run ts }
{}

/// A block that is read as one of IPv4 is over whole addresses.
pub fn v4_blocks_are_whole()
    ensures { (m : ModeValue) (t : Tree) (run : Run) → IsBlock m Ipv4 t run → IsWhole run }
{}
