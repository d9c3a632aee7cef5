//! Laws of prefixes: the contracts of functions that do nothing.

ghost use Rattle.std.specs.Prelude.{◌≡◌, ◌≤◌, ◌↔◌, ℕ, List};
ghost use Rattle.resources_ip_prefix.specs.AddrPrefixes.{PrefixValue, IsPrefix, Has, Ipv4};
ghost use Rattle.resources_chain.specs.Sets.{InRun};
ghost use Rattle.resources_ip_prefix.specs.Encodings.{FirstBits, IsAddress, IsFamily, prefix_bits};
ghost use Rattle.resources_ip_prefix.specs.Family.{max_len_of};
ghost use Rattle.resources_ip_prefix.specs.Prefix.{prefix_len};
ghost use Rattle.resources_ip_prefix.specs.Prefixes.{first_of, prefix_run};
ghost use Rattle.resources_ip_prefix.specs.Whole.{IsWhole};
ghost use Rattle.resources_ip_prefix.specs.Wide.{widened, wide_run};
ghost use Rattle.resources_ip_prefix.specs.Written.{spelled_bits};
ghost use Rattle.resources_ip_prefix.specs.bcder_octets.BitContents.{WritesBits, bit_string_tag};
ghost use Rattle.resources_ip_prefix.specs.bcder_tree.Tree.{Tree, primitive};
ghost use Rattle.resources_ip_prefix.specs.bcder_tree.declared.mode.Mode.{Mode as ModeValue};
ghost use Rattle.resources_ip_prefix.specs.declared.addr.AddressFamily.{AddressFamily as FamilyValue};
ghost use Rattle.resources_ip_prefix.specs.declared.prefix.Prefix.{Prefix as PrefixParts};

/// A value has one meaning: as the octets of a family (RFC 3779 2.2.3.3), and as an address of a family, by the bits that
/// it states (2.2.3.8).
pub fn one_meaning()
    ensures family { (m : ModeValue) (t : Tree) (one other : FamilyValue) → IsFamily m t one
        → IsFamily m t other → one ≡ other }
    ensures address { (m : ModeValue) (family : FamilyValue) (t : Tree) (one other : FirstBits)
        → IsAddress m family t one → IsAddress m family t other → one ≡ other }
{}

/// A prefix has exactly the addresses that begin with its bits (RFC 3779 2.1.1).
#[tactic(auto, using(crate::proofs::Spans::shared_bits))]
pub fn prefix_is_shared_bits()
    ensures { (addr len n : ℕ) → first_of len addr ≡ addr → InRun (prefix_run addr len) n
        ↔ (first_of len n ≡ addr) }
{}

/// A prefix has an address exactly where its numbers of 128 bits have the first that stands for it (RFC 3779 2.1.1). Those
/// of an IPv4 prefix are over whole addresses.
pub fn prefixes_have_their_numbers()
    ensures has { (p : PrefixValue) (n : ℕ) → IsPrefix p → Has p n
        ↔ InRun (wide_run p) (widened p.family n) }
    ensures whole { (p : PrefixValue) → IsPrefix p → p.family ≡ Ipv4 → IsWhole (wide_run p) }
{}

/// What is written of a prefix that is no longer than an address of the family is read again as its bits, in each mode
/// (RFC 3779 2.2.3.8).
pub fn a_prefix_is_read_again()
    ensures { (m : ModeValue) (family : FamilyValue) (p : PrefixParts) (content : List ℕ)
        → prefix_len p ≤ max_len_of family → WritesBits m (spelled_bits p) content
        → IsAddress m family (primitive bit_string_tag content) (prefix_bits p) }
{}
