//! Laws of IP resources: the contracts of functions that do nothing.

ghost use Rattle.std.specs.Prelude.{◌≡◌, ◌↔◌, ◌⊎◌, ℕ, [], List};
ghost use Rattle.resources_ip.specs.bcder_tree.declared.mode.Mode.{Mode as ModeValue};
ghost use Rattle.resources_ip.specs.bcder_tree.Tree.{Tree, Trees};
ghost use Rattle.resources_ip.specs.resources_chain.Claims.{Choice, Kept};
ghost use Rattle.resources_ip.specs.resources_chain.Kinds.{HasNumber, KeepsNumber, Kind, Ipv4 as V4};
ghost use Rattle.resources_ip.specs.resources_chain.Sets.{Run, InRuns, InEither, IsInside, IsRunsOf};
ghost use Rattle.resources_ip.specs.resources_chain.declared.choice.ResourcesChoice.TheVariants.{Missing};
ghost use Rattle.resources_ip.specs.resources_ip_prefix.declared.addr.AddressFamily.{AddressFamily as FamilyValue};
ghost use Rattle.resources_ip.specs.resources_ip_prefix.declared.addr.AddressFamily.TheVariants.{Ipv4, Ipv6};
ghost use Rattle.resources_ip.specs.Encodings.{FamilyChoices, IsBlockList, IsIpAddrBlocks, IsIpChoice};
ghost use Rattle.resources_ip.specs.Blocks.{IsAddress};
ghost use Rattle.resources_ip.specs.Texts.{IsIpSetText};
ghost use Rattle.resources_ip.specs.WholeSets.{AreWhole, ListsWhole};
ghost use Rattle.resources_ip.specs.Written.{AreIpList, AreIpResources, FitsChoice, FitsSet, ReadsChoice, ReadsList};
ghost use Rattle.resources_ip.specs.WrittenFamilies.{FamiliesTrees, ReadsFamilies, WritesFamilies, both};

pub use resources_ip_block::laws::{
    a_block_is_read_again, one_address, one_meaning as one_block, prefix_is_shared_bits,
    prefixes_of_whole_addresses_are_short, v4_blocks_are_whole, whole_addresses_are_filled,
};

/// What is written of a set is one value, which is read as a list of the same addresses, in each mode
/// (RFC 3779 2.2.3.6); as one of IPv4 where it is over whole addresses.
#[tactic(auto, using(crate::proofs::Again::list_again))]
pub fn a_set_is_read_again()
    ensures { (m : ModeValue) (family : FamilyValue) (runs : List Run) (ts : Trees)
        → FitsSet family runs → AreIpList m runs ts → ReadsList m family runs ts }
{}

/// What is written of resources that aren't missing is one value, which is read as the same choice, in each mode
/// (RFC 3779 2.2.3.4).
#[tactic(auto, using(crate::proofs::Again::choice_again))]
pub fn a_choice_is_read_again()
    ensures { (m : ModeValue) (family : FamilyValue) (choice : Choice) (ts : Trees)
        → FitsChoice family choice → ¬ (choice ≡ Missing) → AreIpResources m choice ts
        → ReadsChoice m family choice ts }
{}

/// What is written of both families is one value where either isn't missing, which is read as the same choices, in each
/// mode (RFC 3779 2.2.3.1); where both are missing nothing is written.
#[tactic(auto, using(crate::proofs::BothFamilies::families_again))]
pub fn families_are_read_again()
    ensures read { (m : ModeValue) (v4 v6 : Choice) (ts : Trees) → FitsChoice Ipv4 v4
        → FitsChoice Ipv6 v6 → ¬ ((v4 ≡ Missing) × (v6 ≡ Missing)) → FamiliesTrees m (both v4 v6) ts
        → ReadsFamilies m (both v4 v6) ts }
    ensures nothing { (m : ModeValue) (text : List ℕ) → WritesFamilies m (both Missing Missing) text
        → text ≡ [] }
{}

/// A value has one meaning: as IP resources of both families (RFC 3779 2.2.3), as what is said of one family
/// (2.2.3.4), and as a list of blocks (2.2.3.6).
pub fn one_meaning()
    ensures families { (m : ModeValue) (t : Tree) (one other : FamilyChoices)
        → IsIpAddrBlocks m t one → IsIpAddrBlocks m t other → one ≡ other }
    ensures choice { (m : ModeValue) (family : FamilyValue) (t : Tree) (one other : Choice)
        → IsIpChoice m family t one → IsIpChoice m family t other → one ≡ other }
    ensures list { (m : ModeValue) (family : FamilyValue) (t : Tree) (one other : List Run)
        → IsBlockList m family t one → IsBlockList m family t other → one ≡ other }
{}

/// What is read of both families fits them, and isn't missing in both: so it can be written, and is read again.
pub fn families_that_are_read_fit()
    ensures v4 { (m : ModeValue) (t : Tree) (x : FamilyChoices) → IsIpAddrBlocks m t x
        → FitsChoice Ipv4 x.v4 }
    ensures v6 { (m : ModeValue) (t : Tree) (x : FamilyChoices) → IsIpAddrBlocks m t x
        → FitsChoice Ipv6 x.v6 }
    ensures any { (m : ModeValue) (t : Tree) (x : FamilyChoices) → IsIpAddrBlocks m t x
        → ¬ ((x.v4 ≡ Missing) × (x.v6 ≡ Missing)) }
{}

/// What is read of a family fits it, and where it is IPv4 lists whole addresses.
pub fn choices_that_are_read_fit()
    ensures fits { (m : ModeValue) (family : FamilyValue) (t : Tree) (choice : Choice)
        → IsIpChoice m family t choice → FitsChoice family choice }
    ensures whole { (choice : Choice) → FitsChoice Ipv4 choice → ListsWhole choice }
{}

/// Sets over whole IPv4 addresses are sets of numbers of 32 bits: one is inside another, and they are equal, exactly where
/// it is so by the addresses that they have.
pub fn whole_sets_are_sets_of_addresses()
    ensures inside { (a b : List Run) → AreWhole a → AreWhole b
        → ((n : ℕ) → InRuns a n → IsAddress n) → IsInside a b
        ↔ ((n : ℕ) → HasNumber V4 a n → HasNumber V4 b n) }
    ensures same { (a b : List Run) → AreWhole a → AreWhole b → ((n : ℕ) → InRuns a n → IsAddress n)
        → ((n : ℕ) → InRuns b n → IsAddress n) → ((n : ℕ) → InRuns a n ↔ InRuns b n)
        ↔ ((n : ℕ) → HasNumber V4 a n ↔ HasNumber V4 b n) }
{}

/// A union has the numbers of either set, and what is kept below an issuer has those that it holds and that are listed or
/// inherited: of each kind, by its own numbers.
pub fn numbers_of_sets()
    ensures union { (kind : Kind) (a b set : List Run) (n : ℕ) → IsRunsOf (InEither a b) set
        → HasNumber kind set n ↔ (HasNumber kind a n ⊎ HasNumber kind b n) }
    ensures kept { (kind : Kind) (choice : Choice) (held set : List Run) (n : ℕ)
        → IsRunsOf (Kept choice (InRuns held)) set → HasNumber kind set n
        ↔ (KeepsNumber kind choice n × HasNumber kind held n) }
{}

/// What is kept of a set over whole IPv4 addresses by a choice that lists whole ones is over whole ones.
pub fn what_is_kept_is_whole()
    ensures { (choice : Choice) (held set : List Run) → ListsWhole choice → AreWhole held
        → IsRunsOf (Kept choice (InRuns held)) set → AreWhole set }
{}

/// A text is that of one set of addresses of a family at most.
pub fn a_text_writes_one_set()
    ensures { (family : FamilyValue) (text : List ℕ) (one other : List Run)
        → IsIpSetText family text one → IsIpSetText family text other → one ≡ other }
{}
