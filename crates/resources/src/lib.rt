//! AS numbers and IP addresses as RPKI certificates list them (RFC 3779): sets of them, and claims along a path.
//!
//! This is the face of the resources: a port of `rpki::resources` and `rpki::repository::resources` of the Rust crate
//! `rpki` 0.20.1 in which each call is proved to meet its contract. A value is a set of whole numbers, and contracts
//! say of each call which numbers its answer has. The `specs/` of each crate have the definitions that
//! its contracts cite.
//!
//! | Module | Has |
//! |---|---|
//! | [`asn`] | AS numbers, read and written, small sets of them, and origins in the order of lists |
//! | [`addr`] | strict prefixes, as texts and route origins have them |
//! | [`chain`] | blocks of any kind, chains of them, and the search that halves a row |
//! | [`choice`] | what a certificate says of one kind: nothing, `inherit`, or a set |
//! | [`asres`] | AS resources: blocks, sets and claims, read and written |
//! | [`ipres`] | IP resources: blocks, sets and claims, read and written |
//! | [`set`] | sets of all three kinds, and what two of them differ in |
//! | [`overclaim`] | what becomes of numbers that the issuer doesn't hold, and the object identifiers that tell it |
//! | [`laws`] | what follows for sets and their encodings, as functions that do nothing |
//!
//! What is at the root is what `rpki::repository::resources` has there: [`Prefix`] is the one that clears host bits,
//! and `addr::Prefix` refuses them.
//!
//! What differs from the Rust crate:
//!
//! - What takes memory is given an allocator, first of all, and answers a `Result`: lack of memory is an error of its
//!   own, and never another answer. So `from_str` and `from_iter` of sets are calls of the sets, and not of a trait.
//!   Nothing panics: that a range's end isn't before its beginning, for one, is a condition on the caller.
//! - `Chain` is a struct around a slice, and owned and shared chains lend one by `as_chain`. `trim` answers `None`
//!   where nothing was trimmed.
//! - A refused claim is a [`ClaimError`], with the numbers outside. `verify_path` is new: it folds `verify_issued`
//!   along a path.
//! - Ranges and blocks of AS numbers, sets and resources are themselves values that can be written, where the Rust crate
//!   has `encode`; `encode_ref` lends a set or resources as they are.
//!   Both families of IP resources are read together, as an [`IpFamilies`], of which at least one is there, and
//!   written together, as that or by [`IpResources::encode_families`].
//! - The identifiers of [`Overclaim`] are calls of the trait [`OverclaimIds`].
//! - [`Ipv4Blocks`] has whole IPv4 addresses alone: `from_blocks` has that as a condition on the caller.
//! - A [`ResourceSet`] is made of a certificate's resources by `from_resources`. A [`ResourceDiff`] lends what was
//!   added and what was removed.
//! - `SmallAsnSet::from_iter` keeps a number that comes twice once. What is printed of an IPv6 address that maps an
//!   IPv4 one is read as the same address again.
#![tactic(auto)]

pub mod addr;
pub mod asn;
pub mod asres;
pub mod chain;
pub mod choice;
pub mod ipres;
pub mod laws;
pub mod overclaim;
pub mod set;

pub use asn::{Asn, Origin, SmallAsnSet};
pub use asres::{
    AsBlock, AsBlockIter, AsBlocks, AsBlocksBuilder, AsRange, AsResources, AsResourcesBuilder,
    InheritedAsResources, OverclaimedAsResources,
};
pub use choice::{InheritedResources, ResourcesChoice};
pub use ipres::{
    Addr, AddressFamily, AddressRange, DisplayV4Block, DisplayV6Block, InheritedIpResources,
    IpBlock, IpBlocks, IpBlocksBuilder, IpBlocksForFamily, IpFamilies, IpFamiliesEncoder,
    IpResources, IpResourcesBuilder, Ipv4Block, Ipv4Blocks, Ipv6Block, Ipv6Blocks,
    OverclaimedIpResources, OverclaimedIpv4Resources, OverclaimedIpv6Resources, Prefix,
};
pub use overclaim::{ClaimError, Overclaim, OverclaimIds};
pub use set::{InheritError, ResourceDiff, ResourceSet};
