//! Sets of addresses and IP resources that are written (RFC 3779 2.2.3).

ghost use Rattle.std.specs.Prelude.{◌≡◌, IfOk, IfErr, OnOk};
ghost use Rattle.resources_ip.specs.bcder_primitive.Writing.{HasLength, Wrote, CannotWrite, WriteRefused};
ghost use Rattle.resources_ip.specs.resources_chain.Sets.{AreMaximal};
ghost use Rattle.resources_ip.specs.resources_chain.declared.choice.ResourcesChoice.TheVariants.{Inherit};
ghost use Rattle.resources_ip.specs.resources_ip_prefix.declared.addr.AddressFamily.TheVariants.{Ipv4, Ipv6};
ghost use Rattle.resources_ip.specs.WholeSets.{ListsWhole};
ghost use Rattle.resources_ip.specs.Written.{FitsChoice, AreIpList, WritesIpList, list_spelled, list_one, AreIpResources, WritesIpResources, resources_spelled, resources_one};

use crate::blocks::IpBlocks;
use crate::codec::encode::{Constructed, EncodeError, Primitive, Values};
use crate::codec::{Mode, Tag};
use crate::resources::IpResources;
use resources_chain::ResourcesChoice;
use std::io::Write;

/// A SEQUENCE of the blocks of the set, ascending: a prefix where the addresses are those of one, and else a range
/// (RFC 3779 2.2.3.6, 2.2.3.7).
impl Values for IpBlocks {
    ghost trees = { λ set m. AreIpList m set };

    ghost writes = { λ set m. WritesIpList m set };

    fn encoded_len(&self, mode: Mode) -> Result<usize, EncodeError> {
        let list = Constructed {
            tag: Tag::SEQUENCE,
            inner: self.as_blocks(),
        };
        list.encoded_len(mode)
    }

    fn write_encoded<W: Write>(&self, mode: Mode, target: &mut W) -> Result<(), EncodeError> {
        let list = Constructed {
            tag: Tag::SEQUENCE,
            inner: self.as_blocks(),
        };
        list.write_encoded(mode, target)
    }

    ghost spelled = { λ set m. list_spelled m set };

    ghost one_text = { λ set m. list_one m set };
}

impl IpBlocks {
    /// The set as values that can be written: the list of a family (RFC 3779 2.2.3.6).
    pub fn encode_ref(&self) -> &IpBlocks
        ensures same { result.now ≡ self.now }
        ensures maximal { AreMaximal self.now }
    {
        self.runs_are_maximal();
        self
    }
}

// How many octets `inherit` has.
fn inherit_len(mode: Mode) -> Result<usize, EncodeError>
    ensures len { IfOk result (HasLength (WritesIpResources mode Inherit)) }
    ensures refused { IfErr result
        (CannotWrite (AreIpResources mode Inherit) (WritesIpResources mode Inherit)) }
{
    let inherit = Primitive {
        tag: Tag::NULL,
        content: (),
    };
    inherit.encoded_len(mode)
}

// Writes `inherit`.
fn write_inherit<W: Write>(mode: Mode, target: &mut W) -> Result<(), EncodeError>
    ensures written { OnOk result
        (Wrote (WritesIpResources mode Inherit) (W.contents target.old) (W.contents target.new)) }
    ensures refused { IfErr result
        (WriteRefused (AreIpResources mode Inherit) (WritesIpResources mode Inherit)
        (target.new ≡ target.old) (W.contents target.old) (W.contents target.new)) }
{
    let inherit = Primitive {
        tag: Tag::NULL,
        content: (),
    };
    inherit.write_encoded(mode, target)
}

/// What is said of a family: NULL for `inherit`, else the list; nothing where it is missing (RFC 3779 2.2.3.4).
impl Values for IpResources {
    ghost trees = { λ resources m. AreIpResources m resources };

    ghost writes = { λ resources m. WritesIpResources m resources };

    fn encoded_len(&self, mode: Mode) -> Result<usize, EncodeError> {
        match self.choice() {
            ResourcesChoice::Missing => Ok(0),
            ResourcesChoice::Inherit => inherit_len(mode),
            ResourcesChoice::Blocks(blocks) => blocks.encoded_len(mode),
        }
    }

    fn write_encoded<W: Write>(&self, mode: Mode, target: &mut W) -> Result<(), EncodeError> {
        match self.choice() {
            ResourcesChoice::Missing => Ok(()),
            ResourcesChoice::Inherit => write_inherit(mode, target),
            ResourcesChoice::Blocks(blocks) => blocks.write_encoded(mode, target),
        }
    }

    ghost spelled = { λ resources m. resources_spelled m resources };

    ghost one_text = { λ resources m. resources_one m resources };
}

impl IpResources {
    /// The resources as values that can be written: what is said of a family (RFC 3779 2.2.3.4).
    #[tactic(auto, using(crate::proofs::Fitting::fits_v4, crate::proofs::Fitting::fits_v6))]
    pub fn encode_ref(&self) -> &IpResources
        ensures same { result.now ≡ self.now }
        ensures fits_v4 { ListsWhole self.now → FitsChoice Ipv4 self.now }
        ensures fits_v6 { FitsChoice Ipv6 self.now }
    {
        self.runs_are_maximal();
        self
    }
}
