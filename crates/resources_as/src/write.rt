//! Sets of AS numbers and AS resources that are written (RFC 3779 section 3.2.3).

ghost use Rattle.std.specs.Prelude.{◌≡◌, IfOk, IfErr, OnOk};
ghost use Rattle.resources_as.specs.bcder_tree.Tags.{sequence_tag};
ghost use Rattle.resources_as.specs.bcder_primitive.Encoded.{IsWrapped, WritesWrapped};
ghost use Rattle.resources_as.specs.bcder_primitive.Writing.{HasLength, Wrote, CannotWrite, WriteRefused};
ghost use Rattle.resources_as.specs.resources_chain.Claims.{HasMaximal};
ghost use Rattle.resources_as.specs.resources_chain.Sets.{AreMaximal};
ghost use Rattle.resources_as.specs.resources_chain.declared.choice.ResourcesChoice.TheVariants.{Inherit};
ghost use Rattle.resources_as.specs.Written.{AreIdentifiers, WritesIdentifiers, AreAsBlocks, WritesAsBlocks, AreAsResources, WritesAsResources, blocks_spelled, blocks_one, resources_spelled, resources_one};

use crate::blocks::AsBlocks;
use crate::codec::encode::{Constructed, EncodeError, Primitive, Values};
use crate::codec::{Mode, Tag};
use crate::resources::AsResources;
use resources_chain::ResourcesChoice;
use std::io::Write;

/// The blocks of the set, bare and ascending: `id` for one number alone, else `range` (RFC 3779 section 3.2.3.4).
impl Values for AsBlocks {
    ghost trees = { λ set m. AreAsBlocks set };

    ghost writes = { λ set m. WritesAsBlocks m set };

    fn encoded_len(&self, mode: Mode) -> Result<usize, EncodeError> {
        self.as_blocks().encoded_len(mode)
    }

    fn write_encoded<W: Write>(&self, mode: Mode, target: &mut W) -> Result<(), EncodeError> {
        self.as_blocks().write_encoded(mode, target)
    }

    ghost spelled = { λ set m. blocks_spelled m set };

    ghost one_text = { λ set m. blocks_one m set };
}

impl AsBlocks {
    /// The set as values that can be written: its blocks (RFC 3779 section 3.2.3.4), with no SEQUENCE around them.
    pub fn encode_ref(&self) -> &AsBlocks
        ensures same { result.now ≡ self.now }
        ensures maximal { AreMaximal self.now }
    {
        self.runs_are_maximal();
        self
    }
}

// How many octets AS resources have around what they say.
fn identifiers_len<V: Values + Drop>(mode: Mode, inner: V) -> Result<usize, EncodeError>
    ensures len { IfOk result (HasLength (WritesIdentifiers mode (V.writes inner mode))) }
    ensures refused { IfErr result
        (CannotWrite (AreIdentifiers (V.trees inner mode))
        (WritesIdentifiers mode (V.writes inner mode))) }
{
    let asnum = Constructed {
        tag: Tag::CTX_0,
        inner,
    };
    let values = Constructed {
        tag: Tag::SEQUENCE,
        inner: asnum,
    };
    values.encoded_len(mode)
}

// Writes AS resources around what they say.
fn write_identifiers<V: Values + Drop, W: Write>(
    mode: Mode,
    inner: V,
    target: &mut W,
) -> Result<(), EncodeError>
    ensures written { OnOk result
        (Wrote (WritesIdentifiers mode (V.writes inner mode)) (W.contents target.old)
        (W.contents target.new)) }
    ensures refused { IfErr result
        (WriteRefused (AreIdentifiers (V.trees inner mode))
        (WritesIdentifiers mode (V.writes inner mode)) (target.new ≡ target.old)
        (W.contents target.old) (W.contents target.new)) }
{
    let asnum = Constructed {
        tag: Tag::CTX_0,
        inner,
    };
    let values = Constructed {
        tag: Tag::SEQUENCE,
        inner: asnum,
    };
    values.write_encoded(mode, target)
}

// How many octets `inherit` has, as AS resources.
fn inherit_len(mode: Mode) -> Result<usize, EncodeError>
    ensures len { IfOk result (HasLength (WritesAsResources mode Inherit)) }
    ensures refused { IfErr result
        (CannotWrite (AreAsResources Inherit) (WritesAsResources mode Inherit)) }
{
    let inherit = Primitive {
        tag: Tag::NULL,
        content: (),
    };
    identifiers_len(mode, inherit)
}

// Writes `inherit`, as AS resources.
fn write_inherit<W: Write>(mode: Mode, target: &mut W) -> Result<(), EncodeError>
    ensures written { OnOk result
        (Wrote (WritesAsResources mode Inherit) (W.contents target.old) (W.contents target.new)) }
    ensures refused { IfErr result
        (WriteRefused (AreAsResources Inherit) (WritesAsResources mode Inherit)
        (target.new ≡ target.old) (W.contents target.old) (W.contents target.new)) }
{
    let inherit = Primitive {
        tag: Tag::NULL,
        content: (),
    };
    write_identifiers(mode, inherit, target)
}

// How many octets a list of blocks has, as AS resources.
fn list_len<V: Values + Drop>(mode: Mode, blocks: V) -> Result<usize, EncodeError>
    ensures len { IfOk result
        (HasLength
        (WritesIdentifiers mode (WritesWrapped mode sequence_tag (V.writes blocks mode)))) }
    ensures refused { IfErr result
        (CannotWrite (AreIdentifiers (IsWrapped sequence_tag (V.trees blocks mode)))
        (WritesIdentifiers mode (WritesWrapped mode sequence_tag (V.writes blocks mode)))) }
{
    let list = Constructed {
        tag: Tag::SEQUENCE,
        inner: blocks,
    };
    identifiers_len(mode, list)
}

// Writes a list of blocks, as AS resources.
fn write_list<V: Values + Drop, W: Write>(
    mode: Mode,
    blocks: V,
    target: &mut W,
) -> Result<(), EncodeError>
    ensures written { OnOk result
        (Wrote (WritesIdentifiers mode (WritesWrapped mode sequence_tag (V.writes blocks mode)))
        (W.contents target.old) (W.contents target.new)) }
    ensures refused { IfErr result
        (WriteRefused (AreIdentifiers (IsWrapped sequence_tag (V.trees blocks mode)))
        (WritesIdentifiers mode (WritesWrapped mode sequence_tag (V.writes blocks mode)))
        (target.new ≡ target.old) (W.contents target.old) (W.contents target.new)) }
{
    let list = Constructed {
        tag: Tag::SEQUENCE,
        inner: blocks,
    };
    write_identifiers(mode, list, target)
}

/// The SEQUENCE of an extension's value; nothing where AS resources are missing.
impl Values for AsResources {
    ghost trees = { λ resources m. AreAsResources resources };

    ghost writes = { λ resources m. WritesAsResources m resources };

    fn encoded_len(&self, mode: Mode) -> Result<usize, EncodeError> {
        match self.choice() {
            ResourcesChoice::Missing => Ok(0),
            ResourcesChoice::Inherit => inherit_len(mode),
            ResourcesChoice::Blocks(blocks) => list_len(mode, blocks),
        }
    }

    fn write_encoded<W: Write>(&self, mode: Mode, target: &mut W) -> Result<(), EncodeError> {
        match self.choice() {
            ResourcesChoice::Missing => Ok(()),
            ResourcesChoice::Inherit => write_inherit(mode, target),
            ResourcesChoice::Blocks(blocks) => write_list(mode, blocks, target),
        }
    }

    ghost spelled = { λ resources m. resources_spelled m resources };

    ghost one_text = { λ resources m. resources_one m resources };
}

impl AsResources {
    /// The resources as values that can be written (RFC 3779 section 3.2.3).
    pub fn encode_ref(&self) -> &AsResources
        ensures same { result.now ≡ self.now }
        ensures maximal { HasMaximal self.now }
    {
        self.runs_are_maximal();
        self
    }
}
