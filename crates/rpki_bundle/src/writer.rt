//! What is written of bundles and of their entries, by the codec.
//!
//! All is generic over what lends the octets: the toolchain covers no call that takes a struct with a borrow
//! and a fact of its own by value, as `sequence` of borrowed strings would be.

ghost use Rattle.std.specs.Prelude.{◌≡◌, IfOk, IfErr, OnOk};
ghost use Rattle.rpki_bundle.specs.bcder_tree.declared.mode.Mode.TheVariants.{Der};
ghost use Rattle.rpki_bundle.specs.bcder_tree.Tags.{IsTag};
ghost use Rattle.rpki_bundle.specs.bcder_primitive.Writing.{HasLength, Wrote, CannotWrite, WriteRefused};
ghost use Rattle.rpki_bundle.specs.Bundle.{number_of};
ghost use Rattle.rpki_bundle.specs.Written.{AreMembers, IsPair, IsTriple, WritesMembers, WritesPair, WritesTriple};

use crate::Version;
use crate::version::Flag;
use crate::whole::Entries;
use certs_key::encode::{Constructed, EncodeError, Octets, Primitive, Values};
use certs_key::string::OctetSliceEncoder;
use certs_key::{Mode, Tag};
use std::convert::AsSlice;
use std::io::Write;

/// How many octets a string of that tag and an OCTET STRING have, in a SEQUENCE.
pub fn pair_len<T: AsSlice<u8> + Drop>(
    mode: Mode,
    tag: Tag,
    first: T,
    second: T,
) -> Result<usize, EncodeError>
    requires { IsTag tag }
    ensures len { IfOk result (HasLength (WritesPair mode tag (T.items first) (T.items second))) }
    ensures refused { IfErr result
        (CannotWrite (IsPair mode tag (T.items first) (T.items second))
        (WritesPair mode tag (T.items first) (T.items second))) }
{
    let first = OctetSliceEncoder { tag, octets: first };
    let second = OctetSliceEncoder {
        tag: Tag::OCTET_STRING,
        octets: second,
    };
    let values = Constructed {
        tag: Tag::SEQUENCE,
        inner: (first, second),
    };
    values.encoded_len(mode)
}

/// Writes a string of that tag and an OCTET STRING, in a SEQUENCE.
pub fn write_pair<T: AsSlice<u8> + Drop, W: Write>(
    mode: Mode,
    tag: Tag,
    first: T,
    second: T,
    target: &mut W,
) -> Result<(), EncodeError>
    requires { IsTag tag }
    ensures written { OnOk result
        (Wrote (WritesPair mode tag (T.items first) (T.items second)) (W.contents target.old)
        (W.contents target.new)) }
    ensures refused { IfErr result
        (WriteRefused (IsPair mode tag (T.items first) (T.items second))
        (WritesPair mode tag (T.items first) (T.items second)) (target.new ≡ target.old)
        (W.contents target.old) (W.contents target.new)) }
{
    let first = OctetSliceEncoder { tag, octets: first };
    let second = OctetSliceEncoder {
        tag: Tag::OCTET_STRING,
        octets: second,
    };
    let values = Constructed {
        tag: Tag::SEQUENCE,
        inner: (first, second),
    };
    values.write_encoded(mode, target)
}

/// How many octets three OCTET STRINGs have, in a SEQUENCE.
pub fn triple_len<T: AsSlice<u8> + Drop>(
    mode: Mode,
    first: T,
    second: T,
    third: T,
) -> Result<usize, EncodeError>
    ensures len { IfOk result
        (HasLength (WritesTriple mode (T.items first) (T.items second) (T.items third))) }
    ensures refused { IfErr result
        (CannotWrite (IsTriple (T.items first) (T.items second) (T.items third))
        (WritesTriple mode (T.items first) (T.items second) (T.items third))) }
{
    let tag = Tag::OCTET_STRING;
    let first = Primitive {
        tag,
        content: Octets(first),
    };
    let second = Primitive {
        tag,
        content: Octets(second),
    };
    let third = Primitive {
        tag,
        content: Octets(third),
    };
    let values = Constructed {
        tag: Tag::SEQUENCE,
        inner: (first, second, third),
    };
    values.encoded_len(mode)
}

/// Writes three OCTET STRINGs, in a SEQUENCE.
pub fn write_triple<T: AsSlice<u8> + Drop, W: Write>(
    mode: Mode,
    first: T,
    second: T,
    third: T,
    target: &mut W,
) -> Result<(), EncodeError>
    ensures written { OnOk result
        (Wrote (WritesTriple mode (T.items first) (T.items second) (T.items third))
        (W.contents target.old) (W.contents target.new)) }
    ensures refused { IfErr result
        (WriteRefused (IsTriple (T.items first) (T.items second) (T.items third))
        (WritesTriple mode (T.items first) (T.items second) (T.items third))
        (target.new ≡ target.old) (W.contents target.old) (W.contents target.new)) }
{
    let tag = Tag::OCTET_STRING;
    let first = Primitive {
        tag,
        content: Octets(first),
    };
    let second = Primitive {
        tag,
        content: Octets(second),
    };
    let third = Primitive {
        tag,
        content: Octets(third),
    };
    let values = Constructed {
        tag: Tag::SEQUENCE,
        inner: (first, second, third),
    };
    values.write_encoded(mode, target)
}

/// The lists, one after the other, each a SEQUENCE OF its entries.
impl Values for Entries {
    ghost use Rattle.rpki_bundle.specs.Written.{ListTrees, WritesLists, lists_spelled, lists_one};

    ghost trees = { λ e. ListTrees e.locators.items e.objects.items e.verdicts.items };

    ghost writes = { λ e. WritesLists e.locators.items e.objects.items e.verdicts.items };

    fn encoded_len(&self, mode: Mode) -> Result<usize, EncodeError> {
        let tag = Tag::SEQUENCE;
        let locators = Constructed {
            tag,
            inner: &self.locators,
        };
        let objects = Constructed {
            tag,
            inner: &self.objects,
        };
        let verdicts = Constructed {
            tag,
            inner: &self.verdicts,
        };
        (locators, objects, verdicts).encoded_len(mode)
    }

    fn write_encoded<W: Write>(&self, mode: Mode, target: &mut W) -> Result<(), EncodeError> {
        let tag = Tag::SEQUENCE;
        let locators = Constructed {
            tag,
            inner: &self.locators,
        };
        let objects = Constructed {
            tag,
            inner: &self.objects,
        };
        let verdicts = Constructed {
            tag,
            inner: &self.verdicts,
        };
        (locators, objects, verdicts).write_encoded(mode, target)
    }

    ghost spelled = { λ e. lists_spelled e.locators.items e.objects.items e.verdicts.items };

    ghost one_text = { λ e. lists_one e.locators.items e.objects.items e.verdicts.items };
}

/// How many octets a bundle has, in DER.
pub fn members_len<T: AsSlice<u8> + Drop, E: Values + Drop>(
    version: Version,
    text: T,
    depth: u8,
    entries: E,
) -> Result<usize, EncodeError>
    ensures len { IfOk result (HasLength (WritesMembers Der (number_of version) version
        (T.items text) depth (E.writes entries Der))) }
    ensures refused { IfErr result (CannotWrite
        (AreMembers (number_of version) version (T.items text) depth (E.trees entries Der))
        (WritesMembers Der (number_of version) version (T.items text) depth
        (E.writes entries Der))) }
{
    let tag = Tag::INTEGER;
    let flag = Flag { version };
    let number = Primitive {
        tag,
        content: version.number(),
    };
    let moment = Primitive {
        tag: Tag::GENERALIZED_TIME,
        content: Octets(text),
    };
    let depth = Primitive {
        tag,
        content: depth,
    };
    let values = Constructed {
        tag: Tag::SEQUENCE,
        inner: (number, moment, depth, flag, entries),
    };
    values.encoded_len(Mode::Der)
}

/// Writes a bundle, in DER.
pub fn write_members<T: AsSlice<u8> + Drop, E: Values + Drop, W: Write>(
    version: Version,
    text: T,
    depth: u8,
    entries: E,
    target: &mut W,
) -> Result<(), EncodeError>
    ensures written { OnOk result (Wrote (WritesMembers Der (number_of version) version
        (T.items text) depth (E.writes entries Der)) (W.contents target.old)
        (W.contents target.new)) }
    ensures refused { IfErr result (WriteRefused
        (AreMembers (number_of version) version (T.items text) depth (E.trees entries Der))
        (WritesMembers Der (number_of version) version (T.items text) depth
        (E.writes entries Der)) (target.new ≡ target.old) (W.contents target.old)
        (W.contents target.new)) }
{
    let tag = Tag::INTEGER;
    let flag = Flag { version };
    let number = Primitive {
        tag,
        content: version.number(),
    };
    let moment = Primitive {
        tag: Tag::GENERALIZED_TIME,
        content: Octets(text),
    };
    let depth = Primitive {
        tag,
        content: depth,
    };
    let values = Constructed {
        tag: Tag::SEQUENCE,
        inner: (number, moment, depth, flag, entries),
    };
    values.write_encoded(Mode::Der, target)
}
