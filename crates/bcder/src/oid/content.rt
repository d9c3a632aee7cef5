//! Object identifiers read from contents.

ghost use Rattle.std.specs.Prelude.{◌≡◌, ◌↔◌, ◌≢◌, IfErr, OnErr, IsTrue, true};
ghost use Rattle.bcder.specs.bcder_source.declared.error.DecodeError.TheVariants.{Memory};
ghost use Rattle.bcder.specs.bcder_tree.Tags.{oid_tag};
ghost use Rattle.bcder.specs.bcder_primitive.Plain.{plain, ReadsOctetsAs};
ghost use Rattle.bcder.specs.bcder_content.Exact.{ReadsAs, ReadsOptAs};
ghost use Rattle.bcder.specs.bcder_content.Grammar.{OctetsOf};
ghost use Rattle.bcder.specs.bcder_content.Here.{here};
ghost use Rattle.bcder.specs.bcder_content.Memory.{OnMemory};
ghost use Rattle.bcder.specs.bcder_content.Ahead.{HasOctets, HasNext};
ghost use Rattle.bcder.specs.Identifiers.{IsIdentifier, IsOid, IsAnyOid, AreOctets};

use crate::oid::oid::Oid;
use bcder_octets::bcder_content::whole::{front, pass, refuse, request_all, take_front};
use bcder_octets::bcder_content::{Constructed, Primitive};
use bcder_octets::bcder_source::{DecodeError, Source, Tag};
use bytes::Bytes;
use std::alloc::Global;
use std::convert::AsSlice;

// Whether octets are those of an identifier: the last has bit 8 clear.
fn is_identifier(octets: &[u8]) -> bool
    ensures { IsTrue result ↔ IsIdentifier octets.now }
{
    match octets.split_last() {
        Some((last, _)) => *last < 128,
        None => false,
    }
}

// Whether octets are the same.
fn are_same(first: &[u8], second: &[u8]) -> bool
    ensures { IsTrue result ↔ (first.now ≡ second.now) }
{
    first == second
}

// Goes past a content that is just these octets.
fn skip_octets<S: Source>(
    prim: &mut Primitive<S>,
    expected: &[u8],
) -> Result<(), DecodeError<S::Error>>
    ensures reads { ReadsOctetsAs (λ x. x) (AreOctets expected.now) (plain S.rest prim.old) result
        (plain S.rest prim.new) }
    ensures failed { OnErr result ((plain S.rest prim.new).failed ≡ true) }
    ensures no_memory { IfErr result (λ e. e ≢ Memory) }
{
    let count = request_all(prim)?;
    let is_expected = are_same(front(prim, count), expected);
    if is_expected {
        pass(prim, count);
        return Ok(());
    }
    Err(refuse(prim, "another object identifier was expected"))
}

/// Reading. A value that is read must be next; an optional one is there where a value with its tag is next.
impl Oid<Bytes> {
    /// Skips an OBJECT IDENTIFIER (X.690 8.19).
    pub fn skip_in<S: Source>(cons: &mut Constructed<S>) -> Result<(), DecodeError<S::Error>>
        ensures reads { ReadsAs (λ x. x) (OctetsOf oid_tag IsAnyOid) (here S.rest cons.old)
            result (here S.rest cons.new) }
        ensures failed { OnErr result ((here S.rest cons.new).failed ≡ true) }
        ensures no_memory { IfErr result (λ e. e ≢ Memory) }
    {
        cons.take_primitive_if(Tag::OID, |prim| Oid::skip_primitive(prim))
    }

    /// Skips an OBJECT IDENTIFIER, if one is next, and answers whether (X.690 8.19).
    pub fn skip_opt_in<S: Source>(
        cons: &mut Constructed<S>,
    ) -> Result<Option<()>, DecodeError<S::Error>>
        ensures reads { ReadsOptAs (λ x. x) oid_tag (OctetsOf oid_tag IsAnyOid)
            (here S.rest cons.old) result (here S.rest cons.new) }
        ensures failed { OnErr result ((here S.rest cons.new).failed ≡ true) }
        ensures no_memory { IfErr result (λ e. e ≢ Memory) }
    {
        cons.take_opt_primitive_if(Tag::OID, |prim| Oid::skip_primitive(prim))
    }

    /// The octets of an OBJECT IDENTIFIER (X.690 8.19); where the source shares its octets none is copied. Memory is wanted
    /// only where one is next.
    pub fn take_from<S: Source>(
        alloc: Global,
        cons: &mut Constructed<S>,
    ) -> Result<Self, DecodeError<S::Error>>
        ensures reads { ReadsAs (λ oid. oid.0) (OctetsOf oid_tag IsOid) (here S.rest cons.old)
            result (here S.rest cons.new) }
        ensures failed { OnErr result ((here S.rest cons.new).failed ≡ true) }
        ensures memory { IfErr result
            (λ e. OnMemory e (HasNext (OctetsOf oid_tag IsOid) (here S.rest cons.old))) }
    {
        cons.take_primitive_if(Tag::OID, |prim| Oid::from_primitive(alloc, prim))
    }

    /// The octets of an OBJECT IDENTIFIER, if one is next (X.690 8.19). Memory is wanted only then.
    pub fn take_opt_from<S: Source>(
        alloc: Global,
        cons: &mut Constructed<S>,
    ) -> Result<Option<Self>, DecodeError<S::Error>>
        ensures reads { ReadsOptAs (λ oid. oid.0) oid_tag (OctetsOf oid_tag IsOid)
            (here S.rest cons.old) result (here S.rest cons.new) }
        ensures failed { OnErr result ((here S.rest cons.new).failed ≡ true) }
        ensures memory { IfErr result
            (λ e. OnMemory e (HasNext (OctetsOf oid_tag IsOid) (here S.rest cons.old))) }
    {
        cons.take_opt_primitive_if(Tag::OID, |prim| Oid::from_primitive(alloc, prim))
    }

    /// Skips the content of an OBJECT IDENTIFIER: one or more octets, of which the last has bit 8 clear.
    pub fn skip_primitive<S: Source>(prim: &mut Primitive<S>) -> Result<(), DecodeError<S::Error>>
        ensures reads { ReadsOctetsAs (λ x. x) IsAnyOid (plain S.rest prim.old) result
            (plain S.rest prim.new) }
        ensures failed { OnErr result ((plain S.rest prim.new).failed ≡ true) }
        ensures no_memory { IfErr result (λ e. e ≢ Memory) }
    {
        let count = request_all(prim)?;
        let is_oid = is_identifier(front(prim, count));
        if is_oid {
            pass(prim, count);
            return Ok(());
        }
        Err(refuse(prim, "invalid object identifier"))
    }

    /// The content of an OBJECT IDENTIFIER: one or more octets, of which the last has bit 8 clear. Memory is wanted only
    /// where it is such.
    pub fn from_primitive<S: Source>(
        alloc: Global,
        prim: &mut Primitive<S>,
    ) -> Result<Self, DecodeError<S::Error>>
        ensures reads { ReadsOctetsAs (λ oid. oid.0) IsOid (plain S.rest prim.old) result
            (plain S.rest prim.new) }
        ensures failed { OnErr result ((plain S.rest prim.new).failed ≡ true) }
        ensures memory { IfErr result (λ e. OnMemory e (HasOctets IsOid (plain S.rest prim.old))) }
    {
        let count = request_all(prim)?;
        let is_oid = is_identifier(front(prim, count));
        if !is_oid {
            return Err(refuse(prim, "invalid object identifier"));
        }
        match take_front(alloc, prim, count) {
            Ok(octets) => Ok(Oid(octets)),
            Err(error) => Err(error),
        }
    }
}

impl<T: AsSlice<u8>> Oid<T> {
    /// Skips an OBJECT IDENTIFIER that is this one, by its octets; any other value is refused.
    pub fn skip_if<S: Source>(&self, cons: &mut Constructed<S>) -> Result<(), DecodeError<S::Error>>
        ensures reads { ReadsAs (λ x. x) (OctetsOf oid_tag (AreOctets (T.items self.now.0)))
            (here S.rest cons.old) result (here S.rest cons.new) }
        ensures failed { OnErr result ((here S.rest cons.new).failed ≡ true) }
        ensures no_memory { IfErr result (λ e. e ≢ Memory) }
    {
        let expected = self.as_slice();
        cons.take_primitive_if(Tag::OID, |prim| skip_octets(prim, expected))
    }
}
