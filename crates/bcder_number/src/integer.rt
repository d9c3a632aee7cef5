//! INTEGERs of any size (X.690 8.3).

ghost use Rattle.std.specs.Prelude.{◌≡◌, ◌↔◌, ◌<◌, ◌<ℤ◌, ℤ, pos, IsTrue, IfErr, OnErr, true};
ghost use Rattle.bcder_number.specs.bcder_tree.Tags.{integer_tag};
ghost use Rattle.bcder_number.specs.bcder_primitive.Plain.{plain, ReadsOctetsAs};
ghost use Rattle.bcder_number.specs.bcder_content.Exact.{ReadsAs};
ghost use Rattle.bcder_number.specs.bcder_content.Grammar.{OctetsOf};
ghost use Rattle.bcder_number.specs.bcder_content.Here.{here};
ghost use Rattle.bcder_number.specs.bcder_content.Memory.{OnMemory};
ghost use Rattle.bcder_values.specs.bcder_content.Ahead.{HasOctets, HasNext};
ghost use Rattle.bcder_number.specs.Integers.{IsInteger};

use crate::bcder_content::Constructed;
use crate::bcder_content::whole::{front, request_all, take_front};
use crate::bcder_primitive::Primitive;
use crate::bcder_source::{ContentError, DecodeError, Source};
use crate::bcder_tree::Tag;
use crate::error::OverflowError;
use crate::octets;
use bytes::Bytes;
use std::alloc::{AllocError, Global};
use std::marker::Model;

/// An INTEGER of any size, as its content octets (X.690 8.3), which copies share. Contracts see the number.
#[derive(Debug, Drop)]
pub struct Integer {
    octets: Bytes,
}

impl Model for Integer {
    ghost use Rattle.std.specs.Prelude.{ℤ};
    ghost use Rattle.bcder_number.specs.Integers.{IsInteger, told};

    ghost Value = { ℤ };

    ghost view = { λ i. told i.octets };

    ghost invariant = { λ i. IsInteger i.octets (told i.octets) };
}

impl Integer {
    // The number with these content octets.
    pub(crate) fn new(octets: Bytes) -> Integer
        requires { (x : ℤ) × IsInteger octets x }
        ensures { IsInteger octets result }
    {
        Integer { octets }
    }

    /// An INTEGER (X.690 8.3), which must be next. Memory is wanted only where it is.
    pub fn take_from<S: Source>(
        alloc: Global,
        cons: &mut Constructed<S>,
    ) -> Result<Integer, DecodeError<S::Error>>
        ensures reads { ReadsAs (λ x. x) (OctetsOf integer_tag IsInteger) (here S.rest cons.old)
            result (here S.rest cons.new) }
        ensures failed { OnErr result ((here S.rest cons.new).failed ≡ true) }
        ensures memory { IfErr result
            (λ e. OnMemory e (HasNext (OctetsOf integer_tag IsInteger) (here S.rest cons.old))) }
    {
        cons.take_primitive_if(Tag::INTEGER, |prim| Integer::from_primitive(alloc, prim))
    }

    /// The INTEGER whose content octets are left; where the source shares its octets none is copied. Memory is wanted only
    /// where they are those of an INTEGER.
    pub fn from_primitive<S: Source>(
        alloc: Global,
        prim: &mut Primitive<S>,
    ) -> Result<Integer, DecodeError<S::Error>>
        ensures reads { ReadsOctetsAs (λ x. x) IsInteger (plain S.rest prim.old) result
            (plain S.rest prim.new) }
        ensures failed { OnErr result ((plain S.rest prim.new).failed ≡ true) }
        ensures memory { IfErr result
            (λ e. OnMemory e (HasOctets IsInteger (plain S.rest prim.old))) }
    {
        let count = request_all(prim)?;
        let is_integer = octets::is_integer(front(prim, count));
        if !is_integer {
            prim.failed = true;
            return Err((*prim).content_err(ContentError::from_static("invalid integer")));
        }
        match take_front(alloc, prim, count) {
            Ok(octets) => Ok(Integer::new(octets)),
            Err(error) => Err(error),
        }
    }

    /// Whether the number is 0.
    pub fn is_zero(&self) -> bool
        ensures { IsTrue result ↔ (self.now ≡ pos 0) }
    {
        octets::is_zero(self.as_slice())
    }

    /// Whether the number is above 0; of 0 it is false.
    pub fn is_positive(&self) -> bool
        ensures { IsTrue result ↔ (pos 0 <ℤ self.now) }
    {
        !self.is_negative() && !self.is_zero()
    }

    /// Whether the number is below 0.
    pub fn is_negative(&self) -> bool
        ensures { IsTrue result ↔ (self.now <ℤ pos 0) }
    {
        octets::is_negative(self.as_slice())
    }

    /// The content octets, the only ones of the number.
    pub fn as_slice(&self) -> &[u8]
        ensures { IsInteger result.now self.now }
    {
        self.octets.as_slice()
    }

    /// The content octets, the only ones of the number.
    pub fn as_bytes(&self) -> &Bytes
        ensures { IsInteger result.now self.now }
    {
        &self.octets
    }

    /// The content octets, the only ones of the number; none is copied.
    pub fn into_bytes(self) -> Bytes
        ensures { IsInteger result self }
    {
        self.octets
    }
}

/// A clone is an equal number. It takes no memory, but a count of copies can be full.
impl Clone for Integer {
    ghost is_clone = { λ x copy. copy ≡ x };

    fn clone(&self) -> Result<Integer, AllocError> {
        Ok(Integer::new(self.octets.clone()?))
    }
}
