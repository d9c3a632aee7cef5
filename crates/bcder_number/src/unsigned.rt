//! INTEGERs from 0 up, of any size (X.690 8.3).

ghost use Rattle.std.specs.Prelude.{◌≡◌, ◌↔◌, ◌<ℤ◌, ℕ, pos, IsTrue, IfOk, IfErr, OnErr, true};
ghost use Rattle.bcder_number.specs.bcder_tree.Tags.{integer_tag};
ghost use Rattle.bcder_number.specs.bcder_primitive.Plain.{plain, ReadsOctetsAs};
ghost use Rattle.bcder_number.specs.bcder_content.Exact.{ReadsAs};
ghost use Rattle.bcder_number.specs.bcder_content.Grammar.{OctetsOf};
ghost use Rattle.bcder_number.specs.bcder_content.Here.{here};
ghost use Rattle.bcder_number.specs.bcder_content.Memory.{OnMemory};
ghost use Rattle.bcder_values.specs.bcder_content.Ahead.{HasOctets, HasNext};
ghost use Rattle.bcder_number.specs.Integers.{IsNatural};

use crate::bcder_content::Constructed;
use crate::bcder_content::whole::{front, request_all, take_front};
use crate::bcder_primitive::Primitive;
use crate::bcder_source::{ContentError, DecodeError, Source};
use crate::bcder_tree::Tag;
use crate::error::{InvalidInteger, OverflowError};
use crate::integer::Integer;
use crate::octets;
use bytes::Bytes;
use std::alloc::{AllocError, Global};
use std::marker::Model;

/// An INTEGER from 0 up, of any size (X.690 8.3), which copies share. Contracts see the number.
#[derive(Debug, Drop)]
pub struct Unsigned {
    integer: Integer,
}

impl Model for Unsigned {
    ghost use Rattle.std.specs.Prelude.{◌≡◌, ℕ, pos, unsigned_abs};

    ghost Value = { ℕ };

    ghost view = { λ u. unsigned_abs u.integer };

    ghost invariant = { λ u. u.integer ≡ pos (unsigned_abs u.integer) };
}

impl Unsigned {
    // The number, which is from 0 up.
    pub(crate) fn new(integer: Integer) -> Unsigned
        requires { (n : ℕ) × (integer ≡ pos n) }
        ensures { integer ≡ pos result }
    {
        Unsigned { integer }
    }

    /// The number with these content octets, of which a copy is made.
    ///
    /// `Invalid` where they aren't the content octets of an INTEGER from 0 up: as few as can be, with the sign clear.
    pub fn from_slice(alloc: Global, octets: &[u8]) -> Result<Unsigned, InvalidInteger>
        ensures given { IfOk result (λ n. IsNatural octets.now n) }
        ensures refused { IfErr result
            (λ e. e ≡ InvalidInteger.Invalid → (n : ℕ) → IsNatural octets.now n → ⊥) }
        ensures memory { IfErr result
            (λ e. e ≡ InvalidInteger.Memory → (n : ℕ) × IsNatural octets.now n) }
    {
        if !octets::is_natural(octets) {
            return Err(InvalidInteger::Invalid);
        }
        let Ok(octets) = Bytes::copy_from_slice(alloc, octets) else {
            return Err(InvalidInteger::Memory);
        };
        Ok(Unsigned::new(Integer::new(octets)))
    }

    /// The number with these content octets, which are kept as they are.
    ///
    /// `Invalid` where they aren't the content octets of an INTEGER from 0 up: as few as can be, with the sign clear.
    pub fn from_bytes(octets: Bytes) -> Result<Unsigned, InvalidInteger>
        ensures given { IfOk result (λ n. IsNatural octets n) }
        ensures refused { IfErr result
            (λ e. (e ≡ InvalidInteger.Invalid) × ((n : ℕ) → IsNatural octets n → ⊥)) }
    {
        if !octets::is_natural(octets.as_slice()) {
            return Err(InvalidInteger::Invalid);
        }
        Ok(Unsigned::new(Integer::new(octets)))
    }

    /// The number, if it is from 0 up.
    pub fn from_integer(integer: Integer) -> Result<Unsigned, OverflowError>
        ensures given { IfOk result (λ n. integer ≡ pos n) }
        ensures refused { IfErr result (λ _. integer <ℤ pos 0) }
    {
        if integer.is_negative() {
            return Err(OverflowError);
        }
        Ok(Unsigned::new(integer))
    }

    /// An INTEGER (X.690 8.3) from 0 up, which must be next. Memory is wanted only where it is.
    pub fn take_from<S: Source>(
        alloc: Global,
        cons: &mut Constructed<S>,
    ) -> Result<Unsigned, DecodeError<S::Error>>
        ensures reads { ReadsAs (λ n. n) (OctetsOf integer_tag IsNatural) (here S.rest cons.old)
            result (here S.rest cons.new) }
        ensures failed { OnErr result ((here S.rest cons.new).failed ≡ true) }
        ensures memory { IfErr result
            (λ e. OnMemory e (HasNext (OctetsOf integer_tag IsNatural) (here S.rest cons.old))) }
    {
        cons.take_primitive_if(Tag::INTEGER, |prim| Unsigned::from_primitive(alloc, prim))
    }

    /// The INTEGER from 0 up whose content octets are left; where the source shares its octets none is copied. Memory is
    /// wanted only where they are those of such an INTEGER.
    pub fn from_primitive<S: Source>(
        alloc: Global,
        prim: &mut Primitive<S>,
    ) -> Result<Unsigned, DecodeError<S::Error>>
        ensures reads { ReadsOctetsAs (λ n. n) IsNatural (plain S.rest prim.old) result
            (plain S.rest prim.new) }
        ensures failed { OnErr result ((plain S.rest prim.new).failed ≡ true) }
        ensures memory { IfErr result
            (λ e. OnMemory e (HasOctets IsNatural (plain S.rest prim.old))) }
    {
        let count = request_all(prim)?;
        let is_natural = octets::is_natural(front(prim, count));
        if !is_natural {
            prim.failed = true;
            return Err((*prim).content_err(ContentError::from_static("invalid integer")));
        }
        match take_front(alloc, prim, count) {
            Ok(octets) => Ok(Unsigned::new(Integer::new(octets))),
            Err(error) => Err(error),
        }
    }

    /// The content octets, the only ones of the number.
    pub fn as_slice(&self) -> &[u8]
        ensures { IsNatural result.now self.now }
    {
        self.integer.as_slice()
    }

    /// The content octets, the only ones of the number.
    pub fn as_bytes(&self) -> &Bytes
        ensures { IsNatural result.now self.now }
    {
        self.integer.as_bytes()
    }

    /// The content octets, the only ones of the number; none is copied.
    pub fn into_bytes(self) -> Bytes
        ensures { IsNatural result self }
    {
        self.integer.into_bytes()
    }

    /// Whether the number is 0.
    pub fn is_zero(&self) -> bool
        ensures { IsTrue result ↔ (self.now ≡ 0) }
    {
        self.integer.is_zero()
    }

    /// The number as an `Integer`, borrowed.
    pub fn as_integer(&self) -> &Integer
        ensures { result.now ≡ pos self.now }
    {
        &self.integer
    }

    /// The number as an `Integer`.
    pub fn into_integer(self) -> Integer
        ensures { result ≡ pos self }
    {
        self.integer
    }
}

/// A clone is an equal number. It takes no memory, but a count of copies can be full.
impl Clone for Unsigned {
    ghost is_clone = { λ n copy. copy ≡ n };

    fn clone(&self) -> Result<Unsigned, AllocError> {
        Ok(Unsigned::new(self.as_integer().clone()?))
    }
}

/// An unsigned number is an integer.
impl From<Unsigned> for Integer {
    ghost from_gives = { λ n x. x ≡ pos n };

    fn from(number: Unsigned) -> Integer {
        number.into_integer()
    }
}

impl Integer {
    /// Whether this is the same number as the other.
    pub fn equals_unsigned(&self, other: &Unsigned) -> bool
        ensures { IsTrue result ↔ (self.now ≡ pos other.now) }
    {
        self == other.as_integer()
    }
}
