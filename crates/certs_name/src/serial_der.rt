//! Serial numbers that are read and written (RFC 5280 4.1.2.2, X.690 8.3).

ghost use Rattle.std.proofs.Common.{rules};
ghost use Rattle.std.specs.Prelude.{◌≡◌, ◌≢◌, ◌↔◌, ℕ, pos, IfErr, IsTrue, OnErr, true};
ghost use Rattle.certs_name.specs.bcder_source.declared.error.DecodeError.TheVariants.{Memory};
ghost use Rattle.certs_name.specs.bcder_tree.Integers.{IsPositive, IsShortest};
ghost use Rattle.certs_name.specs.bcder_tree.Tags.{integer_tag};
ghost use Rattle.certs_name.specs.bcder_primitive.Plain.{plain, ReadsOctetsAs};
ghost use Rattle.certs_name.specs.bcder_primitive.Values.{IsTwosComplement};
ghost use Rattle.certs_name.specs.bcder_content.Exact.{ReadsAs};
ghost use Rattle.certs_name.specs.bcder_content.Here.{here};
ghost use Rattle.certs_name.specs.bcder_number.Integers.{IsNatural};
ghost use Rattle.certs_name.specs.bcder_number.Contents.{one_integer};
ghost use Rattle.certs_basics.specs.Basics.{IsSerial};
ghost use Rattle.certs_name.specs.Serials.{IsSerialContent};

use crate::serial::Serial;
use crate::whole::{Told, take_told};
use certs_basics::decode::{Constructed, DecodeError, Primitive, Source};
use certs_basics::encode::{EncodeError, Octets, PrimitiveContent};
use certs_basics::{Mode, Tag};
use std::io::Write;

// Whether octets are the content of an INTEGER from 0 up: as few as can be, with the sign clear (8.3.2, 8.3.3).
fn is_natural(octets: &[u8]) -> bool
    ensures { IsTrue result ↔ (IsShortest octets.now × IsPositive octets.now) }
{
    match octets {
        [] => false,
        [only] => *only < 128,
        [first, second, ..] => *first < 128 && (*first != 0 || *second >= 128),
    }
}

impl Told for Serial {
    ghost tells = { IsSerialContent };

    fn told(octets: &[u8]) -> Option<Serial> {
        if !is_natural(octets) {
            return None;
        }
        match Serial::from_slice(octets) {
            Ok(serial) => Some(serial),
            Err(_) => None,
        }
    }
}

/// Reading. A number from 2^160 on is refused, and one below 0.
impl Serial {
    /// The serial number of an INTEGER (RFC 5280 4.1.2.2).
    pub fn take_from<S: Source>(cons: &mut Constructed<S>) -> Result<Self, DecodeError<S::Error>>
        ensures reads { ReadsAs (λ n. n) IsSerial
            (here S.rest cons.old) result (here S.rest cons.new) }
        ensures failed { OnErr result ((here S.rest cons.new).failed ≡ true) }
        ensures no_memory { IfErr result (λ e. e ≢ Memory) }
    {
        cons.take_primitive_if(Tag::INTEGER, |prim| Serial::from_primitive(prim))
    }

    /// The serial number whose content octets are left.
    pub fn from_primitive<S: Source>(prim: &mut Primitive<S>) -> Result<Self, DecodeError<S::Error>>
        ensures reads { ReadsOctetsAs (λ n. n) IsSerialContent
            (plain S.rest prim.old) result (plain S.rest prim.new) }
        ensures failed { OnErr result ((plain S.rest prim.new).failed ≡ true) }
        ensures no_memory { IfErr result (λ e. e ≢ Memory) }
    {
        take_told::<Serial, S>(prim)
    }
}

// The octets of a number, after a zero.
fn padded(serial: Serial) -> [u8; 21]
    ensures { IsTwosComplement result (pos serial) }
{
    let (high, low) = serial.halves();
    let mut octets = [0; 21];
    octets[1..5].copy_from_slice(&high.to_be_bytes());
    octets[5..].copy_from_slice(&low.to_be_bytes());
    octets
}

// The octets without those in front that only repeat the sign, which is clear.
fn shortest(octets: &[u8]) -> &[u8]
    requires { IsPositive octets.now }
    ensures shortest { IsShortest result.now }
    ensures same { (n : ℕ)
        → IsTwosComplement octets.now (pos n) → IsTwosComplement result.now (pos n) }
{
    let mut rest = octets;
    loop {
        let [first, second, ..] = rest else {
            return rest;
        };
        if *first != 0 || *second >= 128 {
            return rest;
        }
        rest = &rest[1..];
    }
}

/// The number's only content octets, in every mode.
impl PrimitiveContent for Serial {
    ghost type_tag = { integer_tag };

    ghost content = { λ n m content. IsNatural content n };

    fn tag() -> Tag {
        Tag::INTEGER
    }

    fn encoded_len(&self, mode: Mode) -> Result<usize, EncodeError> {
        let octets = padded(*self);
        let content = shortest(&octets);
        Octets(content).encoded_len(mode)
    }

    fn write_encoded<W: Write>(&self, mode: Mode, target: &mut W) -> Result<(), EncodeError> {
        let octets = padded(*self);
        let content = shortest(&octets);
        Octets(content).write_encoded(mode, target)
    }

    ghost is_tag = { Prim.search rules };

    ghost one_content = { λ n m. one_integer (pos n) };
}
