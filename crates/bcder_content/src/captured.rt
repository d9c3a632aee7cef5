//! Octets that were captured.
ghost use Rattle.std.specs.Prelude.{◌≡◌, ◌≤◌, [], length, IfOk, IfErr};
ghost use Rattle.bcder_content.specs.Captures.{rest_of, ReadsValues, ReadsPart, RefusesPart, ReadsFront, RefusesFront};
ghost use Rattle.bcder_content.specs.Kept.{SpellsValues};
ghost use Rattle.bcder_content.specs.Memory.{OnMemory, InErr};
ghost use Rattle.bcder_content.specs.ClosureReads.{Decoded, fresh};

use crate::bcder_source::{BytesSource, DecodeError, LimitedSource, Mode, Pos, SliceSource};
use crate::constructed::Constructed;
use crate::ending::Ending;
use crate::primitive::Primitive;
use bytes::Bytes;
use std::convert::Infallible;
use std::marker::Model;

/// Octets of values, one after the other, as they were spelled in a mode. Contracts see the mode
/// and the octets. A clone shares them.
#[derive(Clone, Debug, Drop)]
pub struct Captured {
    bytes: Bytes,
    mode: Mode,
    start: Pos,
}

impl Model for Captured {
    ghost use Rattle.bcder_content.specs.Kept.{CapturedValue, SpellsValues};

    ghost Value = { CapturedValue };

    ghost view = { λ a. record { mode = a.mode; octets = a.bytes } };

    ghost invariant = { λ a. SpellsValues a.mode a.bytes };
}

/// What a closure reads from the beginning of octets, in that mode, and of how many octets that is. It takes no memory
/// of its own: so octets that are kept are read value by value.
pub fn read_front<
    T: Drop,
    F: FnOnce(&mut Constructed<SliceSource<'_>>) -> Result<T, DecodeError<Infallible>>,
>(octets: &[u8], mode: Mode, op: F) -> Result<(T, usize), DecodeError<Infallible>>
    requires callable { F.IsAlwaysCallable op }
    requires reads { ReadsValues rest_of F.FnOnce op }
    ensures read { IfOk result (λ r. ReadsFront F.FnOnce op mode octets.now r.0 r.1) }
    ensures bound { IfOk result (λ r. r.1 ≤ length octets.now) }
    ensures refused { IfErr result (RefusesFront F.FnOnce op mode octets.now) }
{
    let source = LimitedSource::new(SliceSource::new(octets));
    let mut content = Constructed {
        octets: Primitive {
            source,
            mode,
            failed: false,
            start: Pos::from(0),
        },
        end: Ending::Unbounded,
        constructed: true,
    };
    let value = match op(&mut content) {
        Ok(value) => value,
        Err(error) => return Err(error),
    };
    Ok((value, octets.len() - content.octets.source.source.len()))
}

impl Captured {
    // Values at that position.
    pub(crate) fn new(bytes: Bytes, mode: Mode, start: Pos) -> Captured
        requires { SpellsValues mode bytes }
        ensures { result ≡ record { mode = mode; octets = bytes } }
    {
        Captured { bytes, mode, start }
    }

    /// No values.
    pub fn empty(mode: Mode) -> Captured
        ensures { result ≡ record { mode = mode; octets = [] } }
    {
        Captured {
            bytes: Bytes::new(),
            mode,
            start: Pos::from(0),
        }
    }

    /// Octets that spell values in that mode.
    pub fn from_spelled(bytes: Bytes, mode: Mode) -> Captured
        requires { SpellsValues mode bytes }
        ensures { result ≡ record { mode = mode; octets = bytes } }
    {
        Captured {
            bytes,
            mode,
            start: Pos::from(0),
        }
    }

    /// The mode in which the octets spell values.
    pub fn mode(&self) -> Mode
        ensures { result ≡ self.now.mode }
    {
        self.mode
    }

    /// The octets.
    pub fn as_slice(&self) -> &[u8]
        ensures octets { result.now ≡ self.now.octets }
        ensures spelled { SpellsValues self.now.mode self.now.octets }
    {
        self.bytes.as_slice()
    }

    /// What a closure reads from the beginning of the octets, in their mode.
    pub fn decode<
        T: Drop,
        F: FnOnce(&mut Constructed<BytesSource>) -> Result<T, DecodeError<Infallible>>,
    >(self, op: F) -> Result<T, DecodeError<Infallible>>
        requires { F.IsAlwaysCallable op }
        ensures decoded { Decoded rest_of F.FnOnce op (fresh self.mode self.octets) result }
        ensures memory { IfErr result
            (λ e. OnMemory e (InErr rest_of F.FnOnce op (fresh self.mode self.octets) e)) }
        ensures spelled { SpellsValues self.mode self.octets }
    {
        Constructed::decode(self.bytes, self.mode, op)
    }

    /// What a closure reads from the beginning of the octets, which is then taken from them. Where that
    /// is refused the octets are as they were.
    pub fn decode_partial<
        T: Drop,
        F: FnOnce(&mut Constructed<SliceSource<'_>>) -> Result<T, DecodeError<Infallible>>,
    >(&mut self, op: F) -> Result<T, DecodeError<Infallible>>
        requires callable { F.IsAlwaysCallable op }
        requires reads { ReadsValues rest_of F.FnOnce op }
        ensures read { IfOk result (λ x. ReadsPart F.FnOnce op self.old x self.new) }
        ensures refused { IfErr result (λ e. RefusesPart F.FnOnce op self.old e self.new) }
    {
        let (value, count) = match read_front(self.bytes.as_slice(), self.mode, op) {
            Ok(found) => found,
            Err(error) => return Err(error),
        };
        self.bytes.advance(count);
        Ok(value)
    }

    /// The octets, to keep.
    pub fn into_bytes(self) -> Bytes
        ensures octets { result ≡ self.octets }
        ensures spelled { SpellsValues self.mode self.octets }
    {
        self.bytes
    }
}
