//! Captured octets that are written, and values that are gathered as such.

ghost use Rattle.std.specs.Prelude.{◌≡◌, ◌≤◌, ℕ, [], length, IfOk, IfErr, OnOk, OnErr};
ghost use Rattle.bcder_values.specs.Gathered.{Extended, ExtendRefused};
ghost use Rattle.bcder_values.specs.Captures.{StandsIn, CapturedTrees, CapturedText, captured_spelled, captured_one};
ghost use Rattle.bcder_values.specs.bcder_primitive.Writing.{HasLength};
ghost use Rattle.bcder_values.specs.bcder_primitive.declared.written.error.EncodeError.TheVariants.{Memory as memory_refused};
ghost use Rattle.std.specs.Prelude.{◌↔◌, IsTrue};

use crate::Values;
use crate::bcder_tree::Mode;
use bcder_content::Captured;
use bcder_content::bcder_primitive::written::{EncodeError, write_octets};
use bytes::Bytes;
use std::alloc::{AllocError, Global};
use std::io::Write;
use std::marker::Model;

// Whether octets that were captured in one mode stand in another.
fn stands_in(captured: Mode, mode: Mode) -> bool
    ensures { IsTrue result ↔ StandsIn captured mode }
{
    mode == Mode::Ber || captured == mode
}

/// The octets as they were captured: in their own mode, and in BER. In another mode they are refused as
/// `CerUnsupported`, since nothing says that they stand there.
impl Values for Captured {
    ghost trees = { CapturedTrees };

    ghost writes = { CapturedText };

    fn encoded_len(&self, mode: Mode) -> Result<usize, EncodeError> {
        if stands_in(self.mode(), mode) {
            return Ok(self.as_slice().len());
        }
        Err(EncodeError::CerUnsupported)
    }

    fn write_encoded<W: Write>(&self, mode: Mode, target: &mut W) -> Result<(), EncodeError> {
        if stands_in(self.mode(), mode) {
            return write_octets(target, self.as_slice());
        }
        Err(EncodeError::CerUnsupported)
    }

    ghost spelled = { captured_spelled };

    ghost one_text = { captured_one };
}

/// Encoded values that are gathered, one after the other, to be captured octets. Contracts see the mode and
/// the octets.
#[derive(Drop)]
pub struct CapturedBuilder {
    octets: Vec<u8>,
    mode: Mode,
}

impl Model for CapturedBuilder {
    ghost use Rattle.bcder_content.specs.Kept.{CapturedValue, SpellsValues};

    ghost Value = { CapturedValue };

    ghost view = { λ a. record { mode = a.mode; octets = a.octets.items } };

    ghost invariant = { λ a. SpellsValues a.mode a.octets.items };
}

// A copy of octets; where there are none no memory is wanted.
fn copy_of(alloc: Global, octets: &[u8]) -> Result<Vec<u8>, AllocError>
    ensures octets { IfOk result (λ v. v.items ≡ octets.now) }
    ensures some { OnErr result (1 ≤ length octets.now) }
{
    if octets.is_empty() {
        return Ok(Vec::new(alloc));
    }
    Vec::from_slice(alloc, octets)
}

impl CapturedBuilder {
    /// No values yet, in that mode.
    pub fn new(alloc: Global, mode: Mode) -> CapturedBuilder
        ensures { result ≡ record { mode = mode; octets = [] } }
    {
        CapturedBuilder {
            octets: Vec::new(alloc),
            mode,
        }
    }

    /// No values yet, with room for so many octets. Memory is wanted only where they are some.
    pub fn with_capacity(
        alloc: Global,
        capacity: usize,
        mode: Mode,
    ) -> Result<CapturedBuilder, EncodeError>
        ensures made { IfOk result (λ b. b ≡ record { mode = mode; octets = [] }) }
        ensures refused { IfErr result (λ e. e ≡ memory_refused) }
        ensures memory { OnErr result (1 ≤ capacity) }
    {
        match Vec::with_capacity(alloc, capacity) {
            Ok(octets) => Ok(CapturedBuilder { octets, mode }),
            Err(_) => Err(EncodeError::Memory),
        }
    }

    /// The captured values, to go on after them; their octets are copied. Memory is wanted only where there are some.
    pub fn from_captured(alloc: Global, captured: &Captured) -> Result<CapturedBuilder, EncodeError>
        ensures made { IfOk result (λ b. b ≡ captured.now) }
        ensures refused { IfErr result (λ e. e ≡ memory_refused) }
        ensures memory { OnErr result (1 ≤ length captured.now.octets) }
    {
        match copy_of(alloc, captured.as_slice()) {
            Ok(octets) => Ok(CapturedBuilder {
                octets,
                mode: captured.mode(),
            }),
            Err(_) => Err(EncodeError::Memory),
        }
    }

    /// Appends values, encoded in the builder's mode.
    ///
    /// Where `encoded_len` refuses them, or memory is wanted and refused, the builder is as it was. Memory is wanted only
    /// where something is written of them.
    pub fn extend<V: Values>(&mut self, values: &V) -> Result<(), EncodeError>
        ensures extended { OnOk result
            (Extended (V.writes values.now self.old.mode) self.old self.new) }
        ensures refused { IfErr result
            (ExtendRefused (V.trees values.now self.old.mode) (V.writes values.now self.old.mode)) }
        ensures memory { IfErr result (λ e. e ≡ memory_refused
            → (n : ℕ) × HasLength (V.writes values.now self.old.mode) n × (1 ≤ n)) }
        ensures kept { IfErr result (λ e. self.new ≡ self.old) }
    {
        let before = self.octets.len();
        match values.write_encoded(self.mode, &mut self.octets) {
            Ok(()) => Ok(()),
            Err(error) => {
                self.octets.truncate(before);
                Err(error.of_memory())
            }
        }
    }

    /// The values, captured. Memory is wanted only where there are some.
    pub fn freeze(self) -> Result<Captured, EncodeError>
        ensures frozen { IfOk result (λ c. c ≡ self) }
        ensures refused { IfErr result (λ e. e ≡ memory_refused) }
        ensures memory { OnErr result (1 ≤ length self.octets) }
    {
        let mode = self.mode;
        match Bytes::from_vec(self.octets) {
            Ok(bytes) => Ok(Captured::from_spelled(bytes, mode)),
            Err(_) => Err(EncodeError::Memory),
        }
    }
}
