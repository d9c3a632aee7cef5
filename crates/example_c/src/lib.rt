//! Numbers in DER (X.690) for C, and for whatever calls C: an example of a static library on the codec `bcder` alone.
//!
//! `examples/c/example.h` declares the two functions as C sees them. `examples/c/main.c` and `examples/rust/main.rs`
//! call them.
#![tactic(auto)]

ghost use Rattle.std.specs.Prelude.{◌≢◌, IfErr};
ghost use Rattle.example_c.specs.bcder_tree.declared.mode.Mode.TheVariants.{Der};
ghost use Rattle.example_c.specs.bcder_content.Captures.{rest_of};
ghost use Rattle.example_c.specs.bcder_content.Exact.{DecodesAs, ReadsAs};
ghost use Rattle.example_c.specs.bcder_content.Here.{here};
ghost use Rattle.example_c.specs.bcder_source.declared.error.DecodeError.TheVariants.{Memory};
ghost use Rattle.example_c.specs.Numbers.{IsNumber, Reads, Writes};

use bcder::Mode;
use bcder::decode::{Decode, DecodeError};
use bcder::encode::{PrimitiveContent, Values};
use std::alloc::Global;
use std::convert::Infallible;

// The number that octets begin with.
fn number_of(octets: &[u8]) -> Result<u64, DecodeError<Infallible>>
    ensures reads { DecodesAs (λ n. n) Der IsNumber octets.now result }
    ensures no_memory { IfErr result (λ e. e ≢ Memory) }
{
    Mode::Der.decode(
        octets,
        |cons|
            ensures reads { ReadsAs (λ n. n) IsNumber
                (here rest_of cons.old) result (here rest_of cons.new) }
            ensures no_memory { IfErr result (λ e. e ≢ Memory) }
        { cons.take_u64() },
    )
}

/// Reads the INTEGER that octets begin with, in DER: puts its number into `number`, and answers `true`. Where they begin
/// with none, or its number is negative or above 2^64 - 1, the answer is `false`, and `number` stays as it is.
#[unsafe(no_mangle)]
pub extern "C" fn example_c_read_number(octets: &[u8], number: &mut u64) -> bool
    ensures { Reads octets.now result number.old number.new }
{
    let read = match number_of(octets) {
        Ok(read) => read,
        Err(_) => return false,
    };
    *number = read;
    true
}

/// Writes the number as an INTEGER in DER to the front of `octets`, and answers how many octets these are. Where there
/// is no room for them, or memory for a copy is refused, the answer is 0, and nothing is written.
#[unsafe(no_mangle)]
pub extern "C" fn example_c_write_number(alloc: Global, number: u64, octets: &mut [u8]) -> usize
    ensures { Writes number result octets.old octets.new }
{
    let Ok(text) = number.encode().to_captured(alloc, Mode::Der) else {
        return 0;
    };
    let text = text.as_slice();
    if octets.len() < text.len() {
        return 0;
    }
    octets[..text.len()].copy_from_slice(text);
    text.len()
}
