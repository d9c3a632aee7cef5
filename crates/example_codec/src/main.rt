//! Tallies in DER (X.690), counted on: an example of a program on the codec `bcder` alone.
//!
//! Each line of standard input has the octets of a tally, in hexadecimal digits. It is answered by what the tally says and
//! by the octets of the next one, of which one more has passed; or by why the octets begin with no tally.
#![tactic(auto)]

ghost use Rattle.std.specs.Prelude.{IfOk};
ghost use Rattle.example_codec.specs.bcder_tree.declared.mode.Mode.TheVariants.{Der};
ghost use Rattle.example_codec.specs.bcder_content.Captures.{rest_of};
ghost use Rattle.example_codec.specs.bcder_content.Exact.{DecodesAs, ReadsAs};
ghost use Rattle.example_codec.specs.bcder_content.Here.{here};
ghost use Rattle.example_codec.specs.bcder_content.InMode.{ReadsFields};
ghost use Rattle.example_codec.specs.Tallies.{IsReadAgain, tally, tally_body, tally_fields};

use bcder::decode::{Decode, DecodeError};
use bcder::encode::{EncodeError, PrimitiveContent, Values, sequence};
use bcder::{Captured, Mode};
use std::alloc::Global;
use std::convert::Infallible;

/// `Tally ::= SEQUENCE { station INTEGER (0..65535), count INTEGER (0..18446744073709551615) }`
#[derive(Clone, Copy)]
struct Tally {
    station: u16,
    count: u64,
}

impl Tally {
    /// The tally that octets begin with. Octets after it stay unread, and any other value is refused.
    fn from_der(octets: &[u8]) -> Result<Tally, DecodeError<Infallible>>
        ensures { DecodesAs tally_fields Der (tally.reads Der) octets.now result }
    {
        Mode::Der.decode(
            octets,
            |cons|
                ensures { ReadsAs tally_fields (tally.reads (here rest_of cons.old).mode)
                    (here rest_of cons.old) result (here rest_of cons.new) }
            {
                cons.take_sequence(
                    |cons|
                        ensures { ReadsFields tally_fields tally_body.reads
                            (here rest_of cons.old) result (here rest_of cons.new) }
                    {
                        let station = cons.take_u16()?;
                        let count = cons.take_u64()?;
                        Ok(Tally { station, count })
                    },
                )
            },
        )
    }

    /// The octets of the tally, which are read again as this tally alone.
    fn to_der(self, alloc: Global) -> Result<Captured, EncodeError>
        ensures written { IfOk result (λ c. tally.writes (tally_fields self) Der c.octets) }
        ensures again { IfOk result (λ c. IsReadAgain (tally_fields self) c.octets) }
    {
        sequence((self.station.encode(), self.count.encode())).to_captured(alloc, Mode::Der)
    }
}

// What the tally of a line says, and the octets of the next one.
fn answer(alloc: Global, digits: &str) -> anyhow::Result<String> {
    let octets = hex::decode(alloc, digits)?;
    let tally = Tally::from_der(octets.as_slice())?;
    let (station, count) = (tally.station, tally.count.saturating_add(1));
    let next = Tally { station, count }.to_der(alloc)?;
    let digits = hex::encode(alloc, next.as_slice())?;
    Ok(format!(in alloc; "station {station}: {}, next {digits}", tally.count)?)
}

fn main(rt: HostRuntime) -> anyhow::Result<()> {
    for line in rt.lines(rt.alloc()) {
        match answer(rt.alloc(), line?.as_str()) {
            Ok(text) => println!(rt; "{text}")?,
            Err(error) => println!(rt; "refused: {error}")?,
        }
    }
    Ok(())
}
