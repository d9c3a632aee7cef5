//! A first example: the one on the front page of `bcder`, with its contracts.

ghost use Rattle.bcder_example.specs.bcder_tree.declared.mode.Mode.TheVariants.{Der};
ghost use Rattle.bcder_example.specs.bcder_content.Captures.{rest_of};
ghost use Rattle.bcder_example.specs.bcder_content.Exact.{DecodesAs, ReadsAs};
ghost use Rattle.bcder_example.specs.bcder_content.Here.{here};
ghost use Rattle.bcder_example.specs.bcder_content.InMode.{ReadsFields};
ghost use Rattle.bcder_example.specs.Versions.{IsVersion, IsVersionBody, pair_fields};

use bcder::Mode;
use bcder::decode::{Decode, DecodeError};
use std::convert::Infallible;

/// The version that octets begin with in DER, `SEQUENCE { major INTEGER, minor INTEGER }`, of
/// numbers up to 255.
pub fn version_of(octets: &[u8]) -> Result<(u8, u8), DecodeError<Infallible>>
    ensures { DecodesAs pair_fields Der IsVersion octets.now result }
{
    Mode::Der.decode(
        octets,
        |cons|
            ensures { ReadsAs pair_fields IsVersion
                (here rest_of cons.old) result (here rest_of cons.new) }
        {
            cons.take_sequence(
                |cons|
                    ensures { ReadsFields pair_fields IsVersionBody
                        (here rest_of cons.old) result (here rest_of cons.new) }
                {
                    let major = cons.take_u8()?;
                    let minor = cons.take_u8()?;
                    Ok((major, minor))
                },
            )
        },
    )
}
