//! Blocks of AS numbers read from texts: `AS1`, `AS3-AS5`.

ghost use Rattle.resources_asn.specs.BlockTexts.{ReadsAsBlock};

use crate::Asn;
use crate::as_block::block::AsBlock;
use crate::as_block::error::FromStrError;
use crate::as_block::range::AsRange;
use std::str::FromStr;

/// Reads one AS number, or two with a dash between. The first failing test decides: `BadRange` where there is a second
/// dash, `BadAsn` where a number is none, and `BadRange` where the last is below the first.
impl FromStr for AsBlock {
    type Err = FromStrError;

    ghost from_str_gives = { ReadsAsBlock };

    fn from_str(text: &str) -> Result<Self, FromStrError> {
        let Some((min, max)) = text.split_once('-') else {
            let asn = text.parse::<Asn>()?;
            return Ok(AsBlock::Id(asn));
        };
        if max.contains('-') {
            return Err(FromStrError::BadRange);
        }
        let first = min.parse::<Asn>()?;
        let last = max.parse::<Asn>()?;
        if last < first {
            return Err(FromStrError::BadRange);
        }
        Ok(AsBlock::Range(AsRange::new(first, last)))
    }
}
