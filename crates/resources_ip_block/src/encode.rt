//! Ranges and blocks that are written (RFC 3779 2.2.3.7, 2.2.3.9).

ghost use Rattle.resources_ip_block.specs.Block.{run_of_block};
ghost use Rattle.resources_ip_block.specs.Range.{run_of_range};
ghost use Rattle.resources_ip_block.specs.WrittenBlock.{AreIpBlock, WritesIpBlock, block_one, block_spelled};
ghost use Rattle.resources_ip_block.specs.Written.{EncodesBlock, EncodesRange, IsShortestMax, IsShortestMin};

use crate::block::IpBlock;
use crate::codec::Mode;
use crate::codec::encode::{
    Choice2, Constructed, EncodeError, Primitive, PrimitiveContent, Values, sequence,
};
use crate::range::{ADDR_BITS, AddressRange};
use resources_ip_prefix::Prefix;
use std::io::Write;

/// A range that is written.
pub type RangeEncoder = Constructed<(Primitive<Prefix>, Primitive<Prefix>)>;

/// A block that is written.
pub type IpBlockEncoder = Choice2<Primitive<Prefix>, RangeEncoder>;

impl AddressRange {
    // The bits of the first address, without the zeros at its end.
    fn shortest_min(self) -> Prefix
        ensures { IsShortestMin (run_of_range self).first result }
    {
        let zeros = self.min().to_bits().trailing_zeros() as u8;
        Prefix::new(self.min(), ADDR_BITS - zeros)
    }

    // The bits of the last address, without the ones at its end.
    fn shortest_max(self) -> Prefix
        ensures { IsShortestMax (run_of_range self).last result }
    {
        let ones = self.max().to_bits().trailing_ones() as u8;
        Prefix::new(self.max(), ADDR_BITS - ones)
    }

    /// The first and the last address, in a SEQUENCE of the shortest bit strings: zeros at the end of the first are
    /// cut, and ones at the end of the last (RFC 3779 2.2.3.9).
    pub fn encode(self) -> RangeEncoder
        ensures { EncodesRange (run_of_range self) result }
    {
        sequence((self.shortest_min().encode(), self.shortest_max().encode()))
    }
}

impl IpBlock {
    /// The block as a prefix where it has the addresses of one, and else as a range (RFC 3779 2.2.3.7).
    pub fn encode(&self) -> IpBlockEncoder
        ensures { EncodesBlock (run_of_block self.now) result }
    {
        match self.as_prefix() {
            Ok(prefix) => Choice2::One(prefix.encode()),
            Err(range) => Choice2::Two(range.encode()),
        }
    }
}

/// A prefix where the block has the addresses of one, and else a range, whatever it was made of (RFC 3779 2.2.3.7).
impl Values for IpBlock {
    ghost trees = { λ b m. AreIpBlock m (run_of_block b) };

    ghost writes = { λ b m. WritesIpBlock m (run_of_block b) };

    fn encoded_len(&self, mode: Mode) -> Result<usize, EncodeError> {
        let block = self.encode();
        block.encoded_len(mode)
    }

    fn write_encoded<W: Write>(&self, mode: Mode, target: &mut W) -> Result<(), EncodeError> {
        let block = self.encode();
        block.write_encoded(mode, target)
    }

    ghost spelled = { λ b m. block_spelled m (run_of_block b) };

    ghost one_text = { λ b m. block_one m (run_of_block b) };
}
