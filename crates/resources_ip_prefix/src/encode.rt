//! Families and prefixes that are written (RFC 3779 2.2.3.3, 2.2.3.8).

ghost use Rattle.std.proofs.Common.{rules};
ghost use Rattle.std.specs.Prelude.{◌≡◌, ◌+◌, ◌/◌, ◌≤◌};
ghost use Rattle.resources_ip_prefix.specs.bcder_tree.Strings.{octet_string_tag};
ghost use Rattle.resources_ip_prefix.specs.bcder_octets.BitContents.{WritesBits, bit_string_tag};
ghost use Rattle.resources_ip_prefix.specs.bcder_octets.BitsWritten.{one_bits};
ghost use Rattle.resources_ip_prefix.specs.Encodings.{family_octets};
ghost use Rattle.resources_ip_prefix.specs.Written.{octet_count, spelled_bits};

use crate::addr::AddressFamily;
use crate::prefix::Prefix;
use bcder::encode::{EncodeError, PrimitiveContent};
use bcder::string::{BitSlice, OctetSliceEncoder};
use bcder::{Mode, OctetString, Tag};
use std::io::Write;

impl AddressFamily {
    /// The number of the family, an OCTET STRING (RFC 3779 2.2.3.3).
    pub fn encode(self) -> OctetSliceEncoder<&'static [u8]>
        ensures tag { result.tag ≡ octet_string_tag }
        ensures octets { result.octets.now ≡ family_octets self }
    {
        match self {
            AddressFamily::Ipv4 => OctetString::encode_slice(b"\x00\x01".as_slice()),
            AddressFamily::Ipv6 => OctetString::encode_slice(b"\x00\x02".as_slice()),
        }
    }
}

// How many octets so many bits have.
fn count_octets(len: u8) -> usize
    requires { len ≤ 128 }
    ensures { result ≡ octet_count len }
{
    (usize::from(len) + 7) / 8
}

/// A BIT STRING of the bits that all its addresses begin with (RFC 3779 2.2.3.8).
impl PrimitiveContent for Prefix {
    ghost type_tag = { bit_string_tag };

    ghost content = { λ p m. WritesBits m (spelled_bits p) };

    fn tag() -> Tag {
        Tag::BIT_STRING
    }

    #[tactic(auto, using(crate::proofs::Spelled::few_octets, crate::proofs::Spelled::lawful_bits))]
    fn encoded_len(&self, mode: Mode) -> Result<usize, EncodeError> {
        let len = self.addr_len();
        let count = count_octets(len);
        let octets = self.addr().to_bytes();
        let bits = BitSlice {
            octets: &octets[..count],
            unused: (8 * count - usize::from(len)) as u8,
        };
        bits.encoded_len(mode)
    }

    #[tactic(auto, using(crate::proofs::Spelled::few_octets, crate::proofs::Spelled::lawful_bits))]
    fn write_encoded<W: Write>(&self, mode: Mode, target: &mut W) -> Result<(), EncodeError> {
        let len = self.addr_len();
        let count = count_octets(len);
        let octets = self.addr().to_bytes();
        let bits = BitSlice {
            octets: &octets[..count],
            unused: (8 * count - usize::from(len)) as u8,
        };
        bits.write_encoded(mode, target)
    }

    ghost is_tag = { Prim.search rules };

    ghost one_content = { λ p m. one_bits m (spelled_bits p) };
}
