//! Names that are written, and those that are made from keys (RFC 5280 4.1.2.4; RFC 6487 4.5).

ghost use Rattle.std.specs.Prelude.{◌≡◌, ◌↔◌, IfOk, IsTrue};
ghost use Rattle.certs_name.specs.bcder_tree.declared.mode.Mode.TheVariants.{Der};
ghost use Rattle.certs_name.specs.bcder_tree.Tree.{Spells};
ghost use Rattle.certs_name.specs.bcder_values.Captures.{CapturedText, CapturedTrees, StandsIn, captured_one, captured_spelled};
ghost use Rattle.certs_basics.specs.Names.{subject_of};

use crate::name::Name;
use certs_basics::Mode;
use certs_basics::encode::{EncodeError, Values, write_octets};
use std::alloc::{AllocError, Global};
use std::io::Write;

// What stands in front of the 40 digits of a key's name: SEQUENCE, SET and SEQUENCE of 51, 49 and 47 octets, the
// identifier of a commonName, and a PrintableString of 40 octets.
const KEY_NAME_FRONT: [u8; 13] = [48, 51, 49, 49, 48, 47, 6, 3, 85, 4, 3, 19, 40];

// Whether octets that stand in one mode stand in another.
fn stands_in(kept: Mode, mode: Mode) -> bool
    ensures { IsTrue result ↔ StandsIn kept mode }
{
    mode == Mode::Ber || kept == mode
}

/// Names that are made and written.
impl Name {
    /// The name that is made from the identifier of a key: one commonName, a PrintableString of the identifier's 40
    /// hexadecimal digits in lower case, in DER.
    pub fn from_key_identifier(alloc: Global, identifier: &[u8; 20]) -> Result<Name, AllocError>
        ensures mode { IfOk result (λ n. n.mode ≡ Der) }
        ensures spelled { IfOk result (λ n. Spells Der (subject_of identifier.now) n.octets) }
    {
        let mut digits = [0; 40];
        let Ok(()) = hex::encode_to_slice(identifier.as_slice(), &mut digits) else {
            unreachable!();
        };
        let mut octets = Vec::with_capacity(alloc, KEY_NAME_FRONT.len() + digits.len())?;
        octets.extend_from_slice(&KEY_NAME_FRONT)?;
        octets.extend_from_slice(&digits)?;
        Name::from_der(octets)
    }

    /// The name as it is written: its octets, as they stood.
    pub fn encode_ref(&self) -> &Name
        ensures { result.now ≡ self.now }
    {
        self
    }
}

/// The octets as they stood: in the mode in which they were read, and in BER. In another mode they are refused as
/// `CerUnsupported`, since nothing says that they stand there.
impl Values for Name {
    ghost trees = { CapturedTrees };

    ghost writes = { CapturedText };

    fn encoded_len(&self, mode: Mode) -> Result<usize, EncodeError> {
        if stands_in(self.mode(), mode) {
            return Ok(self.as_slice().len());
        }
        Err(EncodeError::CerUnsupported)
    }

    fn write_encoded<W: Write>(&self, mode: Mode, target: &mut W) -> Result<(), EncodeError> {
        if stands_in(self.mode(), mode) {
            return write_octets(target, self.as_slice());
        }
        Err(EncodeError::CerUnsupported)
    }

    ghost spelled = { captured_spelled };

    ghost one_text = { captured_one };
}
