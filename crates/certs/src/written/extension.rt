//! One extension, written (RFC 5280 4.1).

ghost use Rattle.std.specs.Prelude.{◌≡◌};
ghost use Rattle.certs.specs.bcder_tree.declared.mode.Mode.TheVariants.{Der};
ghost use Rattle.certs.specs.Values.{ExtensionText, ExtensionTrees, extended, extension_spelled, extension_text};

use crate::written::parts::{DerString, Identifier, Sequence, Truth};
use certs_key::encode::{EncodeError, Values};
use certs_key::{ConstOid, Mode};
use std::io::Write;
use std::marker::Model;

/// An extension as it is written: `SEQUENCE { extnID OBJECT IDENTIFIER, critical BOOLEAN DEFAULT
/// FALSE, extnValue OCTET STRING }`. Contracts see its parts.
#[derive(Drop)]
pub struct ExtensionEncoder<V> {
    kind: ConstOid,
    critical: bool,
    value: V,
}

impl<V> Model for ExtensionEncoder<V> {
    ghost use Rattle.certs.specs.Values.{ExtensionOf};

    ghost Value = { ExtensionOf V };

    ghost view = { λ e. record { kind = e.kind.0.now; critical = e.critical; value = e.value } };
}

/// The extension with that identifier, critical or not, and with that value.
pub fn encode_extension<V>(kind: ConstOid, critical: bool, value: V) -> ExtensionEncoder<V>
    ensures { result ≡ extended kind.entry.0.now critical value }
{
    ExtensionEncoder {
        kind,
        critical,
        value,
    }
}

/// A SEQUENCE of the identifier, TRUE where the extension is critical, and an OCTET STRING with the
/// DER of its value.
///
/// `CerUnsupported` in CER; where the value is refused in DER, so is the extension; `TooLong` where a
/// content has more than 2^32 - 1 octets.
impl<V: Values> Values for ExtensionEncoder<V> {
    ghost trees = { λ e. ExtensionTrees e.kind e.critical (V.writes e.value Der) };

    ghost writes = { λ e. ExtensionText e.kind e.critical (V.writes e.value Der) };

    fn encoded_len(&self, mode: Mode) -> Result<usize, EncodeError> {
        let value = Sequence((
            Identifier(self.kind),
            Truth(self.critical),
            DerString(&self.value),
        ));
        value.encoded_len(mode)
    }

    fn write_encoded<W: Write>(&self, mode: Mode, target: &mut W) -> Result<(), EncodeError> {
        let value = Sequence((
            Identifier(self.kind),
            Truth(self.critical),
            DerString(&self.value),
        ));
        value.write_encoded(mode, target)
    }

    ghost spelled = { λ e. extension_spelled e.kind e.critical (V.writes e.value Der) };

    ghost one_text = { λ e. extension_text e.kind e.critical (V.writes e.value Der)
        (V.one_text e.value Der) };
}
