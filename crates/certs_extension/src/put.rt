//! The rule by which the value of an extension is read, once (RFC 5280 4.2).

ghost use Rattle.std.specs.Prelude.{◌≡◌, ◌↔◌, false, true, IsTrue, IfErr, OnErr, OnOk};
ghost use Rattle.certs_extension.specs.Extensions.{Meets};
ghost use Rattle.certs_extension.specs.Putting.{CannotPut, PutsOnce, need_of};
ghost use Rattle.certs_extension.specs.Raw.{extension_value};

use crate::error::ExtensionError;
use crate::extension::Extension;
use certs_key::Mode;
use certs_key::decode::{BytesSource, Constructed, Decode, DecodeError};
use std::convert::Infallible;

/// Whether an extension has to be critical.
#[derive(Clone, Copy, Debug, PartialEq, Eq)]
pub enum Need {
    /// It has to be.
    Must,
    /// It may not be.
    MustNot,
    /// Either will do.
    May,
}

// Whether the need is met.
fn is_met(need: Need, critical: bool) -> bool
    ensures { IsTrue result ↔ Meets (need_of need) critical }
{
    match need {
        Need::Must => critical,
        Need::MustNot => !critical,
        Need::May => true,
    }
}

/// Puts the value of an extension into its slot, which has to be empty.
///
/// `Duplicate` where there is a value; else `Criticality` where the need isn't met; else what `op` reads from the front
/// of the octets in DER is put there, and shares them: `BadValue` where it refuses them, and `Memory` where it does so
/// for lack of memory. The slot is as it was where the extension is refused.
pub fn put_once<
    T: Drop,
    F: FnOnce(&mut Constructed<BytesSource>) -> Result<T, DecodeError<Infallible>>,
>(slot: &mut Option<T>, need: Need, extension: Extension, op: F) -> Result<(), ExtensionError>
    requires { F.IsAlwaysCallable op }
    ensures ok { OnOk result
        (PutsOnce F.FnOnce op (need_of need) (extension_value extension) slot.old slot.new) }
    ensures refused { IfErr result
        (CannotPut F.FnOnce op (need_of need) (extension_value extension) slot.old) }
    ensures same { OnErr result (slot.new ≡ slot.old) }
{
    if slot.is_some() {
        return Err(ExtensionError::Duplicate);
    }
    if !is_met(need, extension.critical) {
        return Err(ExtensionError::Criticality);
    }
    match Mode::Der.decode(extension.octets.into_bytes(), op) {
        Ok(value) => {
            *slot = Some(value);
            Ok(())
        }
        Err(DecodeError::Content(_, _)) => Err(ExtensionError::BadValue),
        Err(DecodeError::Source(never)) => match never {},
        Err(DecodeError::Memory) => Err(ExtensionError::Memory),
    }
}

/// Passes over an extension that isn't known: `UnknownCritical` exactly where it is critical. The octets of its value
/// aren't read.
pub fn skip_unknown(extension: &Extension) -> Result<(), ExtensionError>
    ensures ok { OnOk result (extension.now.critical ≡ false) }
    ensures refused { IfErr result (λ e. e ≡ ExtensionError.UnknownCritical) }
    ensures critical { OnErr result (extension.now.critical ≡ true) }
{
    if extension.critical {
        return Err(ExtensionError::UnknownCritical);
    }
    Ok(())
}
