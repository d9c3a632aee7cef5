//! Entries that are read one by one, of octets that spell them.

ghost use Rattle.std.specs.Prelude.{◌≡◌, List, false, IfOk, IsOk};
ghost use Rattle.certs_extension.specs.CrlText.{RevokedValue};
ghost use Rattle.certs_x509.specs.bcder_content.Captures.{rest_of};
ghost use Rattle.certs_x509.specs.bcder_content.Here.{here};
ghost use Rattle.certs_x509.specs.Listed.{EntriesLeft, SpellsEntries, has_serial as tells, serials_of};

use crate::revoked::entry::CrlEntry;
use bcder::Mode;
use bcder::decode::{Constructed, Decode, DecodeError, SliceSource};
use certs_key::Serial;
use std::alloc::{AllocError, Global};
use std::convert::Infallible;

// The serial numbers of the entries that are left of a content, in their order.
fn collect_serials(
    alloc: Global,
    cons: &mut Constructed<SliceSource<'_>>,
) -> Result<Vec<Serial>, DecodeError<Infallible>>
    ensures found { (entries : List RevokedValue) → EntriesLeft (here rest_of cons.old) entries
        → IfOk result (λ serials. serials.items ≡ serials_of entries) }
{
    let mut serials = Vec::new(alloc);
    while let Some(entry) = CrlEntry::take_opt_from(cons)? {
        serials.push(entry.user_certificate())?;
    }
    Ok(serials)
}

/// The serial numbers of the entries that the octets spell, in their order. Refused for lack of memory alone.
pub(crate) fn serials_in(
    alloc: Global,
    octets: &[u8],
    mode: Mode,
) -> Result<Vec<Serial>, AllocError>
    ensures { (entries : List RevokedValue)
        → SpellsEntries (record { mode = mode; octets = octets.now }) entries
        → IfOk result (λ serials. serials.items ≡ serials_of entries) }
{
    match mode.decode(
        octets,
        |cons|
            ensures { (entries : List RevokedValue) → EntriesLeft (here rest_of cons.old) entries
                → IfOk result (λ serials. serials.items ≡ serials_of entries) }
        { collect_serials(alloc, cons) },
    ) {
        Ok(serials) => Ok(serials),
        Err(_) => Err(AllocError),
    }
}

// Whether an entry that is left of a content has the serial number.
fn find_serial(
    cons: &mut Constructed<SliceSource<'_>>,
    serial: Serial,
) -> Result<bool, DecodeError<Infallible>>
    ensures ok { (entries : List RevokedValue) → EntriesLeft (here rest_of cons.old) entries
        → IsOk result }
    ensures found { (entries : List RevokedValue) → EntriesLeft (here rest_of cons.old) entries
        → IfOk result (λ found. found ≡ tells serial entries) }
    ensures sound { (entries : List RevokedValue) → EntriesLeft (here rest_of cons.old) entries
        → (here rest_of cons.new).failed ≡ false }
{
    while let Some(entry) = CrlEntry::take_opt_from(cons)? {
        if entry.user_certificate() == serial {
            return Ok(true);
        }
    }
    Ok(false)
}

/// Whether an entry has the serial number, of those that the octets spell.
pub(crate) fn has_serial(octets: &[u8], mode: Mode, serial: Serial) -> bool
    ensures { (entries : List RevokedValue)
        → SpellsEntries (record { mode = mode; octets = octets.now }) entries
        → result ≡ tells serial entries }
{
    match mode.decode(
        octets,
        |cons|
            ensures ok { (entries : List RevokedValue) → EntriesLeft (here rest_of cons.old) entries
                → IsOk result }
            ensures found { (entries : List RevokedValue)
                → EntriesLeft (here rest_of cons.old) entries
                → IfOk result (λ found. found ≡ tells serial entries) }
            ensures sound { (entries : List RevokedValue)
                → EntriesLeft (here rest_of cons.old) entries
                → (here rest_of cons.new).failed ≡ false }
        { find_serial(cons, serial) },
    ) {
        Ok(found) => found,
        Err(_) => false,
    }
}
