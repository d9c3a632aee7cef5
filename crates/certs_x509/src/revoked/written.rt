//! Entries, as they are written one after the other (RFC 5280 5.1.2.6).

ghost use Rattle.std.specs.Prelude.{◌≡◌, ◌<◌, ◌^◌};
ghost use Rattle.certs_x509.specs.bcder_tree.Tags.{integer_tag, sequence_tag};
ghost use Rattle.certs_x509.specs.bcder_tree.Tree.{primitive};
ghost use Rattle.certs_x509.specs.certs_basics.Forms.{WritesTime};

use crate::revoked::entry::{CrlEntry, EntryValues};
use bcder::encode::Encodes;

/// Each entry as it is written.
#[derive(Clone, Copy, Drop)]
pub(crate) struct AsEntries;

// What is written of an entry.
fn values_of(entry: CrlEntry) -> EntryValues
    ensures small { entry.serial < 2 ^ 160 }
    ensures tag { result.tag ≡ sequence_tag }
    ensures serial_tag { result.inner.0.tag ≡ integer_tag }
    ensures serial { result.inner.0.content ≡ entry.serial }
    ensures time { WritesTime entry.time
        (primitive result.inner.1.tag result.inner.1.content.0) }
{
    entry.encode()
}

impl<'a> Encodes<'a, CrlEntry> for AsEntries {
    ghost use Rattle.certs_x509.specs.EntryForms.{entry};

    type Given = EntryValues;

    ghost trees = { λ e x m. entry.trees x m };

    ghost writes = { λ e x m. entry.writes x m };

    fn values_of(&self, item: &'a CrlEntry) -> EntryValues {
        values_of(*item)
    }

    ghost spelled = { λ e x m. entry.spelled x m };

    ghost one_text = { λ e x m. entry.one_text x m };
}
