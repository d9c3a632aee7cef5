//! Entries that are written of what they say, whatever octets they were read of (RFC 5280 5.1.2.6).

use crate::revoked::entry::CrlEntry;
use crate::revoked::iter::RevokedCertificatesIter;
use crate::revoked::written::AsEntries;
use bcder::Mode;
use bcder::encode::{EncodeError, Encodes, Values, Walk};
use std::io::Write;
use std::marker::Model;

/// An entry that is written. Contracts see it.
#[derive(Drop)]
pub struct EntryValue(CrlEntry);

impl Model for EntryValue {
    ghost use Rattle.certs_extension.specs.CrlText.{RevokedValue};

    ghost Value = { RevokedValue };

    ghost view = { λ v. v.0 };
}

impl Values for EntryValue {
    ghost use Rattle.certs_x509.specs.EntryForms.{entry};

    ghost trees = { λ e. entry.trees e };

    ghost writes = { λ e. entry.writes e };

    fn encoded_len(&self, mode: Mode) -> Result<usize, EncodeError> {
        let value = AsEntries.values_of(&self.0);
        value.encoded_len(mode)
    }

    fn write_encoded<W: Write>(&self, mode: Mode, target: &mut W) -> Result<(), EncodeError> {
        let value = AsEntries.values_of(&self.0);
        value.write_encoded(mode, target)
    }

    ghost spelled = { λ e. entry.spelled e };

    ghost one_text = { λ e. entry.one_text e };
}

/// Entries that are still to come, in their order. Contracts see them.
#[derive(Drop)]
pub struct EntryWalk<'a> {
    pub(crate) rest: RevokedCertificatesIter<'a>,
}

impl<'a> Model for EntryWalk<'a> {
    ghost use Rattle.std.specs.Prelude.{List};
    ghost use Rattle.certs_extension.specs.CrlText.{RevokedValue};

    ghost Value = { List RevokedValue };

    ghost view = { λ w. w.rest };
}

impl<'a> Walk for EntryWalk<'a> {
    type Item = EntryValue;

    ghost items = { λ w. w };

    fn next(&mut self) -> Option<EntryValue> {
        let entry = self.rest.next()?;
        Some(EntryValue(entry))
    }

    fn again(&self) -> EntryWalk<'a> {
        EntryWalk {
            rest: self.rest.again(),
        }
    }
}
