//! The entries of a list, one by one.

ghost use Rattle.std.specs.Prelude.{◌≡◌, ◌≢◌, ◌≤◌, ◌∷◌, [], List, drop, length, IfErr, IfNone, IfSome};
ghost use Rattle.std.specs.Iterator.{YieldsFirst, item_count};
ghost use Rattle.certs_extension.specs.CrlText.{IsRevoked, RevokedValue};
ghost use Rattle.certs_x509.specs.bcder_tree.Tags.{sequence_tag};
ghost use Rattle.certs_x509.specs.bcder_source.declared.error.DecodeError.TheVariants.{Memory};
ghost use Rattle.certs_x509.specs.bcder_content.Captures.{rest_of};
ghost use Rattle.certs_x509.specs.bcder_content.Exact.{ReadsOptAs};
ghost use Rattle.certs_x509.specs.bcder_content.Here.{here};
ghost use Rattle.certs_x509.specs.Listed.{SpellsEntries, captured};
ghost use Rattle.certs_x509.specs.Listing.{Listing, one_listing};

use crate::revoked::entry::CrlEntry;
use bcder::Mode;
use bcder::decode::read_front;
use std::alloc::AllocError;
use std::marker::Model;

/// The revoked certificates of a list, one by one, in the order of the list. Contracts see those that are left.
///
/// Each is read of the octets of the list, which are lent; that takes no memory, and all of them are read in time linear
/// in these octets.
#[derive(Debug, Drop)]
pub struct RevokedCertificatesIter<'a> {
    pub(crate) mode: Mode,
    pub(crate) octets: &'a [u8],
    ghost listing: { Listing (captured mode octets.now) } by { one_listing (captured mode octets.now) },
}

impl<'a> Model for RevokedCertificatesIter<'a> {
    ghost use Rattle.std.specs.Prelude.{List};
    ghost use Rattle.certs_extension.specs.CrlText.{RevokedValue};

    ghost Value = { List RevokedValue };

    ghost view = { λ r. r.listing.0 };
}

// The first of the entries that the octets spell, and of how many octets it is; nothing of no octets.
fn first_entry(octets: &[u8], mode: Mode) -> Option<(CrlEntry, usize)>
    ensures none { IfNone result ((entries : List RevokedValue)
        → SpellsEntries (captured mode octets.now) entries → entries ≡ []) }
    ensures some { IfSome result (λ r. (entries : List RevokedValue)
        → SpellsEntries (captured mode octets.now) entries
        → (others : List RevokedValue) × SpellsEntries (captured mode (drop r.1 octets.now)) others
        × (entries ≡ r.0 ∷ others)) }
    ensures bound { IfSome result (λ r. r.1 ≤ length octets.now) }
{
    match read_front(
        octets,
        mode,
        |cons|
            ensures reads { ReadsOptAs (λ e. e) sequence_tag IsRevoked
                (here rest_of cons.old) result (here rest_of cons.new) }
            ensures no_memory { IfErr result (λ e. e ≢ Memory) }
        { CrlEntry::take_opt_from(cons) },
    ) {
        Ok((Some(entry), count)) => Some((entry, count)),
        Ok((None, _)) => None,
        Err(_) => None,
    }
}

impl<'a> RevokedCertificatesIter<'a> {
    // Another one over the entries that are left; no octet is copied.
    pub(crate) fn again(&self) -> RevokedCertificatesIter<'a>
        ensures { result ≡ self.now }
    {
        RevokedCertificatesIter {
            mode: self.mode,
            octets: self.octets,
        }
    }
}

impl<'a> Iterator for RevokedCertificatesIter<'a> {
    type Item = CrlEntry;

    ghost next_gives = { YieldsFirst (λ s. s) };

    ghost remaining = { item_count (λ s. s) };

    fn next(&mut self) -> Option<CrlEntry> {
        let (entry, count) = first_entry(self.octets, self.mode)?;
        let (_, behind) = self.octets.split_at(count);
        self.octets = behind;
        Some(entry)
    }
}

/// A clone has the same entries left; no octet is copied.
impl<'a> Clone for RevokedCertificatesIter<'a> {
    ghost is_clone = { λ iter copy. copy ≡ iter };

    fn clone(&self) -> Result<Self, AllocError> {
        Ok(self.again())
    }
}
