//! The revoked certificates of a list, as the octets of their entries (RFC 5280 5.1.2.6).

ghost use Rattle.std.specs.Prelude.{◌≡◌, ◌≢◌, ◌↔◌, [], true, IsTrue, IfErr, IfOk, IfNone, IfSome, OnErr};
ghost use Rattle.certs_extension.specs.CrlText.{AreRevoked};
ghost use Rattle.certs_x509.specs.bcder_tree.declared.mode.Mode.TheVariants.{Der};
ghost use Rattle.certs_x509.specs.bcder_tree.Tags.{sequence_tag};
ghost use Rattle.certs_x509.specs.bcder_source.declared.error.DecodeError.TheVariants.{Memory};
ghost use Rattle.certs_x509.specs.bcder_content.Captures.{rest_of};
ghost use Rattle.certs_x509.specs.bcder_content.Exact.{ReadsOptAs};
ghost use Rattle.certs_x509.specs.bcder_content.Here.{here};
ghost use Rattle.certs_x509.specs.bcder_content.InMode.{ReadsFields};
ghost use Rattle.certs_x509.specs.bcder_values.Gathered.{ExtendRefused};
ghost use Rattle.certs_x509.specs.Entries.{AreAny, AreEntries};
ghost use Rattle.certs_x509.specs.EntryForms.{entry_list};
ghost use Rattle.certs_x509.specs.Listed.{IsListed, ReadsList, SpellsEntries, serials_of};
ghost use Rattle.certs_x509.specs.Listing.{Listing, one_listing};

use crate::revoked::anew::EntryWalk;
use crate::revoked::entry::CrlEntry;
use crate::revoked::iter::RevokedCertificatesIter;
use crate::revoked::search::{has_serial, serials_in};
use crate::revoked::written::AsEntries;
use bcder::decode::{Constructed, Decode, DecodeError, Source};
use bcder::encode::{EncodeError, Values, slice};
use bcder::{Captured, Mode, Tag, encode};
use certs_key::Serial;
use std::alloc::{AllocError, Global};
use std::marker::Model;

/// The revoked certificates of a list: the octets of their entries, as they stood. Contracts see the entries.
#[derive(Debug, Drop)]
pub struct RevokedCertificates {
    octets: Captured,
    ghost listing: { Listing octets } by { one_listing octets },
}

impl Model for RevokedCertificates {
    ghost use Rattle.std.specs.Prelude.{List};
    ghost use Rattle.certs_extension.specs.CrlText.{RevokedValue};

    ghost Value = { List RevokedValue };

    ghost view = { λ r. r.listing.0 };
}

/// What is written of the revoked certificates: a SEQUENCE of their entries, as these stood; nothing of none.
pub type RevokedValues<'a> = Option<encode::Constructed<&'a Captured>>;

/// What is written of the revoked certificates by what their entries say: a SEQUENCE of these; nothing of none.
pub type EntriesValues<'a> = Option<encode::Constructed<encode::Iter<EntryWalk<'a>>>>;

// Passes over entries, up to the end of their content.
fn skip_entries<S: Source>(cons: &mut Constructed<S>) -> Result<(), DecodeError<S::Error>>
    ensures reads { ReadsFields (λ x. x) AreAny (here S.rest cons.old) result
        (here S.rest cons.new) }
    ensures no_memory { IfErr result (λ e. e ≢ Memory) }
{
    while let Some(_entry) = CrlEntry::take_opt_from(cons)? {}
    Ok(())
}

// The entries that are left of a content, as they stand.
fn take_content<S: Source>(
    alloc: Global,
    cons: &mut Constructed<S>,
) -> Result<RevokedCertificates, DecodeError<S::Error>>
    ensures { ReadsFields (λ l. l) AreEntries (here S.rest cons.old) result (here S.rest cons.new) }
{
    let octets = cons.capture(
        alloc,
        |cons|
            ensures reads { ReadsFields (λ x. x) AreAny
                (here rest_of cons.old) result (here rest_of cons.new) }
            ensures no_memory { IfErr result (λ e. e ≢ Memory) }
        { skip_entries(cons) },
    )?;
    Ok(RevokedCertificates { octets })
}

impl RevokedCertificates {
    /// No certificates.
    pub fn empty() -> Self
        ensures { result ≡ [] }
    {
        RevokedCertificates {
            octets: Captured::empty(Mode::Der),
        }
    }

    /// The list of these entries, in their order, in DER. Refused as `Memory` for lack of memory, and as `TooLong` where
    /// the entries have more octets than can be counted.
    pub fn from_entries(alloc: Global, entries: &[CrlEntry]) -> Result<Self, EncodeError>
        ensures made { IfOk result (λ list. list ≡ entries.now) }
        ensures refused { IfErr result
            (ExtendRefused (entry_list.trees entries.now Der)
            (entry_list.writes entries.now Der)) }
    {
        let octets = slice(entries, AsEntries).to_captured(alloc, Mode::Der)?;
        Ok(RevokedCertificates { octets })
    }

    /// The list of entries that is next, if a SEQUENCE is next; one that is no such list is refused.
    pub fn take_opt_from<S: Source>(
        alloc: Global,
        cons: &mut Constructed<S>,
    ) -> Result<Option<Self>, DecodeError<S::Error>>
        ensures reads { ReadsOptAs (λ l. l) sequence_tag AreRevoked
            (here S.rest cons.old) result (here S.rest cons.new) }
        ensures failed { OnErr result ((here S.rest cons.new).failed ≡ true) }
    {
        cons.take_opt_sequence(
            |cons|
                ensures { ReadsFields (λ l. l) AreEntries
                    (here S.rest cons.old) result (here S.rest cons.new) }
            { take_content(alloc, cons) },
        )
    }

    /// The list of entries that is next; no certificates, where no SEQUENCE is next.
    pub fn take_from<S: Source>(
        alloc: Global,
        cons: &mut Constructed<S>,
    ) -> Result<Self, DecodeError<S::Error>>
        ensures reads { ReadsList (here S.rest cons.old) result (here S.rest cons.new) }
        ensures failed { OnErr result ((here S.rest cons.new).failed ≡ true) }
    {
        match RevokedCertificates::take_opt_from(alloc, cons) {
            Ok(Some(list)) => Ok(list),
            Ok(None) => Ok(RevokedCertificates::empty()),
            Err(error) => Err(error),
        }
    }

    /// Whether a certificate with that serial number is among them. The entries are read one by one, which takes no
    /// memory.
    pub fn contains(&self, serial: Serial) -> bool
        ensures { IsTrue result ↔ IsListed self.now serial }
    {
        let octets = self.octets.as_slice();
        let mode = self.octets.mode();
        has_serial(octets, mode, serial)
    }

    /// The serial numbers, in the order of the entries. Refused for lack of memory alone.
    pub fn serials(&self, alloc: Global) -> Result<Vec<Serial>, AllocError>
        ensures { IfOk result (λ serials. serials.items ≡ serials_of self.now) }
    {
        let octets = self.octets.as_slice();
        let mode = self.octets.mode();
        serials_in(alloc, octets, mode)
    }

    /// The entries, one by one, in their order.
    pub fn iter(&self) -> RevokedCertificatesIter<'_>
        ensures { result ≡ self.now }
    {
        RevokedCertificatesIter {
            mode: self.octets.mode(),
            octets: self.octets.as_slice(),
        }
    }

    /// What is written of them as they stood: nothing where there are none.
    pub fn encode_ref(&self) -> RevokedValues<'_>
        ensures none { IfNone result (self.now ≡ []) }
        ensures some { IfSome result (λ v. self.now ≢ []) }
        ensures tag { IfSome result (λ v. v.tag ≡ sequence_tag) }
        ensures octets { IfSome result (λ v. ∥ SpellsEntries v.inner.now self.now ∥₁) }
    {
        if self.octets.as_slice().is_empty() {
            return None;
        }
        Some(encode::Constructed {
            tag: Tag::SEQUENCE,
            inner: &self.octets,
        })
    }

    /// What is written of them by what the entries say, in whichever mode they are kept: nothing where there are none.
    pub fn encode_entries(&self) -> EntriesValues<'_>
        ensures none { IfNone result (self.now ≡ []) }
        ensures some { IfSome result (λ v. self.now ≢ []) }
        ensures tag { IfSome result (λ v. v.tag ≡ sequence_tag) }
        ensures entries { IfSome result (λ v. v.inner.0 ≡ self.now) }
    {
        let octets = self.octets.as_slice();
        if octets.is_empty() {
            return None;
        }
        let tag = Tag::SEQUENCE;
        Some(encode::Constructed {
            tag,
            inner: encode::Iter(EntryWalk { rest: self.iter() }),
        })
    }
}

/// A clone has the same entries; no octet is copied. It takes no memory, but a count of copies can be full.
impl Clone for RevokedCertificates {
    ghost is_clone = { λ list copy. copy ≡ list };

    fn clone(&self) -> Result<Self, AllocError> {
        let octets = self.octets.clone()?;
        Ok(RevokedCertificates { octets })
    }
}
