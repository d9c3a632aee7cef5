//! One entry: a serial number, and when it was revoked (RFC 5280 5.1.2.6).

ghost use Rattle.std.specs.Prelude.{◌≡◌, ◌≢◌, true, IfErr, OnErr};
ghost use Rattle.certs_extension.specs.CrlText.{IsRevoked};
ghost use Rattle.certs_x509.specs.bcder_tree.Tags.{integer_tag, sequence_tag};
ghost use Rattle.certs_x509.specs.bcder_tree.Tree.{primitive};
ghost use Rattle.certs_x509.specs.bcder_source.declared.error.DecodeError.TheVariants.{Memory};
ghost use Rattle.certs_x509.specs.bcder_content.Exact.{ReadsAs, ReadsOptAs};
ghost use Rattle.certs_x509.specs.bcder_content.Here.{here};
ghost use Rattle.certs_x509.specs.bcder_content.InMode.{ReadsFields};
ghost use Rattle.certs_x509.specs.certs_basics.Forms.{WritesTime};
ghost use Rattle.certs_x509.specs.Entries.{AreEntryFields, entry_fields};

use bcder::decode::{Constructed, DecodeError, Source};
use bcder::{Tag, encode};
use certs_basics::time::Time;
use certs_basics::time::text::VariedTime;
use certs_key::Serial;
use std::marker::Model;

/// A certificate that was revoked: its serial number, and when that was. Contracts see both.
///
/// `SEQUENCE { userCertificate CertificateSerialNumber, revocationDate Time }`, without extensions (RFC 5280 5.1.2.6,
/// RFC 6487 5).
#[derive(Clone, Copy, Debug, PartialEq, Eq, Hash)]
pub struct CrlEntry {
    user_certificate: Serial,
    revocation_date: Time,
}

impl Model for CrlEntry {
    ghost use Rattle.certs_extension.specs.CrlText.{RevokedValue};

    ghost Value = { RevokedValue };

    ghost view = { λ e. record { serial = e.user_certificate; time = e.revocation_date } };

    ghost inverse = { λ v. record { user_certificate = v.serial; revocation_date = v.time } };
}

/// What is written of an entry: a SEQUENCE of its two fields.
pub type EntryValues = encode::Constructed<(encode::Primitive<Serial>, VariedTime)>;

impl CrlEntry {
    /// The certificate with that serial number, revoked at that moment.
    pub fn new(user_certificate: Serial, revocation_date: Time) -> Self
        ensures { result ≡ record { serial = user_certificate; time = revocation_date } }
    {
        CrlEntry {
            user_certificate,
            revocation_date,
        }
    }

    /// The serial number.
    pub fn user_certificate(self) -> Serial
        ensures { result ≡ self.serial }
    {
        self.user_certificate
    }

    /// When it was revoked.
    pub fn revocation_date(self) -> Time
        ensures { result ≡ self.time }
    {
        self.revocation_date
    }

    /// The fields of an entry, which are all of their content.
    pub fn from_constructed<S: Source>(
        cons: &mut Constructed<S>,
    ) -> Result<Self, DecodeError<S::Error>>
        ensures reads { ReadsFields entry_fields AreEntryFields
            (here S.rest cons.old) result (here S.rest cons.new) }
        ensures failed { OnErr result ((here S.rest cons.new).failed ≡ true) }
        ensures no_memory { IfErr result (λ e. e ≢ Memory) }
    {
        let user_certificate = Serial::take_from(cons)?;
        let revocation_date = Time::take_from(cons)?;
        Ok(CrlEntry::new(user_certificate, revocation_date))
    }

    /// The entry that is next.
    pub fn take_from<S: Source>(cons: &mut Constructed<S>) -> Result<Self, DecodeError<S::Error>>
        ensures reads { ReadsAs (λ e. e) IsRevoked
            (here S.rest cons.old) result (here S.rest cons.new) }
        ensures failed { OnErr result ((here S.rest cons.new).failed ≡ true) }
        ensures no_memory { IfErr result (λ e. e ≢ Memory) }
    {
        cons.take_sequence(
            |cons|
                ensures reads { ReadsFields entry_fields AreEntryFields
                    (here S.rest cons.old) result (here S.rest cons.new) }
                ensures no_memory { IfErr result (λ e. e ≢ Memory) }
            { CrlEntry::from_constructed(cons) },
        )
    }

    /// The next entry, if a SEQUENCE is next; one that is no entry is refused.
    pub fn take_opt_from<S: Source>(
        cons: &mut Constructed<S>,
    ) -> Result<Option<Self>, DecodeError<S::Error>>
        ensures reads { ReadsOptAs (λ e. e) sequence_tag IsRevoked
            (here S.rest cons.old) result (here S.rest cons.new) }
        ensures failed { OnErr result ((here S.rest cons.new).failed ≡ true) }
        ensures no_memory { IfErr result (λ e. e ≢ Memory) }
    {
        cons.take_opt_sequence(
            |cons|
                ensures reads { ReadsFields entry_fields AreEntryFields
                    (here S.rest cons.old) result (here S.rest cons.new) }
                ensures no_memory { IfErr result (λ e. e ≢ Memory) }
            { CrlEntry::from_constructed(cons) },
        )
    }

    /// What is written of the entry.
    pub fn encode(self) -> EntryValues
        ensures tag { result.tag ≡ sequence_tag }
        ensures serial_tag { result.inner.0.tag ≡ integer_tag }
        ensures serial { result.inner.0.content ≡ self.serial }
        ensures time { WritesTime self.time
            (primitive result.inner.1.tag result.inner.1.content.0) }
    {
        encode::Constructed {
            tag: Tag::SEQUENCE,
            inner: (
                encode::Primitive {
                    tag: Tag::INTEGER,
                    content: self.user_certificate,
                },
                self.revocation_date.encode_varied(),
            ),
        }
    }
}
