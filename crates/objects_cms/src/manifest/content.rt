//! The content of a manifest (RFC 9286 4.2).

ghost use Rattle.std.specs.Prelude.{◌≡◌, ◌<◌, ◌↔◌, [], true, length, IsTrue, OnErr};
ghost use Rattle.objects_cms.specs.bcder_tree.declared.mode.Mode.TheVariants.{Der};
ghost use Rattle.objects_cms.specs.bcder_content.Exact.{DecodesAs, ReadsAs};
ghost use Rattle.objects_cms.specs.bcder_content.Here.{here};
ghost use Rattle.objects_cms.specs.bcder_content.InMode.{ReadsFields};
ghost use Rattle.objects_payload.specs.Manifests.{IsManifest, manifest_of};
ghost use Rattle.objects_cms.specs.ManifestFields.{AreManifestFields, fields_of};

use crate::manifest::list::{FileList, FileListIter};
use crate::version::take_opt_version;
use certs_key::decode::{Constructed, Decode, DecodeError, IntoSource, Source};
use certs_key::oid::SHA256;
use certs_key::{Mode, Serial};
use objects_payload::forms::Time;
use std::alloc::Global;
use std::marker::Model;

// The number that stands for the version (RFC 9286 4.2.1).
const VERSION: u8 = 0;

/// The content of a manifest: its number, the moments between which it is current, and the files that it lists.
///
/// Contracts see these four. That the names differ is no part of the grammar.
#[derive(Drop)]
pub struct ManifestContent {
    manifest_number: Serial,
    this_update: Time,
    next_update: Time,
    files: FileList,
}

impl Model for ManifestContent {
    ghost use Rattle.objects_payload.specs.Manifests.{Manifest};

    ghost Value = { Manifest };

    ghost view = { λ m. record {
      number = m.manifest_number;
      this_update = m.this_update;
      next_update = m.next_update;
      files = m.files;
    } };
}

// Whether the version is written out, and what else is read.
type Fields = (Option<()>, Serial, Time, Time, FileList);

// All fields, up to the end of their content.
fn take_fields<S: Source>(
    alloc: Global,
    cons: &mut Constructed<S>,
) -> Result<Fields, DecodeError<S::Error>>
    ensures { ReadsFields fields_of AreManifestFields
        (here S.rest cons.old) result (here S.rest cons.new) }
{
    let version = take_opt_version(cons, VERSION)?;
    let manifest_number = Serial::take_from(cons)?;
    let this_update = Time::take_generalized_from(cons)?;
    let next_update = Time::take_generalized_from(cons)?;
    let algorithm = SHA256.skip_if(cons)?;
    let files = FileList::take_from(alloc, cons)?;
    Ok((version, manifest_number, this_update, next_update, files))
}

/// Reading.
impl ManifestContent {
    // The content of those fields.
    fn from_fields(fields: Fields) -> Self
        ensures { result ≡ manifest_of (fields_of fields) }
    {
        let (_version, manifest_number, this_update, next_update, files) = fields;
        ManifestContent {
            manifest_number,
            this_update,
            next_update,
            files,
        }
    }

    /// The content that is next. The octets of the list are kept; where the source shares its octets none is copied.
    pub fn take_from<S: Source>(
        alloc: Global,
        cons: &mut Constructed<S>,
    ) -> Result<Self, DecodeError<S::Error>>
        ensures reads { ReadsAs (λ m. m) IsManifest
            (here S.rest cons.old) result (here S.rest cons.new) }
        ensures failed { OnErr result ((here S.rest cons.new).failed ≡ true) }
    {
        let fields = cons.take_sequence(
            |cons|
                ensures { ReadsFields fields_of AreManifestFields
                    (here S.rest cons.old) result (here S.rest cons.new) }
            { take_fields(alloc, cons) },
        )?;
        Ok(ManifestContent::from_fields(fields))
    }

    /// The content that a source begins with, in DER; octets after it stay unread.
    pub fn decode<I: IntoSource>(
        alloc: Global,
        source: I,
    ) -> Result<Self, DecodeError<<I::Source as Source>::Error>>
        ensures { DecodesAs (λ m. m) Der IsManifest (I.octets source) result }
    {
        Mode::Der.decode(
            source,
            |cons|
                ensures { ReadsAs (λ m. m) IsManifest (here I.Source.rest cons.old) result
                    (here I.Source.rest cons.new) }
            { ManifestContent::take_from(alloc, cons) },
        )
    }
}

/// What a manifest says.
impl ManifestContent {
    /// The manifest's number.
    pub fn manifest_number(&self) -> Serial
        ensures { result ≡ self.now.number }
    {
        self.manifest_number
    }

    /// When the manifest was issued.
    pub fn this_update(&self) -> Time
        ensures { result ≡ self.now.this_update }
    {
        self.this_update
    }

    /// When the next manifest is to be issued, at the latest.
    pub fn next_update(&self) -> Time
        ensures { result ≡ self.now.next_update }
    {
        self.next_update
    }

    /// Whether the next manifest should have been issued before that moment.
    pub fn is_stale(&self, now: Time) -> bool
        ensures { IsTrue result ↔ (self.now.next_update < now) }
    {
        self.next_update < now
    }

    /// How many files it lists. They are counted, in time linear in the list.
    pub fn len(&self) -> usize
        ensures { result ≡ length self.now.files }
    {
        self.files.len()
    }

    /// Whether it lists no file.
    pub fn is_empty(&self) -> bool
        ensures { IsTrue result ↔ (self.now.files ≡ []) }
    {
        self.files.is_empty()
    }

    /// The files that it lists, in its order.
    pub fn iter(&self) -> FileListIter<'_>
        ensures { result ≡ self.now.files }
    {
        self.files.iter()
    }
}
