//! The files of a manifest, as the octets that spell them (RFC 9286 4.2).

ghost use Rattle.std.specs.Prelude.{◌≡◌, ◌≢◌, ◌≤◌, ◌↔◌, [], true, length, IsTrue, IfErr, OnErr};
ghost use Rattle.std.specs.Iterator.{YieldsFirst, item_count};
ghost use Rattle.objects_cms.specs.bcder_tree.Tags.{sequence_tag};
ghost use Rattle.objects_cms.specs.bcder_source.declared.error.DecodeError.TheVariants.{Memory};
ghost use Rattle.objects_cms.specs.bcder_content.Captures.{rest_of};
ghost use Rattle.objects_cms.specs.bcder_content.Exact.{ReadsAs};
ghost use Rattle.objects_cms.specs.bcder_content.Grammar.{Inside, Many};
ghost use Rattle.objects_cms.specs.bcder_content.Here.{here};
ghost use Rattle.objects_cms.specs.bcder_content.InMode.{ReadsFields};
ghost use Rattle.objects_payload.specs.Manifests.{IsFile};
ghost use Rattle.objects_cms.specs.Files.{AreAny, AreFiles};
ghost use Rattle.objects_cms.specs.Held.{Left, one_left};
ghost use Rattle.objects_cms.specs.Listing.{Listing, one_listing};

use crate::manifest::file::{FileAndHash, skip_opt_file};
use bcder_octets::next_piece;
use certs_key::Captured;
use certs_key::decode::{Constructed, DecodeError, Source};
use std::alloc::Global;
use std::marker::Model;

/// The files of a manifest: the octets of their entries, as they stood. Contracts see the files.
#[derive(Drop)]
pub struct FileList {
    octets: Captured,
    ghost listing: { Listing octets } by { one_listing octets },
}

impl Model for FileList {
    ghost use Rattle.std.specs.Prelude.{List};
    ghost use Rattle.objects_payload.specs.Manifests.{File};

    ghost Value = { List File };

    ghost view = { λ l. l.listing.0 };
}

// Passes over files, up to the end of their content.
fn skip_files<S: Source>(cons: &mut Constructed<S>) -> Result<(), DecodeError<S::Error>>
    ensures reads { ReadsFields (λ x. x) AreAny (here S.rest cons.old) result
        (here S.rest cons.new) }
    ensures no_memory { IfErr result (λ e. e ≢ Memory) }
{
    while let Some(_entry) = skip_opt_file(cons)? {}
    Ok(())
}

// The files that are left of a content, as they stand.
fn take_content<S: Source>(
    alloc: Global,
    cons: &mut Constructed<S>,
) -> Result<FileList, DecodeError<S::Error>>
    ensures { ReadsFields (λ l. l) AreFiles (here S.rest cons.old) result (here S.rest cons.new) }
{
    let octets = cons.capture(
        alloc,
        |cons|
            ensures reads { ReadsFields (λ x. x) AreAny
                (here rest_of cons.old) result (here rest_of cons.new) }
            ensures no_memory { IfErr result (λ e. e ≢ Memory) }
        { skip_files(cons) },
    )?;
    Ok(FileList { octets })
}

// How many files are left, of octets that spell them.
fn count_files(octets: &[u8], files: FileListIter<'_>) -> usize
    requires { length files ≤ length octets.now }
    ensures { result ≡ length files.entry }
{
    let _bound = octets.len();
    files.count()
}

impl FileList {
    /// The list of files that is next.
    pub fn take_from<S: Source>(
        alloc: Global,
        cons: &mut Constructed<S>,
    ) -> Result<Self, DecodeError<S::Error>>
        ensures reads { ReadsAs (λ l. l) (Inside sequence_tag (Many IsFile))
            (here S.rest cons.old) result (here S.rest cons.new) }
        ensures failed { OnErr result ((here S.rest cons.new).failed ≡ true) }
    {
        cons.take_sequence(
            |cons|
                ensures { ReadsFields (λ l. l) AreFiles
                    (here S.rest cons.old) result (here S.rest cons.new) }
            { take_content(alloc, cons) },
        )
    }

    /// Whether it lists no file.
    pub fn is_empty(&self) -> bool
        ensures { IsTrue result ↔ (self.now ≡ []) }
    {
        self.octets.as_slice().is_empty()
    }

    /// How many files it lists. They are counted, in time linear in the list.
    pub fn len(&self) -> usize
        ensures { result ≡ length self.now }
    {
        count_files(self.octets.as_slice(), self.iter())
    }

    /// The files, in the order of the list.
    pub fn iter(&self) -> FileListIter<'_>
        ensures { result ≡ self.now }
    {
        FileListIter {
            octets: self.octets.as_slice(),
        }
    }
}

/// The files of a manifest, one by one, in the order of the list. Contracts see those that are left.
///
/// Each is lent from the octets of the list. All of them are read in time linear in these octets.
#[derive(Drop)]
pub struct FileListIter<'a> {
    octets: &'a [u8],
    ghost left: { Left octets.now } by { one_left octets.now },
}

impl<'a> Model for FileListIter<'a> {
    ghost use Rattle.std.specs.Prelude.{List};
    ghost use Rattle.objects_payload.specs.Manifests.{File};

    ghost Value = { List File };

    ghost view = { λ i. i.left.0 };
}

impl<'a> Iterator for FileListIter<'a> {
    type Item = FileAndHash<'a>;

    ghost next_gives = { YieldsFirst (λ s. s) };

    ghost remaining = { item_count (λ s. s) };

    fn next(&mut self) -> Option<FileAndHash<'a>> {
        let (file, behind) = next_piece(self.octets)?;
        let (content, behind) = next_piece(behind)?;
        let (_unused, hash) = content.split_first()?;
        self.octets = behind;
        Some(FileAndHash::new(file, hash))
    }
}
