//! The files of a checklist, one by one (RFC 9323 4.4).

ghost use Rattle.std.specs.Prelude.{◌≡◌, map};
ghost use Rattle.std.specs.Iterator.{YieldsFirst, item_count};
ghost use Rattle.objects.specs.ChecklistEntries.{checked};
ghost use Rattle.objects.specs.Lent.{lent_octets};

use crate::rsc::checklist::entry::Entry;
use certs_key::{Ia5String, OctetString};
use std::marker::Model;

/// A file of a checklist: its name, where one is given, and the octets of its digest. Contracts see both.
#[derive(Debug, Drop)]
pub struct FileNameAndHash<'a> {
    file_name: Option<&'a [u8]>,
    hash: &'a [u8],
}

impl<'a> Model for FileNameAndHash<'a> {
    ghost use Rattle.objects.specs.Checklists.{CheckedFile};
    ghost use Rattle.objects.specs.Lent.{lent_octets};

    ghost Value = { CheckedFile };

    ghost view = { λ f. record { name = lent_octets f.file_name; hash = f.hash.now } };
}

impl<'a> FileNameAndHash<'a> {
    /// The file of that name, if one is given, with that digest.
    pub fn new(file_name: Option<&'a [u8]>, hash: &'a [u8]) -> Self
        ensures { result ≡ record { name = lent_octets file_name.entry; hash = hash.now } }
    {
        FileNameAndHash { file_name, hash }
    }

    /// The name, where one is given: ASCII characters.
    pub fn file_name(&self) -> Option<&'a [u8]>
        ensures { lent_octets result ≡ self.now.name }
    {
        self.file_name
    }

    /// The octets of the digest.
    pub fn hash(&self) -> &'a [u8]
        ensures { result.now ≡ self.now.hash }
    {
        self.hash
    }

    /// The name, where one is given, and the octets of the digest.
    pub fn into_pair(self) -> (Option<&'a [u8]>, &'a [u8])
        ensures file_name { lent_octets result.0 ≡ self.entry.name }
        ensures hash { result.1.now ≡ self.entry.hash }
    {
        (self.file_name, self.hash)
    }
}

// The octets of a name, which lie in one piece.
fn name_octets(name: &Option<Ia5String>) -> Option<&[u8]>
    ensures { lent_octets result ≡ name.now }
{
    match name {
        Some(name) => name.as_slice(),
        None => None,
    }
}

// The octets of a digest, which lie in one piece.
fn hash_octets(hash: &OctetString) -> &[u8]
    ensures { result.now ≡ hash.now }
{
    hash.as_slice().unwrap_or(&[])
}

// The file of an entry.
fn file_of(entry: &Entry) -> FileNameAndHash<'_>
    ensures { result ≡ checked entry.now }
{
    FileNameAndHash::new(name_octets(&entry.name), hash_octets(&entry.hash))
}

/// The files of a checklist, one by one, in its order. Contracts see those that are left.
///
/// Each is lent from the octets of the checklist.
#[derive(Debug, Drop)]
pub struct CheckListIter<'a> {
    rest: &'a [Entry],
}

impl<'a> Model for CheckListIter<'a> {
    ghost use Rattle.std.specs.Prelude.{List, map};
    ghost use Rattle.objects.specs.Checklists.{CheckedFile};
    ghost use Rattle.objects.specs.ChecklistEntries.{checked};

    ghost Value = { List CheckedFile };

    ghost view = { λ i. map checked i.rest.now };
}

impl<'a> CheckListIter<'a> {
    // The files of these entries.
    pub(crate) fn new(rest: &'a [Entry]) -> Self
        ensures { result ≡ map checked rest.now }
    {
        CheckListIter { rest }
    }
}

impl<'a> Iterator for CheckListIter<'a> {
    type Item = FileNameAndHash<'a>;

    ghost next_gives = { YieldsFirst (λ s. s) };

    ghost remaining = { item_count (λ s. s) };

    fn next(&mut self) -> Option<FileNameAndHash<'a>> {
        let (first, rest) = self.rest.split_first()?;
        self.rest = rest;
        Some(file_of(first))
    }
}
