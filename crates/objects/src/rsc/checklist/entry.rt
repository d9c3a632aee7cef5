//! Entries of a checklist, as they are read (RFC 9323 4.4).

ghost use Rattle.std.specs.Prelude.{map};
ghost use Rattle.objects_payload.specs.bcder_content.Exact.{ReadsAs, ReadsOptAs};
ghost use Rattle.objects_payload.specs.bcder_content.Grammar.{Inside};
ghost use Rattle.objects_payload.specs.bcder_content.Here.{here};
ghost use Rattle.objects_payload.specs.bcder_content.InMode.{ReadsFields};
ghost use Rattle.objects_payload.specs.bcder_tree.Tags.{sequence_tag};
ghost use Rattle.objects.specs.Checklists.{AreEntryFields, IsCheckedFile};
ghost use Rattle.objects.specs.ChecklistEntries.{AreEntries, checked, entry_fields};

use certs_key::decode::{Constructed, DecodeError, Source};
use certs_key::{Ia5String, OctetString};
use std::alloc::Global;

/// An entry: the name of a file, where one is given, and its digest.
#[derive(Debug, Drop)]
pub(crate) struct Entry {
    pub(crate) name: Option<Ia5String>,
    pub(crate) hash: OctetString,
}

// The fields of an entry, which are all of their content.
fn take_fields<S: Source>(
    alloc: Global,
    cons: &mut Constructed<S>,
) -> Result<Entry, DecodeError<S::Error>>
    ensures { ReadsFields entry_fields AreEntryFields
        (here S.rest cons.old) result (here S.rest cons.new) }
{
    let name = Ia5String::take_opt_from(alloc, cons)?;
    match OctetString::take_from(alloc, cons) {
        Ok(hash) => Ok(Entry { name, hash }),
        Err(error) => {
            drop(name);
            Err(error)
        }
    }
}

// The next entry, if a SEQUENCE is next.
fn take_opt_entry<S: Source>(
    alloc: Global,
    cons: &mut Constructed<S>,
) -> Result<Option<Entry>, DecodeError<S::Error>>
    ensures { ReadsOptAs checked sequence_tag (IsCheckedFile (here S.rest cons.old).mode)
        (here S.rest cons.old) result (here S.rest cons.new) }
{
    cons.take_opt_sequence(
        |cons|
            ensures { ReadsFields entry_fields AreEntryFields
                (here S.rest cons.old) result (here S.rest cons.new) }
        { take_fields(alloc, cons) },
    )
}

// The entries that are left of a content.
fn take_entries<S: Source>(
    alloc: Global,
    cons: &mut Constructed<S>,
) -> Result<Vec<Entry>, DecodeError<S::Error>>
    ensures { ReadsFields (λ v. map checked v.items) AreEntries
        (here S.rest cons.old) result (here S.rest cons.new) }
{
    let mut entries = Vec::new(alloc);
    while let Some(entry) = take_opt_entry(alloc, cons)? {
        entries.push(entry)?;
    }
    Ok(entries)
}

/// The list of entries that is next, which may be empty.
pub(crate) fn take_list<S: Source>(
    alloc: Global,
    cons: &mut Constructed<S>,
) -> Result<Vec<Entry>, DecodeError<S::Error>>
    ensures { ReadsAs (λ v. map checked v.items)
        (Inside sequence_tag (AreEntries (here S.rest cons.old).mode))
        (here S.rest cons.old) result (here S.rest cons.new) }
{
    cons.take_sequence(
        |cons|
            ensures { ReadsFields (λ v. map checked v.items) AreEntries
                (here S.rest cons.old) result (here S.rest cons.new) }
        { take_entries(alloc, cons) },
    )
}
