//! An optional field, and as many values as there are.

ghost use Rattle.std.specs.Prelude.{◌≡◌, OnErr, map, true};
ghost use Rattle.bcder_example.specs.bcder_tree.Tags.{sequence_tag};
ghost use Rattle.bcder_example.specs.bcder_content.Exact.{ReadsAs, ReadsOptAs};
ghost use Rattle.bcder_example.specs.bcder_content.Grammar.{Inside};
ghost use Rattle.bcder_example.specs.bcder_content.Here.{here};
ghost use Rattle.bcder_example.specs.bcder_content.InMode.{ReadsFields};
ghost use Rattle.bcder_example.specs.Logs.{AreEntries, IsEntry, IsEntryBody, IsLogBody};
ghost use Rattle.bcder_example.specs.Logs.{entry_fields, log_fields};

use bcder::decode::{Constructed, DecodeError, Source};
use std::alloc::Global;

/// `Entry ::= SEQUENCE { kind INTEGER, size INTEGER }`
#[derive(Debug, Drop)]
pub struct Entry {
    /// The kind, up to 255.
    pub kind: u8,
    /// The size, up to 255.
    pub size: u8,
}

/// `Log ::= SEQUENCE { most INTEGER OPTIONAL, entries SEQUENCE OF Entry }`
#[derive(Drop)]
pub struct Log {
    /// A number up to 255, if there is one.
    pub most: Option<u8>,
    /// The entries, in their order.
    pub entries: Vec<Entry>,
}

// The fields of an entry.
fn take_entry_fields<S: Source>(cons: &mut Constructed<S>) -> Result<Entry, DecodeError<S::Error>>
    ensures { ReadsFields entry_fields IsEntryBody (here S.rest cons.old) result
        (here S.rest cons.new) }
{
    let kind = cons.take_u8()?;
    let size = cons.take_u8()?;
    Ok(Entry { kind, size })
}

// The next entry, if there is one.
fn take_opt_entry<S: Source>(
    cons: &mut Constructed<S>,
) -> Result<Option<Entry>, DecodeError<S::Error>>
    ensures { ReadsOptAs entry_fields sequence_tag IsEntry
        (here S.rest cons.old) result (here S.rest cons.new) }
{
    cons.take_opt_sequence(
        |cons|
            ensures { ReadsFields entry_fields IsEntryBody
                (here S.rest cons.old) result (here S.rest cons.new) }
        { take_entry_fields(cons) },
    )
}

// All entries of a log.
fn take_entries<S: Source>(
    alloc: Global,
    cons: &mut Constructed<S>,
) -> Result<Vec<Entry>, DecodeError<S::Error>>
    ensures { ReadsFields (λ v. map entry_fields v.items) AreEntries (here S.rest cons.old) result
        (here S.rest cons.new) }
{
    let mut entries = Vec::new(alloc);
    while let Some(entry) = take_opt_entry(cons)? {
        entries.push(entry)?;
    }
    Ok(entries)
}

// The fields of a log.
fn take_log_fields<S: Source>(
    alloc: Global,
    cons: &mut Constructed<S>,
) -> Result<Log, DecodeError<S::Error>>
    ensures { ReadsFields log_fields IsLogBody (here S.rest cons.old) result
        (here S.rest cons.new) }
{
    let most = cons.take_opt_u8()?;
    let entries = cons.take_sequence(
        |cons|
            ensures { ReadsFields (λ v. map entry_fields v.items) AreEntries
                (here S.rest cons.old) result (here S.rest cons.new) }
        { take_entries(alloc, cons) },
    )?;
    Ok(Log { most, entries })
}

/// An optional field, and then as many values as there are.
pub fn take_log<S: Source>(
    alloc: Global,
    cons: &mut Constructed<S>,
) -> Result<Log, DecodeError<S::Error>>
    ensures reads { ReadsAs log_fields
        (Inside sequence_tag (IsLogBody (here S.rest cons.old).mode)) (here S.rest cons.old)
        result (here S.rest cons.new) }
    ensures failed { OnErr result ((here S.rest cons.new).failed ≡ true) }
{
    cons.take_sequence(
        |cons|
            ensures { ReadsFields log_fields IsLogBody
                (here S.rest cons.old) result (here S.rest cons.new) }
        { take_log_fields(alloc, cons) },
    )
}
