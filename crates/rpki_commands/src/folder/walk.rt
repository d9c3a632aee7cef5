//! The reading of a folder, one open folder at a time.

ghost use Rattle.std.specs.Prelude.{◌≡◌, ◌↔◌, ◌+◌, ◌^◌, ◌≤◌, ◌++◌, ◌∷◌, [], codes, length, string_bytes, vec_len, IsTrue, IfOk, IfErr, IfSome, OnOk, MatchOption, ◌≢◌, ℕ, List};
ghost use Rattle.rpki_commands.specs.Limits.{IsAtLevel, IsEntryName, IsFileUri, IsPending, IsReading, IsScheme, IsWalked};

use crate::folder::ReadFault;
use crate::folder::files::{Kind, MOST_OCTETS, kind_of, read_file, read_if_there};
use crate::folder::parts::Contents;
use bytes::Bytes;
use rpki_validator::{Locator, Object};
use std::alloc::{AllocError, Global};
use std::fs;
use std::rt::Files;

// How many folders stand in each other, with `rsync`, `https` or `tals` as the first.
const MOST_LEVELS: u8 = 64;

// How many entries all folders that are listed have.
const MOST_ENTRIES: u32 = 1_000_000;

// All files of a bundle have fewer octets together.
const MOST_KEPT: usize = 4_294_967_296;

// So many octets of `moment`, of `depth` and of `relaxed` are kept. Each has fewer; a longer text is none, cut or not.
const MOST_LINE: usize = 64;

// So many octets of a file are read at once.
const PIECE: usize = 65_536;

// A folder that is still to be listed.
#[derive(Drop)]
struct Pending {
    path: String,
    // What stands before a slash and an entry's name in the entry's URI.
    uri: String,
    level: u8,
}

// What was read so far of `tals`, `rsync` and `https`.
#[derive(Drop)]
struct Walk {
    pending: Vec<Pending>,
    locators: Vec<Locator>,
    objects: Vec<Object>,
    entries_left: u32,
    // How many octets of files may still be kept.
    octets_left: usize,
    // What files are read through.
    buffer: Vec<u8>,
}

// What was read of `moment`, `depth`, `relaxed` and `verdicts`.
#[derive(Drop)]
struct Lines {
    moment: Vec<u8>,
    depth: Vec<u8>,
    relaxed: Option<Vec<u8>>,
    verdicts: Vec<u8>,
}

// The front, a slash and the name.
fn joined(alloc: Global, front: &str, name: &str) -> Result<String, AllocError>
    ensures { IfOk result (λ text. string_bytes text ≡ front.now ++ (47 ∷ name.now)) }
{
    let mut text = String::with_capacity(alloc, front.len() + 1 + name.len())?;
    text.push_str(front)?;
    text.push_str("/")?;
    text.push_str(name)?;
    Ok(text)
}

// One entry less that may come; a read fault where there were enough.
fn count_entry(entries_left: &mut u32) -> Result<(), ReadFault>
    ensures counted { OnOk result (entries_left.new + 1 ≡ entries_left.old) }
    ensures enough { IfErr result
        (λ fault. (fault ≡ ReadFault.Read) × (entries_left.old ≡ 0) × (entries_left.new ≡ 0)) }
{
    if *entries_left == 0 {
        return Err(ReadFault::Read);
    }
    *entries_left -= 1;
    Ok(())
}

impl Walk {
    // Nothing was read yet.
    fn new(alloc: Global) -> Result<Walk, AllocError>
        ensures { IfOk result (IsWalked 0) }
    {
        Ok(Walk {
            pending: Vec::new(alloc),
            locators: Vec::new(alloc),
            objects: Vec::new(alloc),
            entries_left: MOST_ENTRIES,
            octets_left: MOST_KEPT,
            buffer: vec![in alloc; 0u8; PIECE]?,
        })
    }

    // Whether the files have more octets than a bundle can hold.
    fn is_full(&self) -> bool
        ensures { IsTrue result ↔ (self.now.octets_left ≡ 0) }
    {
        self.octets_left == 0
    }

    // The octets of one more file. Where there are too many of all files, none of them stay.
    fn octets_of<R: Files>(
        &mut self,
        rt: &R,
        alloc: Global,
        path: &str,
        size: u64,
    ) -> Result<Bytes, ReadFault>
        ensures counted { IfOk result
            (λ octets. self.new.octets_left + length octets ≡ self.old.octets_left) }
        ensures entries { self.new.entries_left ≡ self.old.entries_left }
        ensures pending { self.new.pending ≡ self.old.pending }
        ensures kept { OnOk result (self.new.octets_left ≢ 0
            → (self.new.locators ≡ self.old.locators) × (self.new.objects ≡ self.old.objects)) }
        ensures none_kept { OnOk result (self.new.octets_left ≡ 0
            → (self.new.locators.items ≡ []) × (self.new.objects.items ≡ [])) }
    {
        let octets = read_file(
            rt,
            alloc,
            path,
            size,
            self.octets_left,
            self.buffer.as_mut_slice(),
        )?;
        self.octets_left -= octets.len();
        if self.is_full() {
            self.locators.clear();
            self.objects.clear();
        }
        Ok(Bytes::from_vec(octets)?)
    }

    // An object, unless there are too many octets.
    fn take_object<R: Files>(
        &mut self,
        rt: &R,
        alloc: Global,
        path: &str,
        uri: String,
        size: u64,
    ) -> Result<(), ReadFault>
        ensures entries { self.new.entries_left ≡ self.old.entries_left }
        ensures pending { self.new.pending ≡ self.old.pending }
        ensures walked { IsWalked 1 self.old → IsFileUri (string_bytes uri)
            → OnOk result (IsWalked 0 self.new) }
    {
        let octets = self.octets_of(rt, alloc, path, size)?;
        if !self.is_full() {
            let uri = Bytes::from_string(uri)?;
            self.objects.push(Object { uri, octets })?;
        }
        Ok(())
    }

    // A locator, unless there are too many octets.
    fn take_locator<R: Files>(
        &mut self,
        rt: &R,
        alloc: Global,
        path: &str,
        name: &str,
        size: u64,
    ) -> Result<(), ReadFault>
        ensures { IsWalked 1 self.old → IsEntryName name.now → OnOk result (IsWalked 0 self.new) }
    {
        let text = self.octets_of(rt, alloc, path, size)?;
        if !self.is_full() {
            let name = Bytes::copy_from_slice(alloc, name.as_bytes())?;
            self.locators.push(Locator { name, text })?;
        }
        Ok(())
    }

    // An entry of a folder of that level: an object, or one more folder to list.
    fn take_entry<R: Files>(
        &mut self,
        rt: &R,
        alloc: Global,
        path: &str,
        uri: String,
        level: u8,
    ) -> Result<(), ReadFault>
        ensures walked { IsWalked 0 self.old → 1 ≤ level → level ≤ 64
            → IsAtLevel level (string_bytes uri) → OnOk result (IsWalked 0 self.new) }
        ensures fewer { OnOk result
            (self.new.entries_left + vec_len self.new.pending
            ≤ self.old.entries_left + vec_len self.old.pending) }
    {
        count_entry(&mut self.entries_left)?;
        match kind_of(rt, path)? {
            Kind::File(size) => self.take_object(rt, alloc, path, uri, size)?,
            Kind::Folder if level < MOST_LEVELS => {
                let path = String::from_str(alloc, path)?;
                let level = level + 1;
                self.pending.push(Pending { path, uri, level })?;
            }
            _ => return Err(ReadFault::Read),
        }
        Ok(())
    }

    // All entries of a folder.
    fn list<R: Files + AllocGlobal + Clone + Drop>(
        &mut self,
        rt: &R,
        alloc: Global,
        folder: Pending,
    ) -> Result<(), ReadFault>
        ensures walked { IsWalked 0 self.old → IsPending folder
            → OnOk result (IsWalked 0 self.new) }
        ensures fewer { OnOk result
            (self.new.entries_left + vec_len self.new.pending
            ≤ self.old.entries_left + vec_len self.old.pending) }
    {
        for entry in fs::read_dir(rt, folder.path.as_str())? {
            let entry = entry?;
            let uri = joined(alloc, folder.uri.as_str(), entry.file_name())?;
            self.take_entry(rt, alloc, entry.path().as_str(), uri, folder.level)?;
        }
        Ok(())
    }

    // All that is below the folder of a scheme, if it is there.
    fn walk<R: Files + AllocGlobal + Clone + Drop>(
        &mut self,
        rt: &R,
        alloc: Global,
        path: String,
        uri: &str,
    ) -> Result<(), ReadFault>
        ensures { IsWalked 0 self.old → IsScheme uri.now → OnOk result (IsWalked 0 self.new) }
    {
        match kind_of(rt, path.as_str())? {
            Kind::Absent => return Ok(()),
            Kind::File(_) => return Err(ReadFault::Read),
            Kind::Folder => {}
        }
        let uri = String::from_str(alloc, uri)?;
        self.pending.push(Pending {
            path,
            uri,
            level: 1,
        })?;
        while let Some(folder) = self.pending.pop() {
            self.list(rt, alloc, folder)?;
        }
        Ok(())
    }

    // The locators of the files of `tals` whose names end in `.tal`, if it is there.
    fn take_locators<R: Files + AllocGlobal + Clone + Drop>(
        &mut self,
        rt: &R,
        alloc: Global,
        path: &str,
    ) -> Result<(), ReadFault>
        ensures { IsWalked 0 self.old → OnOk result (IsWalked 0 self.new) }
    {
        match kind_of(rt, path)? {
            Kind::Absent => return Ok(()),
            Kind::File(_) => return Err(ReadFault::Read),
            Kind::Folder => {}
        }
        for entry in fs::read_dir(rt, path)? {
            let entry = entry?;
            count_entry(&mut self.entries_left)?;
            let path = entry.path();
            match (kind_of(rt, path.as_str())?, locator_name(entry.file_name())) {
                (Kind::Absent, _) => return Err(ReadFault::Read),
                (Kind::File(size), Some(name)) => {
                    self.take_locator(rt, alloc, path.as_str(), name, size)?
                }
                _ => {}
            }
        }
        Ok(())
    }

    // All that is below `tals`, `rsync` and `https`.
    fn walk_all<R: Files + AllocGlobal + Clone + Drop>(
        &mut self,
        rt: &R,
        alloc: Global,
        folder: &str,
    ) -> Result<(), ReadFault>
        ensures { IsWalked 0 self.old → OnOk result (IsWalked 0 self.new) }
    {
        let tals = joined(alloc, folder, "tals")?;
        self.take_locators(rt, alloc, tals.as_str())?;
        self.walk(rt, alloc, joined(alloc, folder, "rsync")?, "rsync:/")?;
        self.walk(rt, alloc, joined(alloc, folder, "https")?, "https:/")
    }
}

// The name of the locator that a file of this name holds.
fn locator_name(file: &str) -> Option<&str>
    ensures { MatchOption result ((name : List ℕ) → file.now ≢ name ++ codes ".tal")
        (λ name. file.now ≡ name.now ++ codes ".tal") }
{
    file.strip_suffix(".tal")
}

// A file of one line, which has to be there.
fn read_line<R: Files>(
    rt: &R,
    alloc: Global,
    path: &str,
    buffer: &mut [u8],
) -> Result<Vec<u8>, ReadFault>
    ensures { IfOk result (λ octets. length octets.items ≤ 64) }
{
    match read_if_there(rt, alloc, path, MOST_LINE, buffer)? {
        Some(octets) => Ok(octets),
        None => Err(ReadFault::Read),
    }
}

// The files of lines that stand in the folder itself.
fn read_lines<R: Files>(
    rt: &R,
    alloc: Global,
    folder: &str,
    buffer: &mut [u8],
) -> Result<Lines, ReadFault>
    ensures moment { IfOk result (λ lines. length lines.moment.items ≤ 64) }
    ensures depth { IfOk result (λ lines. length lines.depth.items ≤ 64) }
    ensures relaxed { IfOk result
        (λ lines. IfSome lines.relaxed (λ text. length text.items ≤ 64)) }
    ensures verdicts { IfOk result (λ lines. length lines.verdicts.items ≤ 2 ^ 32) }
{
    let moment = joined(alloc, folder, "moment")?;
    let moment = read_line(rt, alloc, moment.as_str(), buffer)?;
    let depth = joined(alloc, folder, "depth")?;
    let depth = read_line(rt, alloc, depth.as_str(), buffer)?;
    let relaxed = joined(alloc, folder, "relaxed")?;
    let relaxed = read_if_there(rt, alloc, relaxed.as_str(), MOST_LINE, buffer)?;
    let verdicts = joined(alloc, folder, "verdicts")?;
    let verdicts = match read_if_there(rt, alloc, verdicts.as_str(), MOST_OCTETS, buffer)? {
        Some(octets) => octets,
        None => Vec::new(alloc),
    };
    Ok(Lines {
        moment,
        depth,
        relaxed,
        verdicts,
    })
}

/// All that a bundle is made of, or none where the files have more octets than a bundle can hold. What else lies in
/// the folder is left alone.
pub fn read_folder<R: Files + AllocGlobal + Clone + Drop>(
    rt: &R,
    alloc: Global,
    folder: &str,
) -> Result<Option<Contents>, ReadFault>
    ensures { IsReading result }
{
    if kind_of(rt, folder)? != Kind::Folder {
        return Err(ReadFault::Read);
    }
    let mut walk = Walk::new(alloc)?;
    let lines = read_lines(rt, alloc, folder, walk.buffer.as_mut_slice())?;
    walk.walk_all(rt, alloc, folder)?;
    if walk.is_full() {
        return Ok(None);
    }
    Ok(Some(Contents {
        moment: lines.moment,
        depth: lines.depth,
        relaxed: lines.relaxed,
        verdicts: lines.verdicts,
        locators: walk.locators,
        objects: walk.objects,
    }))
}
