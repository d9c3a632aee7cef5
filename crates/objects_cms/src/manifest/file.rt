//! One file of a manifest: its name, and its hash (RFC 9286 4.2).

ghost use Rattle.std.specs.Prelude.{◌≡◌, ◌≢◌, ◌↔◌, IsTrue, IfErr};
ghost use Rattle.objects_payload.specs.Manifests.{IsFileName};
ghost use Rattle.objects_cms.specs.bcder_tree.Strings.{IsLetter};
ghost use Rattle.objects_cms.specs.bcder_tree.Tags.{sequence_tag};
ghost use Rattle.objects_cms.specs.bcder_source.declared.error.DecodeError.TheVariants.{Memory};
ghost use Rattle.objects_cms.specs.bcder_primitive.Plain.{plain, ReadsOctetsAs};
ghost use Rattle.objects_cms.specs.bcder_content.Exact.{ReadsAs, ReadsOptAs};
ghost use Rattle.objects_cms.specs.bcder_content.Here.{here};
ghost use Rattle.objects_cms.specs.bcder_content.InMode.{ReadsFields};
ghost use Rattle.objects_cms.specs.Files.{AreEntryFields, IsEntry, IsHash, IsHashContent, IsName, IsBase, IsBaseOctet, IsExtension, IsNameContent, entry};

use certs_key::Tag;
use certs_key::decode::whole::{front, pass, refuse, request_all};
use certs_key::decode::{Constructed, DecodeError, Primitive, Source};
use std::marker::Model;

// How many octets the extension of a name has: a dot and three letters (RFC 9286 4.2.2).
const EXTENSION_LEN: usize = 4;

// What a hash says first: that no bit of its last octet is unused (X.690 8.6.2.2).
const NO_UNUSED_BITS: u8 = 0;

/// A file that a manifest lists: its name, and the octets of its hash. Contracts see both.
#[derive(Debug, Drop)]
pub struct FileAndHash<'a> {
    file: &'a [u8],
    hash: &'a [u8],
}

impl<'a> Model for FileAndHash<'a> {
    ghost use Rattle.objects_payload.specs.Manifests.{File};

    ghost Value = { File };

    ghost view = { λ f. record { name = f.file.now; hash = f.hash.now } };
}

impl<'a> FileAndHash<'a> {
    /// The file of that name, with that hash.
    pub fn new(file: &'a [u8], hash: &'a [u8]) -> Self
        ensures { result ≡ record { name = file.now; hash = hash.now } }
    {
        FileAndHash { file, hash }
    }

    /// The name.
    pub fn file(&self) -> &'a [u8]
        ensures { result.now ≡ self.now.name }
    {
        self.file
    }

    /// The octets of the hash.
    pub fn hash(&self) -> &'a [u8]
        ensures { result.now ≡ self.now.hash }
    {
        self.hash
    }

    /// The name, and the octets of the hash.
    pub fn into_pair(self) -> (&'a [u8], &'a [u8])
        ensures file { result.0.now ≡ self.entry.name }
        ensures hash { result.1.now ≡ self.entry.hash }
    {
        (self.file, self.hash)
    }
}

// Whether an octet is a letter.
fn is_letter(octet: u8) -> bool
    ensures { IsTrue result ↔ IsLetter octet }
{
    octet.is_ascii_alphabetic()
}

// Whether an octet may stand in a name in front of its extension.
fn is_base_octet(octet: u8) -> bool
    ensures { IsTrue result ↔ IsBaseOctet octet }
{
    is_letter(octet) || octet.is_ascii_digit() || octet == b'-' || octet == b'_'
}

// Whether octets may stand in a name in front of its extension: there is one, at least.
fn is_base(octets: &[u8]) -> bool
    ensures { IsTrue result ↔ IsBase octets.now }
{
    !octets.is_empty() && octets.iter().all(|octet| is_base_octet(*octet))
}

// Whether octets are a dot and three letters.
fn is_extension(octets: &[u8]) -> bool
    ensures { IsTrue result ↔ IsExtension octets.now }
{
    match octets {
        [dot, first, second, third] => {
            *dot == b'.' && is_letter(*first) && is_letter(*second) && is_letter(*third)
        }
        _ => false,
    }
}

/// Whether octets are the name of a file: letters, digits, `-` and `_`, one at least, and then a dot and three
/// letters (RFC 9286 4.2.2).
pub fn is_file_name(octets: &[u8]) -> bool
    ensures { IsTrue result ↔ IsFileName octets.now }
{
    if octets.len() < EXTENSION_LEN {
        return false;
    }
    let (base, extension) = octets.split_at(octets.len() - EXTENSION_LEN);
    is_base(base) && is_extension(extension)
}

// Whether content octets of a BIT STRING tell that no bit is unused.
fn is_whole(octets: &[u8]) -> bool
    ensures { IsTrue result ↔ IsHashContent octets.now tt }
{
    match octets {
        [unused, ..] => *unused == NO_UNUSED_BITS,
        [] => false,
    }
}

// Goes past a content that is the name of a file.
fn pass_name<S: Source>(prim: &mut Primitive<S>) -> Result<(), DecodeError<S::Error>>
    ensures reads { ReadsOctetsAs (λ x. x) IsNameContent
        (plain S.rest prim.old) result (plain S.rest prim.new) }
    ensures no_memory { IfErr result (λ e. e ≢ Memory) }
{
    let count = request_all(prim)?;
    if is_file_name(front(prim, count)) {
        pass(prim, count);
        return Ok(());
    }
    Err(refuse(prim, "invalid file name"))
}

// Goes past a content that is a hash in whole octets.
fn pass_hash<S: Source>(prim: &mut Primitive<S>) -> Result<(), DecodeError<S::Error>>
    ensures reads { ReadsOctetsAs (λ x. x) IsHashContent
        (plain S.rest prim.old) result (plain S.rest prim.new) }
    ensures no_memory { IfErr result (λ e. e ≢ Memory) }
{
    let count = request_all(prim)?;
    if is_whole(front(prim, count)) {
        pass(prim, count);
        return Ok(());
    }
    Err(refuse(prim, "invalid hash"))
}

// Goes past a name: an IA5String, which is primitive.
fn skip_name<S: Source>(cons: &mut Constructed<S>) -> Result<(), DecodeError<S::Error>>
    ensures reads { ReadsAs (λ x. x) IsName (here S.rest cons.old) result (here S.rest cons.new) }
    ensures no_memory { IfErr result (λ e. e ≢ Memory) }
{
    cons.take_primitive_if(Tag::IA5_STRING, |prim| pass_name(prim))
}

// Goes past a hash: a BIT STRING, which is primitive.
fn skip_hash<S: Source>(cons: &mut Constructed<S>) -> Result<(), DecodeError<S::Error>>
    ensures reads { ReadsAs (λ x. x) IsHash (here S.rest cons.old) result (here S.rest cons.new) }
    ensures no_memory { IfErr result (λ e. e ≢ Memory) }
{
    cons.take_primitive_if(Tag::BIT_STRING, |prim| pass_hash(prim))
}

// Goes past the fields of a file, which are all of their content.
fn skip_fields<S: Source>(cons: &mut Constructed<S>) -> Result<(), DecodeError<S::Error>>
    ensures reads { ReadsFields entry AreEntryFields
        (here S.rest cons.old) result (here S.rest cons.new) }
    ensures no_memory { IfErr result (λ e. e ≢ Memory) }
{
    let name = skip_name(cons)?;
    let hash = skip_hash(cons)?;
    Ok(())
}

/// Goes past the next file, if a SEQUENCE is next; one that is no file is refused.
pub(crate) fn skip_opt_file<S: Source>(
    cons: &mut Constructed<S>,
) -> Result<Option<()>, DecodeError<S::Error>>
    ensures reads { ReadsOptAs entry sequence_tag IsEntry
        (here S.rest cons.old) result (here S.rest cons.new) }
    ensures no_memory { IfErr result (λ e. e ≢ Memory) }
{
    cons.take_opt_sequence(
        |cons|
            ensures reads { ReadsFields entry AreEntryFields
                (here S.rest cons.old) result (here S.rest cons.new) }
            ensures no_memory { IfErr result (λ e. e ≢ Memory) }
        { skip_fields(cons) },
    )
}
