//! The content of a checklist (RFC 9323 4).

ghost use Rattle.std.specs.Prelude.{◌≡◌, ◌↔◌, [], true, length, map, IsTrue, OnErr};
ghost use Rattle.objects_payload.specs.bcder_content.Exact.{DecodesAs, ReadsAs};
ghost use Rattle.objects_payload.specs.bcder_content.Here.{here};
ghost use Rattle.objects_payload.specs.bcder_content.InMode.{ReadsFields};
ghost use Rattle.objects_payload.specs.bcder_tree.declared.mode.Mode.TheVariants.{Der};
ghost use Rattle.objects.specs.Checklists.{AreFields, AreSome, IsChecklist, checklist_of};
ghost use Rattle.objects.specs.ChecklistEntries.{AreBehind, behind_fields, checked, parts_fields};

use crate::rsc::checklist::entry::{Entry, take_list};
use crate::rsc::checklist::file::CheckListIter;
use certs_key::decode::{Constructed, ContentError, Decode, DecodeError, IntoSource, Source};
use certs_key::{DigestAlgorithm, Mode};
use objects_cms::version::take_opt_version;
use objects_valid::{AsForm, AsResources, IpResources, StatedResources};
use std::alloc::Global;
use std::marker::Model;

// The number that stands for the only version (RFC 9323 4.1).
const VERSION: u8 = 0;

/// What a checklist says: by whose resources it is signed, and which files with which digests it lists. Contracts see
/// both.
///
/// `RpkiSignedChecklist ::= SEQUENCE { version [0] INTEGER DEFAULT 0, resources ResourceBlock, digestAlgorithm
/// DigestAlgorithmIdentifier, checkList SEQUENCE (SIZE (1..MAX)) OF FileNameAndHash }` (RFC 9323 4)
#[derive(Debug, Drop)]
pub struct ResourceSignedChecklist {
    resources: StatedResources,
    files: Vec<Entry>,
}

impl Model for ResourceSignedChecklist {
    ghost use Rattle.std.specs.Prelude.{map};
    ghost use Rattle.objects.specs.Checklists.{Checklist};
    ghost use Rattle.objects.specs.ChecklistEntries.{checked};

    ghost Value = { Checklist };

    ghost view = { λ c. record { resources = c.resources; files = map checked c.files.items } };
}

// All that is read: whether the version is written out, the resources, and the files.
#[derive(Drop)]
struct Parts {
    version: Option<()>,
    resources: StatedResources,
    files: Vec<Entry>,
}

// Whether there is an entry.
fn has_some(files: &Vec<Entry>) -> bool
    ensures { IsTrue result ↔ AreSome (map checked files.now.items) }
{
    !files.is_empty()
}

// What stands behind the resources: the digest's algorithm, and the list of files, which isn't empty.
fn take_behind<S: Source>(
    alloc: Global,
    cons: &mut Constructed<S>,
) -> Result<Vec<Entry>, DecodeError<S::Error>>
    ensures { ReadsFields (λ v. behind_fields (map checked v.items)) AreBehind
        (here S.rest cons.old) result (here S.rest cons.new) }
{
    let algorithm = DigestAlgorithm::take_from(cons)?;
    let files = take_list(alloc, cons)?;
    if !has_some(&files) {
        drop(files);
        return Err((*cons).content_err(ContentError::from_static("a checklist of no file")));
    }
    Ok(files)
}

// All fields, up to the end of their content.
fn take_parts<S: Source>(
    alloc: Global,
    cons: &mut Constructed<S>,
) -> Result<Parts, DecodeError<S::Error>>
    ensures { ReadsFields parts_fields AreFields
        (here S.rest cons.old) result (here S.rest cons.new) }
{
    let version = take_opt_version(cons, VERSION)?;
    let resources = StatedResources::take_from(alloc, cons, AsForm::Identifiers)?;
    match take_behind(alloc, cons) {
        Ok(files) => Ok(Parts {
            version,
            resources,
            files,
        }),
        Err(error) => {
            drop(resources);
            Err(error)
        }
    }
}

/// Reading.
impl ResourceSignedChecklist {
    // What the parts say.
    fn from_parts(parts: Parts) -> Self
        ensures { result ≡ checklist_of (parts_fields parts) }
    {
        let Parts {
            version: _,
            resources,
            files,
        } = parts;
        ResourceSignedChecklist { resources, files }
    }

    /// The content that is next: version 0, whether it is written or not, stated resources, SHA-256, and one file at
    /// least. A name is any IA5String, a digest any OCTET STRING.
    pub fn take_from<S: Source>(
        alloc: Global,
        cons: &mut Constructed<S>,
    ) -> Result<Self, DecodeError<S::Error>>
        ensures reads { ReadsAs (λ c. c) (IsChecklist (here S.rest cons.old).mode)
            (here S.rest cons.old) result (here S.rest cons.new) }
        ensures failed { OnErr result ((here S.rest cons.new).failed ≡ true) }
    {
        let parts = cons.take_sequence(
            |cons|
                ensures { ReadsFields parts_fields AreFields
                    (here S.rest cons.old) result (here S.rest cons.new) }
            { take_parts(alloc, cons) },
        )?;
        Ok(ResourceSignedChecklist::from_parts(parts))
    }

    /// The content that a source begins with, in DER; octets after it stay unread.
    pub fn decode<I: IntoSource>(
        alloc: Global,
        source: I,
    ) -> Result<Self, DecodeError<<I::Source as Source>::Error>>
        ensures { DecodesAs (λ c. c) Der (IsChecklist Der) (I.octets source) result }
    {
        Mode::Der.decode(
            source,
            |cons|
                ensures { ReadsAs (λ c. c) (IsChecklist (here I.Source.rest cons.old).mode)
                    (here I.Source.rest cons.old) result (here I.Source.rest cons.new) }
            { ResourceSignedChecklist::take_from(alloc, cons) },
        )
    }
}

/// What a checklist says.
impl ResourceSignedChecklist {
    /// The resources that are stated, of all kinds.
    pub fn resources(&self) -> &StatedResources
        ensures { result.now ≡ self.now.resources }
    {
        &self.resources
    }

    /// What is stated of AS numbers: a set, or that they are missing.
    pub fn as_resources(&self) -> &AsResources
        ensures { result.now ≡ self.now.resources.asn }
    {
        self.resources.as_resources()
    }

    /// What is stated of IPv4 addresses: a set, or that they are missing.
    pub fn v4_resources(&self) -> &IpResources
        ensures { result.now ≡ self.now.resources.v4 }
    {
        self.resources.v4_resources()
    }

    /// What is stated of IPv6 addresses: a set, or that they are missing.
    pub fn v6_resources(&self) -> &IpResources
        ensures { result.now ≡ self.now.resources.v6 }
    {
        self.resources.v6_resources()
    }

    /// The algorithm of the files' digests, which is SHA-256.
    pub fn digest_algorithm(&self) -> DigestAlgorithm {
        DigestAlgorithm::default()
    }

    /// How many files are listed: one at least, where the checklist was read.
    pub fn len(&self) -> usize
        ensures { result ≡ length self.now.files }
    {
        self.files.len()
    }

    /// Whether no file is listed, as of no checklist that was read.
    pub fn is_empty(&self) -> bool
        ensures { IsTrue result ↔ (self.now.files ≡ []) }
    {
        self.files.is_empty()
    }

    // The entries, in their order.
    fn entries(&self) -> &[Entry]
        ensures { map checked result.now ≡ self.now.files }
    {
        self.files.as_slice()
    }

    /// The files that are listed, in their order.
    pub fn iter(&self) -> CheckListIter<'_>
        ensures { result ≡ self.now.files }
    {
        CheckListIter::new(self.entries())
    }
}
