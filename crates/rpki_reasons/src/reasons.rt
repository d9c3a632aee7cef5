//! What is wrong with what, by a reason: a word that stays, for programs, and words for people.

ghost use Rattle.std.specs.Prelude.{◌≡◌, ◌++◌, OnOk, codes};
ghost use Rattle.rpki_rules.specs.DiagnosisViews.{reason_of};
ghost use Rattle.rpki_rules.specs.ReasonViews.{cer_test_of, file_reason_of, list_test_of, manifest_test_of, object_test_of, point_reason_of};
ghost use Rattle.rpki_reasons.specs.Faults.{either as either_of};
ghost use Rattle.rpki_reasons.specs.Reasons.{anchor_fault as fault_of_anchor, cer_fault as fault_of_cer, file_text, list_text, locator_text, manifest_text, object_text, point_text, reason_text, said};

use crate::faults::{cert_fault, content_fault, either, revocation_fault, text_fault};
use rpki_rules::reason::{
    AnchorTest, CerTest, FileReason, ListTest, LocatorReason, ManifestTest, ObjectTest,
    PointReason, Reason,
};
use std::alloc::AllocError;

// A word for programs, and words for people.
type Words = (&'static str, &'static str);

// What is wrong with what.
#[derive(Clone, Copy)]
struct Said {
    // With what something is wrong.
    subject: &'static str,
    // What is wrong with it.
    fault: &'static str,
}

// That there is this fault of that.
fn say(subject: &'static str, fault: &'static str) -> Said
    ensures subject { result.subject.now ≡ subject.now }
    ensures fault { result.fault.now ≡ fault.now }
{
    Said { subject, fault }
}

// With what something is wrong: the certificate in a manifest, that in another object, a revocation list.
const OF_MANIFEST: Words = ("manifest-certificate", "certificate of the manifest");

const OF_OBJECT: Words = ("object-certificate", "certificate of the object");

const OF_LIST: Words = ("list", "revocation list");

// What is wrong in more than one place: that something doesn't read, is of a time to come or past, is revoked, or claims
// what isn't held.
const UNREADABLE: Words = ("unreadable", "unreadable");

const TOO_EARLY: Words = ("this-update", "this update is after the moment");

const TOO_LATE: Words = ("next-update", "next update is before the moment");

const REVOKED: Words = ("revoked", "revoked");

const OVERCLAIM: Words = ("overclaim", "overclaims");

// The one that is wanted.
fn told(json: bool, texts: Words) -> &'static str
    ensures { result.now ≡ either_of json texts.entry.0.now texts.entry.1.now }
{
    either(json, texts.0, texts.1)
}

// What is wrong with an anchor.
fn anchor_fault(json: bool, test: AnchorTest) -> &'static str
    ensures { result.now ≡ fault_of_anchor json test }
{
    match test {
        AnchorTest::SameKey => either(json, "other-key", "another key than the locator's"),
        AnchorTest::AnchorCert(test) => cert_fault(json, test),
    }
}

// Why a locator is refused.
fn locator_said(json: bool, reason: LocatorReason) -> Said
    ensures { said json result.subject.now result.fault.now ≡ locator_text json reason }
{
    match reason {
        LocatorReason::BadText(error) => say("locator", text_fault(json, error)),
        LocatorReason::NoneHeld => say(
            "anchor",
            either(json, "missing", "missing at the locator's URIs"),
        ),
        LocatorReason::NoCert => say("anchor", either(json, "unreadable", "not a certificate")),
        LocatorReason::BadAnchor(test) => say("anchor", anchor_fault(json, test)),
    }
}

// Which test a manifest fails.
fn manifest_said(json: bool, test: &ManifestTest) -> Said
    ensures { said json result.subject.now result.fault.now
        ≡ manifest_text json (manifest_test_of test.now) }
{
    match test {
        ManifestTest::ThisUpdate => say("manifest", told(json, TOO_EARLY)),
        ManifestTest::NextUpdate => say("manifest", told(json, TOO_LATE)),
        ManifestTest::ManifestCert(test) => say(told(json, OF_MANIFEST), cert_fault(json, *test)),
        ManifestTest::ManifestContent(test) => say("manifest", content_fault(json, *test)),
        ManifestTest::Folder => say(
            "manifest",
            either(json, "folder", "no folder of the authority"),
        ),
        ManifestTest::NamesDiffer => say(
            "manifest",
            either(json, "name-twice", "lists a name twice"),
        ),
        ManifestTest::FileHeld(_) => say("manifest", either(json, "file-missing", "missing file")),
        ManifestTest::FileHash(_) => say("manifest", either(json, "file-changed", "changed file")),
        ManifestTest::ListNamed => say(
            told(json, OF_MANIFEST),
            either(json, "list-unnamed", "names no revocation list"),
        ),
        ManifestTest::ListListed => say(
            "manifest",
            either(json, "list-unlisted", "doesn't list the revocation list"),
        ),
    }
}

// Which test a revocation list fails, or the manifest's certificate by it.
fn list_said(json: bool, test: &ListTest) -> Said
    ensures { said json result.subject.now result.fault.now
        ≡ list_text json (list_test_of test.now) }
{
    match test {
        ListTest::ListAuthority => say(
            told(json, OF_LIST),
            either(json, "other-authority", "of another authority"),
        ),
        ListTest::ListThisUpdate => say(told(json, OF_LIST), told(json, TOO_EARLY)),
        ListTest::ListNextUpdate => say(told(json, OF_LIST), told(json, TOO_LATE)),
        ListTest::NotOnList => say(told(json, OF_MANIFEST), told(json, REVOKED)),
        ListTest::ListSignature => say(
            told(json, OF_LIST),
            either(json, "bad-signature", "bad signature"),
        ),
        ListTest::ManifestClaim(_) => say(told(json, OF_MANIFEST), told(json, OVERCLAIM)),
    }
}

// Why a publication point is refused.
fn point_said(json: bool, reason: &PointReason) -> Said
    ensures { said json result.subject.now result.fault.now
        ≡ point_text json (point_reason_of reason.now) }
{
    match reason {
        PointReason::NoManifest => say("manifest", either(json, "missing", "missing")),
        PointReason::BadManifest => say("manifest", told(json, UNREADABLE)),
        PointReason::ManifestFails(test) => manifest_said(json, test),
        PointReason::BadList => say(told(json, OF_LIST), told(json, UNREADABLE)),
        PointReason::ListFails(test) => list_said(json, test),
    }
}

// What is wrong with an authority's certificate.
fn cer_fault(json: bool, test: &CerTest) -> &'static str
    ensures { result.now ≡ fault_of_cer json (cer_test_of test.now) }
{
    match test {
        CerTest::CerRevocation(test) => revocation_fault(json, *test),
        CerTest::CerCert(test) => cert_fault(json, *test),
        CerTest::CerClaim(_) => told(json, OVERCLAIM),
    }
}

// Which test an object fails.
fn object_said(json: bool, test: &ObjectTest) -> Said
    ensures { said json result.subject.now result.fault.now
        ≡ object_text json (object_test_of test.now) }
{
    match test {
        ObjectTest::ObjectRevocation(test) => {
            say(told(json, OF_OBJECT), revocation_fault(json, *test))
        }
        ObjectTest::ObjectCert(test) => say(told(json, OF_OBJECT), cert_fault(json, *test)),
        ObjectTest::ObjectContent(test) => say("object", content_fault(json, *test)),
        ObjectTest::ObjectClaim(_) => say(told(json, OF_OBJECT), told(json, OVERCLAIM)),
        ObjectTest::PrefixHeld(_, _) => say(
            "object",
            either(json, "unheld-prefix", "unheld prefix"),
        ),
        ObjectTest::CustomerHeld(_) => say(
            "object",
            either(json, "unheld-customer", "unheld customer"),
        ),
    }
}

// Why a file is refused.
fn file_said(json: bool, reason: &FileReason) -> Said
    ensures { said json result.subject.now result.fault.now
        ≡ file_text json (file_reason_of reason.now) }
{
    match reason {
        FileReason::BadCer => say("certificate", told(json, UNREADABLE)),
        FileReason::CerFails(test) => say("certificate", cer_fault(json, test)),
        FileReason::Loop => say(
            "certificate",
            either(json, "loop", "its key is on the chain already"),
        ),
        FileReason::Depth => say(
            "certificate",
            either(
                json,
                "depth",
                "the chain has as many certificates as it may",
            ),
        ),
        FileReason::BadObject => say("object", told(json, UNREADABLE)),
        FileReason::ObjectFails(test) => object_said(json, test),
    }
}

// What is wrong with what.
fn reason_said(json: bool, reason: &Reason) -> Said
    ensures { said json result.subject.now result.fault.now
        ≡ reason_text json (reason_of reason.now) }
{
    match reason {
        Reason::Locator(reason) => locator_said(json, *reason),
        Reason::Point(reason) => point_said(json, reason),
        Reason::File(reason) => file_said(json, reason),
    }
}

// Between what something is wrong with and what is wrong with it.
fn between(json: bool) -> &'static str
    ensures { result.now ≡ either_of json (codes "-") (codes ": ") }
{
    either(json, "-", ": ")
}

// SUBJECT: FAULT
fn push_said(text: &mut Vec<u8>, json: bool, words: Said) -> Result<(), AllocError>
    ensures { OnOk result (text.new.items
        ≡ text.old.items ++ said json words.subject.now words.fault.now) }
{
    text.extend_from_slice(words.subject.as_bytes())?;
    text.extend_from_slice(between(json).as_bytes())?;
    text.extend_from_slice(words.fault.as_bytes())
}

/// Appends what is wrong with what.
pub fn push_reason(text: &mut Vec<u8>, json: bool, reason: &Reason) -> Result<(), AllocError>
    ensures { OnOk result
        (text.new.items ≡ text.old.items ++ reason_text json (reason_of reason.now)) }
{
    push_said(text, json, reason_said(json, reason))
}
