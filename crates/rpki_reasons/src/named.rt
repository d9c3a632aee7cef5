//! What a reason names: numbers that are claimed and aren't held, a file, a prefix, a customer.

ghost use Rattle.std.specs.Prelude.{◌≡◌, ◌++◌, ◌∷◌, IfOk, OnOk, codes, string_bytes};
ghost use Rattle.rpki_rules.specs.DiagnosisViews.{cer_numbers, file_numbers, list_numbers, numbers_of, object_numbers, point_numbers, reason_of};
ghost use Rattle.rpki_rules.specs.Lines.{asn_text};
ghost use Rattle.rpki_rules.specs.ReasonViews.{cer_test_of, file_reason_of, kind_claimed, list_test_of, manifest_test_of, object_test_of, point_reason_of, runs_claimed};
ghost use Rattle.rpki_rules.specs.Views.{kind_of};
ghost use Rattle.objects_payload.specs.Addresses.{roa_address};
ghost use Rattle.rpki_reasons.specs.Json.{json_string};
ghost use Rattle.rpki_reasons.specs.Reasons.{cer_names, file_names, list_names, manifest_names, named, names_numbers, numbers_text as text_of_numbers, object_names, point_names, prefix_text as text_of_prefix, reason_names};

use crate::json::push_string;
use objects_payload::roa::RoaIpAddress;
use resources::IpBlocksForFamily;
use rpki_rules::reason::{
    CerTest, FileReason, ListTest, ManifestTest, ObjectTest, Overclaimed, PointReason, Reason,
};
use rpki_rules::{AddressFamily, Asn};
use std::alloc::{AllocError, Global};

// Appends a comma, and the key of a member.
fn push_key(text: &mut Vec<u8>, key: &str) -> Result<(), AllocError>
    ensures { OnOk result (text.new.items ≡ text.old.items ++ (44 ∷ json_string key.now)) }
{
    text.extend_from_slice(b",")?;
    push_string(text, key.as_bytes())
}

// Appends a colon, and the value of a member.
fn push_value(text: &mut Vec<u8>, name: &[u8]) -> Result<(), AllocError>
    ensures { OnOk result (text.new.items ≡ text.old.items ++ (58 ∷ json_string name.now)) }
{
    text.extend_from_slice(b":")?;
    push_string(text, name)
}

// Appends what a reason names: behind a space, or as one more member of an object.
fn push_named(text: &mut Vec<u8>, json: bool, key: &str, name: &[u8]) -> Result<(), AllocError>
    ensures { OnOk result
        (text.new.items ≡ text.old.items ++ named json key.now name.now) }
{
    if json {
        push_key(text, key)?;
        return push_value(text, name);
    }
    text.extend_from_slice(b" ")?;
    text.extend_from_slice(name)
}

// The numbers that are claimed and aren't held.
fn numbers_text(alloc: Global, claim: &Overclaimed) -> Result<String, AllocError>
    ensures { IfOk result (λ text. string_bytes text
        ≡ text_of_numbers (kind_claimed claim.now) (runs_claimed claim.now)) }
{
    match claim {
        Overclaimed::V4(numbers) => {
            let set = IpBlocksForFamily::v4(numbers.0.blocks());
            format!(in alloc; "{set}")
        }
        Overclaimed::V6(numbers) => {
            let set = IpBlocksForFamily::v6(numbers.0.blocks());
            format!(in alloc; "{set}")
        }
        Overclaimed::Asn(numbers) => {
            let set = numbers.blocks();
            format!(in alloc; "{set}")
        }
    }
}

// Appends the numbers that are claimed and aren't held.
fn push_numbers(
    alloc: Global,
    text: &mut Vec<u8>,
    json: bool,
    claim: &Overclaimed,
) -> Result<(), AllocError>
    ensures { OnOk result (text.new.items ≡ text.old.items
        ++ names_numbers json (kind_claimed claim.now) (runs_claimed claim.now)) }
{
    let numbers = numbers_text(alloc, claim)?;
    push_named(text, json, "unheld", numbers.as_bytes())
}

// A prefix of a route origin attestation.
fn prefix_text(
    alloc: Global,
    family: AddressFamily,
    address: RoaIpAddress,
) -> Result<String, AllocError>
    ensures { IfOk result (λ text. string_bytes text
        ≡ text_of_prefix (kind_of family) (roa_address address)) }
{
    let prefix = address.prefix();
    let (addr, len) = (prefix.addr(), prefix.addr_len());
    match family {
        AddressFamily::Ipv4 => format!(in alloc; "{}/{len}", addr.to_v4()),
        AddressFamily::Ipv6 => format!(in alloc; "{}/{len}", addr.to_v6()),
    }
}

// An AS number.
fn customer_text(alloc: Global, customer: Asn) -> Result<String, AllocError>
    ensures { IfOk result (λ text. string_bytes text ≡ asn_text customer.value) }
{
    format!(in alloc; "{customer}")
}

// Appends what a test of a manifest names.
fn push_manifest_names(
    text: &mut Vec<u8>,
    json: bool,
    test: &ManifestTest,
) -> Result<(), AllocError>
    ensures { OnOk result (text.new.items
        ≡ text.old.items ++ manifest_names json (manifest_test_of test.now)) }
{
    match test {
        ManifestTest::FileHeld(file) => push_named(text, json, "file", file.name.as_slice()),
        ManifestTest::FileHash(file) => push_named(text, json, "file", file.name.as_slice()),
        ManifestTest::ThisUpdate
        | ManifestTest::NextUpdate
        | ManifestTest::ManifestCert(_)
        | ManifestTest::ManifestContent(_)
        | ManifestTest::Folder
        | ManifestTest::NamesDiffer
        | ManifestTest::ListNamed
        | ManifestTest::ListListed => Ok(()),
    }
}

// Appends what a test of a revocation list names.
fn push_list_names(
    alloc: Global,
    text: &mut Vec<u8>,
    json: bool,
    test: &ListTest,
) -> Result<(), AllocError>
    ensures { OnOk result (text.new.items ≡ text.old.items
        ++ list_names json (list_test_of test.now) (list_numbers test.now)) }
{
    match test {
        ListTest::ManifestClaim(claim) => push_numbers(alloc, text, json, claim),
        ListTest::ListAuthority
        | ListTest::ListThisUpdate
        | ListTest::ListNextUpdate
        | ListTest::NotOnList
        | ListTest::ListSignature => Ok(()),
    }
}

// Appends what a reason of a publication point names.
fn push_point_names(
    alloc: Global,
    text: &mut Vec<u8>,
    json: bool,
    reason: &PointReason,
) -> Result<(), AllocError>
    ensures { OnOk result (text.new.items ≡ text.old.items
        ++ point_names json (point_reason_of reason.now) (point_numbers reason.now)) }
{
    match reason {
        PointReason::ManifestFails(test) => push_manifest_names(text, json, test),
        PointReason::ListFails(test) => push_list_names(alloc, text, json, test),
        PointReason::NoManifest | PointReason::BadManifest | PointReason::BadList => Ok(()),
    }
}

// Appends what a test of an authority's certificate names.
fn push_cer_names(
    alloc: Global,
    text: &mut Vec<u8>,
    json: bool,
    test: &CerTest,
) -> Result<(), AllocError>
    ensures { OnOk result (text.new.items ≡ text.old.items
        ++ cer_names json (cer_test_of test.now) (cer_numbers test.now)) }
{
    match test {
        CerTest::CerClaim(claim) => push_numbers(alloc, text, json, claim),
        CerTest::CerRevocation(_) | CerTest::CerCert(_) => Ok(()),
    }
}

// Appends a prefix that isn't held.
fn push_prefix(
    alloc: Global,
    text: &mut Vec<u8>,
    json: bool,
    family: AddressFamily,
    address: RoaIpAddress,
) -> Result<(), AllocError>
    ensures { OnOk result (text.new.items ≡ text.old.items
        ++ named json (codes "prefix") (text_of_prefix (kind_of family) (roa_address address))) }
{
    let prefix = prefix_text(alloc, family, address)?;
    push_named(text, json, "prefix", prefix.as_bytes())
}

// Appends a customer that isn't held.
fn push_customer(
    alloc: Global,
    text: &mut Vec<u8>,
    json: bool,
    customer: Asn,
) -> Result<(), AllocError>
    ensures { OnOk result (text.new.items ≡ text.old.items
        ++ named json (codes "customer") (asn_text customer.value)) }
{
    let customer = customer_text(alloc, customer)?;
    push_named(text, json, "customer", customer.as_bytes())
}

// Appends what a test of an object names.
fn push_object_names(
    alloc: Global,
    text: &mut Vec<u8>,
    json: bool,
    test: &ObjectTest,
) -> Result<(), AllocError>
    ensures { OnOk result (text.new.items ≡ text.old.items
        ++ object_names json (object_test_of test.now) (object_numbers test.now)) }
{
    match test {
        ObjectTest::ObjectClaim(claim) => push_numbers(alloc, text, json, claim),
        ObjectTest::PrefixHeld(family, address) => {
            push_prefix(alloc, text, json, *family, *address)
        }
        ObjectTest::CustomerHeld(customer) => push_customer(alloc, text, json, *customer),
        ObjectTest::ObjectRevocation(_)
        | ObjectTest::ObjectCert(_)
        | ObjectTest::ObjectContent(_) => Ok(()),
    }
}

// Appends what a reason of a file names.
fn push_file_names(
    alloc: Global,
    text: &mut Vec<u8>,
    json: bool,
    reason: &FileReason,
) -> Result<(), AllocError>
    ensures { OnOk result (text.new.items ≡ text.old.items
        ++ file_names json (file_reason_of reason.now) (file_numbers reason.now)) }
{
    match reason {
        FileReason::CerFails(test) => push_cer_names(alloc, text, json, test),
        FileReason::ObjectFails(test) => push_object_names(alloc, text, json, test),
        FileReason::BadCer | FileReason::Loop | FileReason::Depth | FileReason::BadObject => {
            Ok(())
        }
    }
}

/// Appends what a reason names: behind a space, or as one more member of an object; nothing where it names nothing.
pub fn push_reason_names(
    alloc: Global,
    text: &mut Vec<u8>,
    json: bool,
    reason: &Reason,
) -> Result<(), AllocError>
    ensures { OnOk result (text.new.items ≡ text.old.items
        ++ reason_names json (reason_of reason.now) (numbers_of reason.now)) }
{
    match reason {
        Reason::Locator(_) => Ok(()),
        Reason::Point(reason) => push_point_names(alloc, text, json, reason),
        Reason::File(reason) => push_file_names(alloc, text, json, reason),
    }
}
