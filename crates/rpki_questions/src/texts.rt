//! Facts as texts: a line, or a JSON object (RFC 8259).

ghost use Rattle.std.specs.Prelude.{◌≡◌, ◌++◌, ◌∷◌, OnOk, codes, flat_map};
ghost use Rattle.rpki_validator.specs.rpki_rules.Views.{witness_of, path_of};
ghost use Rattle.rpki_reasons.specs.Json.{json_string};
ghost use Rattle.rpki_questions.specs.Chained.{path_members, path_text};
ghost use Rattle.rpki_questions.specs.Orders.{refused_of};
ghost use Rattle.rpki_questions.specs.Refused.{refused_head, refused_line, refused_members, refused_object};
ghost use Rattle.rpki_questions.specs.Told.{chain_line, chain_object, good_line, good_object};

use crate::refused::Refused;
use bytes::Bytes;
use rpki_reasons::json::{push_string, push_strings};
use rpki_reasons::{push_reason, push_reason_names};
use rpki_validator::{Path, Witness, word_of};
use std::alloc::{AllocError, Global};

// Appends a space and a URI.
fn push_uri(text: &mut Vec<u8>, uri: &[u8]) -> Result<(), AllocError>
    ensures { OnOk result (text.new.items ≡ text.old.items ++ (32 ∷ uri.now)) }
{
    text.extend_from_slice(b" ")?;
    text.extend_from_slice(uri)
}

// Appends URIs, with a space in front of each.
fn push_uris(text: &mut Vec<u8>, uris: &[Bytes]) -> Result<(), AllocError>
    ensures { OnOk result
        (text.new.items ≡ text.old.items ++ flat_map (λ uri. 32 ∷ uri) uris.now) }
{
    for uri in uris {
        push_uri(text, uri.as_slice())?;
    }
    Ok(())
}

// LOCATOR URI .., and the end of the line
fn push_path(text: &mut Vec<u8>, locator: &[u8], chain: &[Bytes]) -> Result<(), AllocError>
    ensures { OnOk result (text.new.items ≡ text.old.items ++ path_text locator.now chain.now) }
{
    text.extend_from_slice(locator)?;
    push_uris(text, chain)?;
    text.extend_from_slice(b"\n")
}

// refused NAME CAUSE:
fn push_refused_head(text: &mut Vec<u8>, refused: &Refused) -> Result<(), AllocError>
    ensures { OnOk result (text.new.items
        ≡ text.old.items ++ refused_head (refused_of refused.now).diagnosis) }
{
    text.extend_from_slice(b"refused ")?;
    text.extend_from_slice(refused.name().as_slice())?;
    text.extend_from_slice(b" ")?;
    text.extend_from_slice(word_of(refused.cause()).as_bytes())?;
    text.extend_from_slice(b": ")
}

// ; by LOCATOR URI .., and the end of the line
fn push_by(text: &mut Vec<u8>, refused: &Refused) -> Result<(), AllocError>
    ensures { OnOk result (text.new.items ≡ text.old.items
        ++ (codes "; by " ++ path_text (refused_of refused.now).diagnosis.locator
        (refused_of refused.now).diagnosis.chain)) }
{
    text.extend_from_slice(b"; by ")?;
    push_path(text, refused.locator().as_slice(), refused.chain())
}

/// refused NAME CAUSE: REASON; by LOCATOR URI ..
pub(crate) fn push_refused(
    alloc: Global,
    text: &mut Vec<u8>,
    refused: &Refused,
) -> Result<(), AllocError>
    ensures { OnOk result
        (text.new.items ≡ text.old.items ++ refused_line (refused_of refused.now)) }
{
    push_refused_head(text, refused)?;
    push_reason(text, false, refused.reason())?;
    push_reason_names(alloc, text, false, refused.reason())?;
    push_by(text, refused)
}

/// good OBJECT LOCATOR URI ..
pub(crate) fn push_witness(text: &mut Vec<u8>, witness: &Witness) -> Result<(), AllocError>
    ensures { OnOk result (text.new.items ≡ text.old.items ++ good_line (witness_of witness.now)) }
{
    text.extend_from_slice(b"good ")?;
    text.extend_from_slice(witness.object().as_slice())?;
    text.extend_from_slice(b" ")?;
    push_path(text, witness.locator().as_slice(), witness.chain())
}

/// chain LOCATOR URI ..
pub(crate) fn push_chain(text: &mut Vec<u8>, path: &Path) -> Result<(), AllocError>
    ensures { OnOk result (text.new.items ≡ text.old.items ++ chain_line (path_of path.now)) }
{
    text.extend_from_slice(b"chain ")?;
    push_path(text, path.locator().as_slice(), path.chain())
}

// "locator":..,"chain":[..]}
fn push_path_members(text: &mut Vec<u8>, locator: &[u8], chain: &[Bytes]) -> Result<(), AllocError>
    ensures { OnOk result (text.new.items ≡ text.old.items ++ path_members locator.now chain.now) }
{
    text.extend_from_slice(b"\"locator\":")?;
    push_string(text, locator)?;
    text.extend_from_slice(b",\"chain\":")?;
    push_strings(text, chain)?;
    text.extend_from_slice(b"}")
}

// {"name":..,"cause":..,"reason":"
fn push_refused_members(text: &mut Vec<u8>, refused: &Refused) -> Result<(), AllocError>
    ensures { OnOk result (text.new.items
        ≡ text.old.items ++ refused_members (refused_of refused.now).diagnosis) }
{
    text.extend_from_slice(b"{\"name\":")?;
    push_string(text, refused.name().as_slice())?;
    text.extend_from_slice(b",\"cause\":")?;
    push_string(text, word_of(refused.cause()).as_bytes())?;
    text.extend_from_slice(b",\"reason\":\"")
}

// ,"locator":..,"chain":[..]}
fn push_last_members(text: &mut Vec<u8>, refused: &Refused) -> Result<(), AllocError>
    ensures { OnOk result (text.new.items ≡ text.old.items
        ++ (codes "," ++ path_members (refused_of refused.now).diagnosis.locator
        (refused_of refused.now).diagnosis.chain)) }
{
    text.extend_from_slice(b",")?;
    push_path_members(text, refused.locator().as_slice(), refused.chain())
}

/// {"name":..,"cause":..,"reason":..,"locator":..,"chain":[..]}, and what the reason names behind it
pub(crate) fn push_refused_object(
    alloc: Global,
    text: &mut Vec<u8>,
    refused: &Refused,
) -> Result<(), AllocError>
    ensures { OnOk result
        (text.new.items ≡ text.old.items ++ refused_object (refused_of refused.now)) }
{
    push_refused_members(text, refused)?;
    push_reason(text, true, refused.reason())?;
    text.extend_from_slice(b"\"")?;
    push_reason_names(alloc, text, true, refused.reason())?;
    push_last_members(text, refused)
}

// {"object":..,
fn push_object_member(text: &mut Vec<u8>, object: &[u8]) -> Result<(), AllocError>
    ensures { OnOk result (text.new.items ≡ text.old.items
        ++ (codes "{\"object\":" ++ (json_string object.now ++ codes ","))) }
{
    text.extend_from_slice(b"{\"object\":")?;
    push_string(text, object)?;
    text.extend_from_slice(b",")
}

/// {"object":..,"locator":..,"chain":[..]}
pub(crate) fn push_witness_object(text: &mut Vec<u8>, witness: &Witness) -> Result<(), AllocError>
    ensures { OnOk result
        (text.new.items ≡ text.old.items ++ good_object (witness_of witness.now)) }
{
    push_object_member(text, witness.object().as_slice())?;
    push_path_members(text, witness.locator().as_slice(), witness.chain())
}

/// {"locator":..,"chain":[..]}
pub(crate) fn push_chain_object(text: &mut Vec<u8>, path: &Path) -> Result<(), AllocError>
    ensures { OnOk result (text.new.items ≡ text.old.items ++ chain_object (path_of path.now)) }
{
    text.extend_from_slice(b"{")?;
    push_path_members(text, path.locator().as_slice(), path.chain())
}
