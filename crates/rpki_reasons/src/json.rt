//! Pieces of JSON texts (RFC 8259).

ghost use Rattle.std.specs.Prelude.{◌≡◌, ◌++◌, ◌∷◌, [], OnOk, drop, flat_map};
ghost use Rattle.rpki_reasons.specs.Json.{escaped, json_array, json_string};

use bytes::Bytes;
use std::alloc::AllocError;

// Appends an octet of a string.
fn push_octet(text: &mut Vec<u8>, octet: u8) -> Result<(), AllocError>
    ensures { OnOk result (text.new.items ≡ text.old.items ++ escaped octet) }
{
    if octet == b'"' || octet == b'\\' {
        return text.extend_from_slice(&[b'\\', octet]);
    }
    text.extend_from_slice(&[octet])
}

// Appends the octets of a string.
fn push_octets(text: &mut Vec<u8>, octets: &[u8]) -> Result<(), AllocError>
    ensures { OnOk result (text.new.items ≡ text.old.items ++ flat_map escaped octets.now) }
{
    for octet in octets {
        push_octet(text, *octet)?;
    }
    Ok(())
}

/// Appends a string of printable octets.
pub fn push_string(text: &mut Vec<u8>, octets: &[u8]) -> Result<(), AllocError>
    ensures { OnOk result (text.new.items ≡ text.old.items ++ json_string octets.now) }
{
    text.extend_from_slice(b"\"")?;
    push_octets(text, octets)?;
    text.extend_from_slice(b"\"")
}

// Appends a comma and a string.
fn push_next_string(text: &mut Vec<u8>, octets: &[u8]) -> Result<(), AllocError>
    ensures { OnOk result (text.new.items ≡ text.old.items ++ (44 ∷ json_string octets.now)) }
{
    text.extend_from_slice(b",")?;
    push_string(text, octets)
}

// Appends strings, with a comma in front of each.
fn push_next_strings(text: &mut Vec<u8>, rows: &[Bytes]) -> Result<(), AllocError>
    ensures { OnOk result
        (text.new.items ≡ text.old.items ++ flat_map (λ row. 44 ∷ json_string row) rows.now) }
{
    for row in rows {
        push_next_string(text, row.as_slice())?;
    }
    Ok(())
}

/// Appends an array of strings.
pub fn push_strings(text: &mut Vec<u8>, rows: &[Bytes]) -> Result<(), AllocError>
    ensures { OnOk result (text.new.items ≡ text.old.items ++ json_array json_string rows.now) }
{
    text.extend_from_slice(b"[")?;
    if let Some((first, others)) = rows.split_first() {
        push_string(text, first.as_slice())?;
        push_next_strings(text, others)?;
    }
    text.extend_from_slice(b"]")
}

/// Appends an array of values, of which each comes with a comma in front.
pub fn push_array(text: &mut Vec<u8>, values: &[u8]) -> Result<(), AllocError>
    ensures { OnOk result
        (text.new.items ≡ text.old.items ++ (91 ∷ (drop 1 values.now ++ 93 ∷ []))) }
{
    text.extend_from_slice(b"[")?;
    if let Some((_, values)) = values.split_first() {
        text.extend_from_slice(values)?;
    }
    text.extend_from_slice(b"]")
}
