//! One extension (RFC 5280 4.1).

ghost use Rattle.std.specs.Prelude.{◌≡◌, true, OnErr};
ghost use Rattle.certs_extension.specs.bcder_tree.Tags.{sequence_tag};
ghost use Rattle.certs_extension.specs.bcder_content.Exact.{ReadsOptAs};
ghost use Rattle.certs_extension.specs.bcder_content.Here.{here};
ghost use Rattle.certs_extension.specs.bcder_content.InMode.{ReadsFields};
ghost use Rattle.certs_extension.specs.Extensions.{IsExtension, IsExtensionBody};
ghost use Rattle.certs_extension.specs.Raw.{extension_fields, extension_value};

use certs_key::decode::{Constructed, DecodeError, Source};
use certs_key::{OctetString, Oid};
use std::alloc::Global;

/// An extension by the octets of its value:
/// `SEQUENCE { extnID OBJECT IDENTIFIER, critical BOOLEAN DEFAULT FALSE, extnValue OCTET STRING }` (RFC 5280 4.1).
#[derive(Drop)]
pub struct Extension {
    /// Which extension it is.
    pub kind: Oid,
    /// Whether it is critical.
    pub critical: bool,
    /// The octets of its value.
    pub octets: OctetString,
}

// The fields of an extension. FALSE may be written out.
fn take_fields<S: Source>(
    alloc: Global,
    cons: &mut Constructed<S>,
) -> Result<Extension, DecodeError<S::Error>>
    ensures { ReadsFields extension_fields IsExtensionBody
        (here S.rest cons.old) result (here S.rest cons.new) }
{
    let kind = Oid::take_from(alloc, cons)?;
    let critical = cons.take_opt_bool()?.unwrap_or(false);
    let octets = OctetString::take_from(alloc, cons)?;
    Ok(Extension {
        kind,
        critical,
        octets,
    })
}

// The octets of a string, which lie in one piece.
fn octets_of(string: &OctetString) -> &[u8]
    ensures { result.now ≡ string.now }
{
    string.as_slice().unwrap_or(&[])
}

impl Extension {
    /// The next extension, if a SEQUENCE is next; one that is no extension is refused. The octets of its value aren't
    /// read.
    pub fn take_opt_from<S: Source>(
        alloc: Global,
        cons: &mut Constructed<S>,
    ) -> Result<Option<Extension>, DecodeError<S::Error>>
        ensures reads { ReadsOptAs extension_value sequence_tag
            (IsExtension (here S.rest cons.old).mode)
            (here S.rest cons.old) result (here S.rest cons.new) }
        ensures failed { OnErr result ((here S.rest cons.new).failed ≡ true) }
    {
        cons.take_opt_sequence(
            |cons|
                ensures { ReadsFields extension_fields IsExtensionBody
                    (here S.rest cons.old) result (here S.rest cons.new) }
            { take_fields(alloc, cons) },
        )
    }

    /// The octets of the value.
    pub fn value(&self) -> &[u8]
        ensures { result.now ≡ self.now.octets }
    {
        octets_of(&self.octets)
    }
}
