//! Identifiers of keys in extensions, written (RFC 6487 4.8.2, 4.8.3).

ghost use Rattle.std.specs.Prelude.{◌≡◌, false};
ghost use Rattle.certs.specs.certs_basics.Identifiers as id;
ghost use Rattle.certs.specs.bcder.Kinds.{octets_at};
ghost use Rattle.certs.specs.bcder_tree.Tags.{context};
ghost use Rattle.certs.specs.Values.{extended, extended_if, subject_key};

use crate::written::extension::{ExtensionEncoder, encode_extension};
use crate::written::parts::Sequence;
use certs_key::encode::{EncodeError, Values};
use certs_key::oid::{CE_AUTHORITY_KEY_IDENTIFIER, CE_SUBJECT_KEY_IDENTIFIER};
use certs_key::string::OctetSliceEncoder;
use certs_key::{KeyIdentifier, Mode, Tag};
use std::io::Write;
use std::marker::Model;

/// The identifier of the subject's key: an OCTET STRING (RFC 6487 4.8.2). Contracts see the octets.
#[derive(Drop)]
pub struct SubjectKeyValue(KeyIdentifier);

impl Model for SubjectKeyValue {
    ghost use Rattle.std.specs.Prelude.{ℕ, List};

    ghost Value = { List ℕ };

    ghost view = { λ v. v.0 };
}

impl SubjectKeyValue {
    // The octets.
    fn octets(&self) -> &[u8]
        ensures { result.now ≡ self.now }
    {
        self.0.as_slice()
    }
}

impl Values for SubjectKeyValue {
    ghost trees = { λ v. (subject_key v).trees };

    ghost writes = { λ v. (subject_key v).writes };

    fn encoded_len(&self, mode: Mode) -> Result<usize, EncodeError> {
        let octets = self.octets();
        let value = OctetSliceEncoder {
            tag: Tag::OCTET_STRING,
            octets,
        };
        value.encoded_len(mode)
    }

    fn write_encoded<W: Write>(&self, mode: Mode, target: &mut W) -> Result<(), EncodeError> {
        let octets = self.octets();
        let value = OctetSliceEncoder {
            tag: Tag::OCTET_STRING,
            octets,
        };
        value.write_encoded(mode, target)
    }

    ghost spelled = { λ v. (subject_key v).spelled };

    ghost one_text = { λ v. (subject_key v).one_text };
}

/// The extension with the identifier of the subject's key, which isn't critical (RFC 6487 4.8.2).
pub fn subject_key_extension(identifier: KeyIdentifier) -> ExtensionEncoder<SubjectKeyValue>
    ensures { result ≡ extended id.subject_key_identifier false identifier }
{
    encode_extension(
        CE_SUBJECT_KEY_IDENTIFIER,
        false,
        SubjectKeyValue(identifier),
    )
}

// An identifier under the tag [0].
#[derive(Drop)]
struct TaggedKey(KeyIdentifier);

impl Values for TaggedKey {
    ghost trees = { λ v. (octets_at (context 0)).trees v.0 };

    ghost writes = { λ v. (octets_at (context 0)).writes v.0 };

    fn encoded_len(&self, mode: Mode) -> Result<usize, EncodeError> {
        let octets = self.0.as_slice();
        let value = OctetSliceEncoder {
            tag: Tag::CTX_0,
            octets,
        };
        value.encoded_len(mode)
    }

    fn write_encoded<W: Write>(&self, mode: Mode, target: &mut W) -> Result<(), EncodeError> {
        let octets = self.0.as_slice();
        let value = OctetSliceEncoder {
            tag: Tag::CTX_0,
            octets,
        };
        value.write_encoded(mode, target)
    }

    ghost spelled = { λ v. (octets_at (context 0)).spelled v.0 };

    ghost one_text = { λ v. (octets_at (context 0)).one_text v.0 };
}

/// The identifier of the issuer's key: `SEQUENCE { keyIdentifier [0] IMPLICIT OCTET STRING }` (RFC
/// 6487 4.8.3). Contracts see the octets.
#[derive(Drop)]
pub struct AuthorityKeyValue(Sequence<TaggedKey>);

impl Model for AuthorityKeyValue {
    ghost use Rattle.std.specs.Prelude.{ℕ, List};

    ghost Value = { List ℕ };

    ghost view = { λ v. v.0.0.0 };
}

impl Values for AuthorityKeyValue {
    ghost use Rattle.certs.specs.Values.{authority_key};

    ghost trees = { λ v. (authority_key v).trees };

    ghost writes = { λ v. (authority_key v).writes };

    fn encoded_len(&self, mode: Mode) -> Result<usize, EncodeError> {
        self.0.encoded_len(mode)
    }

    fn write_encoded<W: Write>(&self, mode: Mode, target: &mut W) -> Result<(), EncodeError> {
        self.0.write_encoded(mode, target)
    }

    ghost spelled = { λ v. (authority_key v).spelled };

    ghost one_text = { λ v. (authority_key v).one_text };
}

/// The extension with the identifier of the issuer's key, if there is one; it isn't critical (RFC
/// 6487 4.8.3, RFC 5280 5.2.1).
pub fn authority_key_extension(
    identifier: Option<KeyIdentifier>,
) -> Option<ExtensionEncoder<AuthorityKeyValue>>
    ensures { result ≡ extended_if id.authority_key_identifier false identifier }
{
    match identifier {
        Some(identifier) => Some(encode_extension(
            CE_AUTHORITY_KEY_IDENTIFIER,
            false,
            AuthorityKeyValue(Sequence(TaggedKey(identifier))),
        )),
        None => None,
    }
}
