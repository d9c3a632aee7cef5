//! What is signed of a revocation list, written (RFC 5280 5.1.2, RFC 6487 5).

ghost use Rattle.std.specs.Prelude.{◌≡◌, ◌<◌, ◌^◌, ℕ, List, []};
ghost use Rattle.certs_crl.specs.bcder_tree.declared.mode.Mode.{Mode as ModeValue};
ghost use Rattle.certs_crl.specs.bcder_tree.declared.mode.Mode.TheVariants.{Der};
ghost use Rattle.certs_x509.specs.bcder_values.Writable.{Writable};
ghost use Rattle.certs_crl.specs.bcder_tree.Tags.{integer_tag};
ghost use Rattle.certs_crl.specs.bcder_tree.Tree.{primitive};
ghost use Rattle.certs_crl.specs.certs_basics.Basics.{IsTwentyLong};
ghost use Rattle.certs_crl.specs.certs_basics.Forms.{WritesTime};
ghost use Rattle.certs_crl.specs.certs_basics.Identifiers as id;
ghost use Rattle.certs_crl.specs.Fields.{as_list};
ghost use Rattle.certs_crl.specs.Written.{WritesCrlNumber, WritesExtension, WritesInDer, WritesKey, WritesListExtensions, WritesTbsList};
ghost use Rattle.certs_name.specs.Named.{IsNamed};

use crate::tbs::TbsCertList;
use bcder::encode::{self, PrimitiveContent, Values};
use bcder::string::{OctetSliceEncoder, WrappingOctetStringEncoder};
use bcder::{ConstOid, Mode, Tag};
use certs_basics::time::text::VariedTime;
use certs_key::algorithm::{AlgorithmIdentifier, SignatureAlgorithm};
use certs_name::oid::{CE_AUTHORITY_KEY_IDENTIFIER, CE_CRL_NUMBER};
use certs_name::{Name, Serial};
use certs_x509::revoked::RevokedCertificates;
use certs_x509::revoked::revoked::{EntriesValues, RevokedValues};
use certs_x509::signed::KeyIdentifier;

// The number that stands for version 2 (RFC 5280 5.1.2.1).
const VERSION: u8 = 1;

/// What is written of an extension that isn't critical: its identifier, and a string around its value, which is in DER.
type ExtensionValues<V> = encode::Constructed<
    (encode::Primitive<ConstOid>, WrappingOctetStringEncoder<V>),
>;

/// What is written of the identifier of the issuer's key.
type KeyValues<'a> = ExtensionValues<encode::Constructed<OctetSliceEncoder<&'a [u8]>>>;

/// What is written of the list's number.
type NumberValues = ExtensionValues<encode::Primitive<Serial>>;

/// What is written of both extensions.
pub type ListExtensionValues<'a> = encode::Constructed<
    encode::Constructed<(KeyValues<'a>, NumberValues)>,
>;

// The encoders of a list's fields, but for the entries.
type Parts<'a> = (
    encode::Primitive<u8>,
    AlgorithmIdentifier,
    &'a Name,
    VariedTime,
    VariedTime,
    ListExtensionValues<'a>,
);

/// A SEQUENCE of a list's fields, with that for the entries.
type FieldValues<'a, R> = encode::Constructed<
    (
        encode::Primitive<u8>,
        AlgorithmIdentifier,
        &'a Name,
        VariedTime,
        VariedTime,
        R,
        ListExtensionValues<'a>,
    ),
>;

/// What is written of what is signed of a list: a SEQUENCE of its fields.
pub type TbsCertListValues<'a> = FieldValues<'a, RevokedValues<'a>>;

/// What is written of those fields with the entries by what they say.
pub(crate) type DerValues<'a> = FieldValues<'a, EntriesValues<'a>>;

// The identifier of the issuer's key (RFC 5280 5.2.1).
fn key_extension<'a>(key: &'a KeyIdentifier) -> KeyValues<'a>
    ensures writes { (m : ModeValue) (text : List ℕ)
        → ⟦<KeyValues<'a> as Values>⟧.writes result m text
        → WritesExtension m id.authority_key_identifier (WritesKey key.now) text }
    ensures whole { (m : ModeValue) (text : List ℕ)
        → WritesExtension m id.authority_key_identifier (WritesKey key.now) text
        → ⟦<KeyValues<'a> as Values>⟧.writes result m text }
    ensures long { IsTwentyLong key.now }
{
    let octets = key.as_slice();
    let oid = CE_AUTHORITY_KEY_IDENTIFIER.encode();
    encode::Constructed {
        tag: Tag::SEQUENCE,
        inner: (
            oid,
            WrappingOctetStringEncoder {
                mode: Mode::Der,
                values: encode::Constructed {
                    tag: Tag::SEQUENCE,
                    inner: OctetSliceEncoder {
                        tag: Tag::CTX_0,
                        octets,
                    },
                },
                tag: Tag::OCTET_STRING,
            },
        ),
    }
}

// The number, which is below 2^160.
fn number_of(number: Serial) -> Serial
    ensures same { result ≡ number }
    ensures small { number < 2 ^ 160 }
{
    number
}

// The list's number (RFC 5280 5.2.3).
fn number_extension(number: Serial) -> NumberValues
    ensures writes { (m : ModeValue) (text : List ℕ)
        → ⟦<NumberValues as Values>⟧.writes result m text
        → WritesExtension m id.crl_number (WritesCrlNumber number) text }
    ensures whole { (m : ModeValue) (text : List ℕ)
        → WritesExtension m id.crl_number (WritesCrlNumber number) text
        → ⟦<NumberValues as Values>⟧.writes result m text }
{
    let oid = CE_CRL_NUMBER.encode();
    let value = number_of(number).encode();
    encode::Constructed {
        tag: Tag::SEQUENCE,
        inner: (
            oid,
            WrappingOctetStringEncoder {
                mode: Mode::Der,
                values: value,
                tag: Tag::OCTET_STRING,
            },
        ),
    }
}

// The identifier of the issuer's key, and the list's number.
fn extensions<'a>(key: &'a KeyIdentifier, number: Serial) -> ListExtensionValues<'a>
    ensures writes { (m : ModeValue) (text : List ℕ)
        → ⟦<ListExtensionValues<'a> as Values>⟧.writes result m text
        → WritesListExtensions key.now number m text }
    ensures whole { (m : ModeValue) (text : List ℕ)
        → WritesListExtensions key.now number m text
        → ⟦<ListExtensionValues<'a> as Values>⟧.writes result m text }
    ensures long { IsTwentyLong key.now }
{
    let first = key_extension(key);
    let second = number_extension(number);
    encode::Constructed {
        tag: Tag::CTX_0,
        inner: encode::Constructed {
            tag: Tag::SEQUENCE,
            inner: (first, second),
        },
    }
}

// The name, which is one.
fn name_of(name: &Name) -> &Name
    ensures same { result.now ≡ name.now }
    ensures named { IsNamed name.now }
{
    let _octets = name.as_slice();
    name
}

impl TbsCertList<RevokedCertificates> {
    // The encoders of its fields but for the entries, in their order.
    fn parts<'a>(&'a self) -> Parts<'a>
        ensures version_tag { result.0.tag ≡ integer_tag }
        ensures version { result.0.content ≡ 1 }
        ensures signature { result.1
            ≡ record { kind = id.sha256_with_rsa; has_null = self.now.has_null } }
        ensures issuer { result.2.now ≡ self.now.issuer }
        ensures named { IsNamed self.now.issuer }
        ensures this_update { WritesTime self.now.this_update
            (primitive result.3.tag result.3.content.0) }
        ensures next_update { WritesTime self.now.next_update
            (primitive result.4.tag result.4.content.0) }
        ensures writes { (m : ModeValue) (text : List ℕ)
            → ⟦<ListExtensionValues<'a> as Values>⟧.writes result.5 m text
            → WritesListExtensions self.now.authority_key_identifier self.now.number m text }
        ensures whole { (m : ModeValue) (text : List ℕ)
            → WritesListExtensions self.now.authority_key_identifier self.now.number m text
            → ⟦<ListExtensionValues<'a> as Values>⟧.writes result.5 m text }
        ensures long { IsTwentyLong self.now.authority_key_identifier }
    {
        let version = VERSION.encode();
        let signature = self.signature.x509_encode();
        let issuer = name_of(&self.issuer);
        let this_update = self.this_update.encode_varied();
        let next_update = self.next_update.encode_varied();
        let extensions = extensions(&self.authority_key_id, self.crl_number);
        (
            version,
            signature,
            issuer,
            this_update,
            next_update,
            extensions,
        )
    }

    /// What is written of it: its fields in their order, and its two extensions, the issuer's key first, not critical
    /// (RFC 5280 5.1.2, RFC 6487 5). The name and the entries are written as they are kept.
    ///
    /// `CerUnsupported` in CER, and where the name or the entries stand in another mode; `TooLong` where a content has more
    /// than 2^32 - 1 octets. Contracts don't see in which mode entries stand.
    pub fn encode_ref<'a>(&'a self) -> TbsCertListValues<'a>
        ensures writes { (m : ModeValue) (text : List ℕ)
            → ⟦<TbsCertListValues<'a> as Values>⟧.writes result m text
            → ∥ WritesTbsList (as_list self.now) m text ∥₁ }
        ensures alone { self.now.revoked ≡ [] → (text : List ℕ)
            → WritesTbsList (as_list self.now) Der text
            → Writable (⟦<TbsCertListValues<'a> as Values>⟧.writes result Der) }
    {
        let (version, signature, issuer, this_update, next_update, extensions) = self.parts();
        let revoked = self.revoked_certs.encode_ref();
        encode::Constructed {
            tag: Tag::SEQUENCE,
            inner: (
                version,
                signature,
                issuer,
                this_update,
                next_update,
                revoked,
                extensions,
            ),
        }
    }

    // What is written of it in DER, with the entries by what they say.
    pub(crate) fn encode_in_der<'a>(&'a self) -> DerValues<'a>
        ensures writes { (text : List ℕ)
            → ⟦<DerValues<'a> as Values>⟧.writes result Der text
            → WritesInDer (as_list self.now) text }
        ensures whole { (text : List ℕ)
            → WritesInDer (as_list self.now) text
            → ⟦<DerValues<'a> as Values>⟧.writes result Der text }
    {
        let (version, signature, issuer, this_update, next_update, extensions) = self.parts();
        let revoked = self.revoked_certs.encode_entries();
        encode::Constructed {
            tag: Tag::SEQUENCE,
            inner: (
                version,
                signature,
                issuer,
                this_update,
                next_update,
                revoked,
                extensions,
            ),
        }
    }
}
