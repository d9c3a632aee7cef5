//! Identifiers of keys.

ghost use Rattle.std.specs.Prelude.{◌≡◌, Some, SomeIff, IfErr, OnErr, true};
ghost use Rattle.certs_key.specs.bcder_tree.Strings.{octet_string_tag};
ghost use Rattle.certs_key.specs.bcder_tree.Tags.{IsTag};
ghost use Rattle.certs_key.specs.bcder_source.Errors.{OnlyContent};
ghost use Rattle.certs_key.specs.bcder_content.Either.{SameContent, left_of};
ghost use Rattle.certs_key.specs.bcder_content.Exact.{ReadsAs};
ghost use Rattle.certs_key.specs.bcder_content.Here.{here};
ghost use Rattle.certs_key.specs.bcder_content.Memory.{OnMemory};
ghost use Rattle.certs_key.specs.bcder_content.Tagged.{ReadsTagged};
ghost use Rattle.certs_key.specs.bcder_octets.Parts.{IsWhole};
ghost use Rattle.certs_key.specs.bcder_octets.Wants.{WantsNext, WantsString};
ghost use Rattle.certs_key.specs.certs_basics.Basics.{IsKeyIdentifier, IsTwentyLong};
ghost use Rattle.certs_key.specs.certs_basics.Names.{hex_text};

use crate::algorithm::decode::{Constructed, Content, ContentError, DecodeError, Source};
use crate::algorithm::string::OctetSliceEncoder;
use crate::algorithm::{OctetString, Tag};
use std::alloc::Global;
use std::marker::Model;
use std::{fmt, str};

// How many octets an identifier has.
const LEN: usize = 20;

/// The identifier of a key: 20 octets, in the RPKI the SHA-1 digest of the key's bits (RFC 6487 4.8.2). Contracts see the
/// octets.
///
/// Equality, order and hash are those of the octets.
#[derive(Clone, Copy, Debug, PartialEq, Eq, PartialOrd, Ord, Hash)]
pub struct KeyIdentifier([u8; LEN]);

impl Model for KeyIdentifier {
    ghost use Rattle.std.specs.Prelude.{ℕ, List};
    ghost use Rattle.certs_key.specs.certs_basics.Basics.{IsTwentyLong};

    ghost Value = { List ℕ };

    ghost view = { λ a. a.0 };

    ghost invariant = { λ a. IsTwentyLong a.0 };

    ghost inverse = { λ octets. record { 0 = octets } };
}

impl KeyIdentifier {
    // The identifier that a digest is.
    pub(crate) fn of_digest(digest: [u8; LEN]) -> KeyIdentifier
        ensures { result ≡ digest }
    {
        KeyIdentifier(digest)
    }

    /// The identifier with these octets, if they are 20.
    pub fn from_slice(octets: &[u8]) -> Option<KeyIdentifier>
        ensures { SomeIff result (IsTwentyLong octets.now) octets.now }
    {
        match <[u8; LEN]>::try_from(octets) {
            Ok(octets) => Some(KeyIdentifier(octets)),
            Err(_) => None,
        }
    }

    /// The 20 octets.
    pub fn as_slice(&self) -> &[u8]
        ensures octets { result.now ≡ self.now }
        ensures lawful { IsTwentyLong self.now }
    {
        &self.0
    }
}

// The octets, which lie in one piece.
fn octets_of(string: &OctetString) -> &[u8]
    ensures { result.now ≡ string.now }
{
    string.as_slice().unwrap_or(&[])
}

// The refusal of a content whose octets are no identifier; the content is failed from now on.
fn no_identifier<S: Source>(content: &mut Content<'_, S>) -> DecodeError<S::Error>
    ensures same { SameContent content.old content.new }
    ensures failed { (left_of S.rest content.new).failed ≡ true }
    ensures error { OnlyContent result (Unit {0}) }
{
    content.fail();
    (*content).content_err(ContentError::from_static("no key identifier"))
}

/// Identifiers that are read.
impl KeyIdentifier {
    /// The next value, an OCTET STRING of 20 octets (RFC 6487 4.8.2); any other is refused. Memory is wanted only as by
    /// `OctetString::take_from`, where one is next.
    pub fn take_from<S: Source>(
        alloc: Global,
        cons: &mut Constructed<S>,
    ) -> Result<KeyIdentifier, DecodeError<S::Error>>
        ensures reads { ReadsAs (λ v. v)
            (IsKeyIdentifier (here S.rest cons.old).mode octet_string_tag) (here S.rest cons.old)
            result (here S.rest cons.new) }
        ensures failed { OnErr result ((here S.rest cons.new).failed ≡ true) }
        ensures memory { IfErr result
            (λ e. OnMemory e (WantsNext IsWhole octet_string_tag (here S.rest cons.old))) }
    {
        cons.take_value_if(
            Tag::OCTET_STRING,
            |content|
                ensures reads { ReadsTagged S.rest (λ v. v) IsKeyIdentifier
                    content.old result content.new }
                ensures memory { IfErr result
                    (λ e. OnMemory e (WantsString IsWhole S.rest content.old)) }
            { KeyIdentifier::from_content(alloc, content) },
        )
    }

    /// The identifier whose content that is, whatever its tag: for implicit tags (X.690 8.14), as in an authority key
    /// identifier (RFC 6487 4.8.3). Where it is refused, the content is failed. Memory is wanted only as by
    /// `OctetString::from_content`, where it is one's content.
    pub fn from_content<S: Source>(
        alloc: Global,
        content: &mut Content<'_, S>,
    ) -> Result<KeyIdentifier, DecodeError<S::Error>>
        ensures reads { ReadsTagged S.rest (λ v. v) IsKeyIdentifier content.old result content.new }
        ensures failed { OnErr result ((left_of S.rest content.new).failed ≡ true) }
        ensures memory { IfErr result (λ e. OnMemory e (WantsString IsWhole S.rest content.old)) }
    {
        let octets = OctetString::from_content(alloc, content)?;
        match KeyIdentifier::from_slice(octets_of(&octets)) {
            Some(identifier) => Ok(identifier),
            None => Err(no_identifier(content)),
        }
    }
}

/// Identifiers that are written.
impl KeyIdentifier {
    /// The identifier as an OCTET STRING.
    pub fn encode_ref(&self) -> OctetSliceEncoder<&[u8]>
        ensures tag { result.tag ≡ octet_string_tag }
        ensures octets { result.octets.now ≡ self.now }
    {
        OctetString::encode_slice(self.as_slice())
    }

    /// Encodes the identifier under an implicit tag (X.690 8.14).
    pub fn encode_ref_as(&self, tag: Tag) -> OctetSliceEncoder<&[u8]>
        requires { IsTag tag }
        ensures tag { result.tag ≡ tag }
        ensures octets { result.octets.now ≡ self.now }
    {
        OctetString::encode_slice_as(self.as_slice(), tag)
    }
}

/// The octets in 40 lower-case hexadecimal digits.
impl fmt::Display for KeyIdentifier {
    ghost output = { λ octets. Some (hex_text octets) };

    fn fmt<W: fmt::Write>(&self, f: &mut fmt::Formatter<W>) -> fmt::Result {
        let mut digits = [0u8; 2 * LEN];
        let Ok(()) = hex::encode_to_slice(self.as_slice(), &mut digits) else {
            unreachable!();
        };
        let Ok(text) = str::from_utf8(&digits) else {
            unreachable!();
        };
        f.write_str(text)
    }
}
