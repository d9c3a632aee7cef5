//! The sets of the restricted character strings.
ghost use Rattle.std.specs.Prelude.{encode_utf8, chars};
ghost use Rattle.std.proofs.Common.{rules};
ghost use Rattle.bcder.specs.bcder_tree.Tags.{universal, ia5_string_tag, printable_string_tag, utf8_string_tag};
ghost use Rattle.bcder.specs.StringLaws.{alone_some, alone_one, alone_told, utf8_some, utf8_one, utf8_told, numeric_ascii, printable_ascii, ia5_ascii};
ghost use Rattle.bcder.specs.Sets.{IsUnicode, IsNumeric, IsPrintable, IsIa5, alone};

use crate::string::octet_set::{OctetSet, next_of, text_of};
use crate::string::utf8::first_char;
use crate::string::{CharSet, CharSetError};
use bcder_octets::bcder_source::Tag;

/// The characters of a UTF8String, in UTF-8 (X.680 41.16, X.690 8.23.10, RFC 3629).
#[derive(Clone, Copy, Debug, PartialEq, Eq)]
pub struct Utf8CharSet;

impl CharSet for Utf8CharSet {
    ghost type_tag = { utf8_string_tag };

    ghost has = { IsUnicode };

    ghost spell = { encode_utf8 };

    ghost chars_of = { chars };

    fn tag() -> Tag {
        Tag::UTF8_STRING
    }

    fn next_char(octets: &[u8]) -> Result<Option<(char, &[u8])>, CharSetError> {
        if octets.is_empty() {
            return Ok(None);
        }
        let Some((first, len)) = first_char(octets) else {
            return Err(CharSetError);
        };
        Ok(Some((first, &octets[len..])))
    }

    fn from_str(text: &str) -> Result<&[u8], CharSetError> {
        Ok(text.as_bytes())
    }

    ghost is_tag = { Prim.search rules };

    ghost told = { utf8_told };

    ghost some_octet = { utf8_some };

    ghost one_start = { utf8_one };
}

/// The characters of a NumericString: digits and space (X.680 41.2).
#[derive(Clone, Copy, Debug, PartialEq, Eq)]
pub struct NumericCharSet;

impl OctetSet for NumericCharSet {
    ghost member = { IsNumeric };

    fn contains(octet: u8) -> bool {
        octet.is_ascii_digit() || octet == b' '
    }

    ghost is_ascii = { numeric_ascii };
}

impl CharSet for NumericCharSet {
    ghost type_tag = { universal 18 };

    ghost has = { IsNumeric };

    ghost spell = { alone };

    ghost chars_of = { λ octets. octets };

    fn tag() -> Tag {
        Tag::NUMERIC_STRING
    }

    fn next_char(octets: &[u8]) -> Result<Option<(char, &[u8])>, CharSetError> {
        next_of::<NumericCharSet>(octets)
    }

    fn from_str(text: &str) -> Result<&[u8], CharSetError> {
        text_of::<NumericCharSet>(text)
    }

    ghost is_tag = { Prim.search rules };

    ghost told = { alone_told };

    ghost some_octet = { alone_some IsNumeric };

    ghost one_start = { alone_one };
}

/// The characters of a PrintableString: letters, digits, space and `'()+,-./:=?` (X.680 41.4).
#[derive(Clone, Copy, Debug, PartialEq, Eq)]
pub struct PrintableCharSet;

impl OctetSet for PrintableCharSet {
    ghost member = { IsPrintable };

    fn contains(octet: u8) -> bool {
        octet.is_ascii_alphanumeric() || b" '()+,-./:=?".contains(&octet)
    }

    ghost is_ascii = { printable_ascii };
}

impl CharSet for PrintableCharSet {
    ghost type_tag = { printable_string_tag };

    ghost has = { IsPrintable };

    ghost spell = { alone };

    ghost chars_of = { λ octets. octets };

    fn tag() -> Tag {
        Tag::PRINTABLE_STRING
    }

    fn next_char(octets: &[u8]) -> Result<Option<(char, &[u8])>, CharSetError> {
        next_of::<PrintableCharSet>(octets)
    }

    fn from_str(text: &str) -> Result<&[u8], CharSetError> {
        text_of::<PrintableCharSet>(text)
    }

    ghost is_tag = { Prim.search rules };

    ghost told = { alone_told };

    ghost some_octet = { alone_some IsPrintable };

    ghost one_start = { alone_one };
}

/// The characters of an IA5String: 00 to 7F (X.680 41.1, table 8).
#[derive(Clone, Copy, Debug, PartialEq, Eq)]
pub struct Ia5CharSet;

impl OctetSet for Ia5CharSet {
    ghost member = { IsIa5 };

    fn contains(octet: u8) -> bool {
        octet < 128
    }

    ghost is_ascii = { ia5_ascii };
}

impl CharSet for Ia5CharSet {
    ghost type_tag = { ia5_string_tag };

    ghost has = { IsIa5 };

    ghost spell = { alone };

    ghost chars_of = { λ octets. octets };

    fn tag() -> Tag {
        Tag::IA5_STRING
    }

    fn next_char(octets: &[u8]) -> Result<Option<(char, &[u8])>, CharSetError> {
        next_of::<Ia5CharSet>(octets)
    }

    fn from_str(text: &str) -> Result<&[u8], CharSetError> {
        text_of::<Ia5CharSet>(text)
    }

    ghost is_tag = { Prim.search rules };

    ghost told = { alone_told };

    ghost some_octet = { alone_some IsIa5 };

    ghost one_start = { alone_one };
}
