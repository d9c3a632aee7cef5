//! Bit strings, octet strings, and restricted character strings with their character sets: UTF8String, NumericString,
//! PrintableString, IA5String (X.680 41, X.690 8.23).
//!
//! A restricted string is an octet string under the tag of its kind, whose octets are a text of the kind's
//! characters. In BER it is primitive, or in segments that are OCTET STRINGs; in CER it is primitive to 1000 octets,
//! else in segments of 1000; in DER it is primitive. Contracts see its octets, and so do equality, order and hash.
//!
//! The sets of characters stand here, too: how octets spell the characters of each (`char_set`, `sets`).
//!
//! What differs from the Rust crate: `next_char` and `check` of a set read a slice, and no iterator of octets;
//! `next_char` answers what comes after the character, too; a set's `from_str` lends the octets of the text. What
//! takes memory is given an allocator and answers a `Result`; `from_str` and `from_string` of a string refuse with
//! `RestrictedStringError`, which has a cause for lack of memory; in place of `Deref` there are `as_octet_string`,
//! `into_octet_string` and the calls of an octet string by name; `chars` in place of an `IntoIterator`.

pub mod char_set;
pub mod chars;
pub mod chars_laws;
pub mod encode;
pub mod error;
pub mod laws;
mod octet_set;
mod reading;
pub mod sets;
pub mod string;
mod utf8;

pub use bcder_octets::bits::{BitSlice, BitSliceEncoder, BitString, BitStringIter};
pub use bcder_octets::{
    OctetSliceEncoder, OctetString, OctetStringEncoder, OctetStringIter, OctetStringOctets,
    OctetStringSource, WrappingOctetStringEncoder,
};
pub use char_set::CharSet;
pub use chars::RestrictedStringChars;
pub use error::{CharSetError, RestrictedStringError};
pub use sets::{Ia5CharSet, NumericCharSet, PrintableCharSet, Utf8CharSet};
pub use string::{Ia5String, NumericString, PrintableString, RestrictedString, Utf8String};
