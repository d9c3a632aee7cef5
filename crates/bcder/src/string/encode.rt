//! Strings that are written.

ghost use Rattle.std.specs.Prelude.{◌≡◌};
ghost use Rattle.bcder.specs.bcder_tree.Tags.{IsTag};

use crate::string::CharSet;
use crate::string::string::RestrictedString;
use bcder_octets::bcder_source::Tag;
use bcder_octets::{OctetSliceEncoder, OctetString, OctetStringEncoder};

/// Strings that are written, as octet strings are with another tag (X.690 8.23).
impl<L: CharSet> RestrictedString<L> {
    /// The string as a value, with the tag of its kind.
    pub fn encode(self) -> OctetStringEncoder
        ensures tag { result.tag ≡ L.type_tag }
        ensures string { result.string ≡ self }
    {
        self.into_octet_string().encode_as(L::tag())
    }

    /// Encodes the string under an implicit tag (X.690 8.14).
    pub fn encode_as(self, tag: Tag) -> OctetStringEncoder
        requires { IsTag tag }
        ensures tag { result.tag ≡ tag }
        ensures string { result.string ≡ self }
    {
        self.into_octet_string().encode_as(tag)
    }

    /// The string as a value, which is lent.
    pub fn encode_ref(&self) -> OctetSliceEncoder<&[u8]>
        ensures tag { result.tag ≡ L.type_tag }
        ensures octets { result.octets.now ≡ self.now }
    {
        OctetString::encode_slice_as(self.as_octets(), L::tag())
    }

    /// Encodes the borrowed string under an implicit tag (X.690 8.14).
    pub fn encode_ref_as(&self, tag: Tag) -> OctetSliceEncoder<&[u8]>
        requires { IsTag tag }
        ensures tag { result.tag ≡ tag }
        ensures octets { result.octets.now ≡ self.now }
    {
        OctetString::encode_slice_as(self.as_octets(), tag)
    }
}
