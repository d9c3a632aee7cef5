//! Laws of the codec, by the part that they are of: each is the contract of a function that does nothing.
//!
//! | Module | Has |
//! |---|---|
//! | [`tree`] | octets have one tree in front at most; a spelling in CER or DER is one in BER, and a tree has one at most there |
//! | [`source`] | what is read stood in front of what might be read; slices are read as sources are |
//! | [`content`] | one value at most is next; the values to the end of a content are one list |
//! | [`values`] | what is written is read again, and is the only spelling in CER and DER; what is refused for its form |
//! | [`number`] | each whole number has content octets, and octets are the content of one number at most |
//! | [`oid`] | octets are one list of components at most, and an OBJECT IDENTIFIER has one meaning |
//! | [`bits`] | padding is no bit |
//! | [`octets`] | what is written of a string, or around values, is one string in the mode, and a value is one string at most |
//! | [`chars`] | octets tell one list of characters at most, and which octets are texts |
//! | [`strings`] | what is written of a text is one string in the mode, and a value is one string at most |

pub use crate::oid::laws as oid;
pub use crate::string::{chars_laws as chars, laws as strings};
pub use bcder_number::laws as number;
pub use bcder_octets::bcder_content::laws as content;
pub use bcder_octets::bcder_source::laws as source;
pub use bcder_octets::bcder_tree::laws as tree;
pub use bcder_octets::bits::laws as bits;
pub use bcder_octets::{laws as octets, values_laws as values};
