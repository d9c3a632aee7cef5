//! Tags (X.690 8.1.2).
ghost use Rattle.std.specs.Prelude.{◌≡◌, ◌==◌, ◌&&◌, ◌↔◌, ◌<◌, ◌≤◌, ℕ, Bool, List, length, take, IsTrue, OnOk};
ghost use Rattle.std.proofs.Common.{rules};
ghost use Rattle.std.specs.Io.KnownBytes.{Appends};
ghost use Rattle.bcder_tree.specs.Octets.{form_bit, IsIdentifier};

use std::marker::Model;
use std::{fmt, io};

// The classes, by the numbers that they have in bits 8 and 7 of a first identifier octet (X.690 8.1.2.2).
const UNIVERSAL: u8 = 0;

const APPLICATION: u8 = 1;

const CONTEXT: u8 = 2;

const PRIVATE: u8 = 3;

/// A tag: a class and a number up to 2,097,151 (X.680 clause 8, X.690 8.1.2.2).
#[derive(Clone, Copy, Eq, Hash)]
pub struct Tag {
    class: u8,
    number: u32,
}

impl Model for Tag {
    ghost use Rattle.bcder_tree.specs.Tags.{TagValue};
    ghost use Rattle.bcder_tree.specs.TagLimits.{IsToldTag};

    ghost Value = { TagValue };

    ghost view = { λ a. record { class = a.class; number = a.number } };

    ghost invariant = { λ a. IsToldTag (record { class = a.class; number = a.number }) };

    ghost inverse = { λ t. record { class = t.class; number = t.number } };
}

// The form bit of a first octet.
fn form_octet(constructed: bool) -> u8
    ensures { result ≡ form_bit constructed }
{
    if constructed { 32 } else { 0 }
}

impl PartialEq for Tag {
    ghost eq = { λ a b. (a.class == b.class) && (a.number == b.number) };

    ghost laws = { Prim.search rules };

    fn eq(&self, other: &Tag) -> bool {
        self.class == other.class && self.number == other.number
    }
}

/// The universal tags (X.680 8.4, table 1), and context-specific ones.
impl Tag {
    /// End-of-contents (X.690 8.1.5); no value has this tag.
    pub const END_OF_VALUE: Tag = Tag {
        class: UNIVERSAL,
        number: 0,
    };

    /// BOOLEAN.
    pub const BOOLEAN: Tag = Tag {
        class: UNIVERSAL,
        number: 1,
    };

    /// INTEGER.
    pub const INTEGER: Tag = Tag {
        class: UNIVERSAL,
        number: 2,
    };

    /// BIT STRING.
    pub const BIT_STRING: Tag = Tag {
        class: UNIVERSAL,
        number: 3,
    };

    /// OCTET STRING.
    pub const OCTET_STRING: Tag = Tag {
        class: UNIVERSAL,
        number: 4,
    };

    /// NULL.
    pub const NULL: Tag = Tag {
        class: UNIVERSAL,
        number: 5,
    };

    /// OBJECT IDENTIFIER.
    pub const OID: Tag = Tag {
        class: UNIVERSAL,
        number: 6,
    };

    /// ObjectDescriptor.
    pub const OBJECT_DESCRIPTOR: Tag = Tag {
        class: UNIVERSAL,
        number: 7,
    };

    /// EXTERNAL.
    pub const EXTERNAL: Tag = Tag {
        class: UNIVERSAL,
        number: 8,
    };

    /// REAL.
    pub const REAL: Tag = Tag {
        class: UNIVERSAL,
        number: 9,
    };

    /// ENUMERATED.
    pub const ENUMERATED: Tag = Tag {
        class: UNIVERSAL,
        number: 10,
    };

    /// EMBEDDED PDV.
    pub const EMBEDDED_PDV: Tag = Tag {
        class: UNIVERSAL,
        number: 11,
    };

    /// UTF8String.
    pub const UTF8_STRING: Tag = Tag {
        class: UNIVERSAL,
        number: 12,
    };

    /// RELATIVE-OID.
    pub const RELATIVE_OID: Tag = Tag {
        class: UNIVERSAL,
        number: 13,
    };

    /// TIME.
    pub const TIME: Tag = Tag {
        class: UNIVERSAL,
        number: 14,
    };

    /// SEQUENCE and SEQUENCE OF.
    pub const SEQUENCE: Tag = Tag {
        class: UNIVERSAL,
        number: 16,
    };

    /// SET and SET OF.
    pub const SET: Tag = Tag {
        class: UNIVERSAL,
        number: 17,
    };

    /// NumericString.
    pub const NUMERIC_STRING: Tag = Tag {
        class: UNIVERSAL,
        number: 18,
    };

    /// PrintableString.
    pub const PRINTABLE_STRING: Tag = Tag {
        class: UNIVERSAL,
        number: 19,
    };

    /// TeletexString.
    pub const TELETEX_STRING: Tag = Tag {
        class: UNIVERSAL,
        number: 20,
    };

    /// VideotexString.
    pub const VIDEOTEX_STRING: Tag = Tag {
        class: UNIVERSAL,
        number: 21,
    };

    /// IA5String.
    pub const IA5_STRING: Tag = Tag {
        class: UNIVERSAL,
        number: 22,
    };

    /// UTCTime.
    pub const UTC_TIME: Tag = Tag {
        class: UNIVERSAL,
        number: 23,
    };

    /// GeneralizedTime.
    pub const GENERALIZED_TIME: Tag = Tag {
        class: UNIVERSAL,
        number: 24,
    };

    /// GraphicString.
    pub const GRAPHIC_STRING: Tag = Tag {
        class: UNIVERSAL,
        number: 25,
    };

    /// VisibleString.
    pub const VISIBLE_STRING: Tag = Tag {
        class: UNIVERSAL,
        number: 26,
    };

    /// GeneralString.
    pub const GENERAL_STRING: Tag = Tag {
        class: UNIVERSAL,
        number: 27,
    };

    /// UniversalString.
    pub const UNIVERSAL_STRING: Tag = Tag {
        class: UNIVERSAL,
        number: 28,
    };

    /// CHARACTER STRING.
    pub const CHARACTER_STRING: Tag = Tag {
        class: UNIVERSAL,
        number: 29,
    };

    /// BMPString.
    pub const BMP_STRING: Tag = Tag {
        class: UNIVERSAL,
        number: 30,
    };

    /// DATE.
    pub const DATE: Tag = Tag {
        class: UNIVERSAL,
        number: 31,
    };

    /// TIME-OF-DAY.
    pub const TIME_OF_DAY: Tag = Tag {
        class: UNIVERSAL,
        number: 32,
    };

    /// DATE-TIME.
    pub const DATE_TIME: Tag = Tag {
        class: UNIVERSAL,
        number: 33,
    };

    /// DURATION.
    pub const DURATION: Tag = Tag {
        class: UNIVERSAL,
        number: 34,
    };

    /// OID-IRI.
    pub const OID_IRI: Tag = Tag {
        class: UNIVERSAL,
        number: 35,
    };

    /// RELATIVE-OID-IRI.
    pub const RELATIVE_OID_IRI: Tag = Tag {
        class: UNIVERSAL,
        number: 36,
    };

    /// The context-specific tag 0.
    pub const CTX_0: Tag = Tag {
        class: CONTEXT,
        number: 0,
    };

    /// The context-specific tag 1.
    pub const CTX_1: Tag = Tag {
        class: CONTEXT,
        number: 1,
    };

    /// The context-specific tag 2.
    pub const CTX_2: Tag = Tag {
        class: CONTEXT,
        number: 2,
    };

    /// The context-specific tag 3.
    pub const CTX_3: Tag = Tag {
        class: CONTEXT,
        number: 3,
    };

    /// The context-specific tag 4.
    pub const CTX_4: Tag = Tag {
        class: CONTEXT,
        number: 4,
    };

    /// The context-specific tag 5.
    pub const CTX_5: Tag = Tag {
        class: CONTEXT,
        number: 5,
    };

    /// The context-specific tag 6.
    pub const CTX_6: Tag = Tag {
        class: CONTEXT,
        number: 6,
    };
}

impl Tag {
    // The tag of a class, as its number in bits 8 and 7.
    pub(crate) fn new(class: u8, number: u32) -> Tag
        requires class { class < 4 }
        requires number { number ≤ 2097151 }
        ensures { result ≡ record { class = class; number = number } }
    {
        Tag { class, number }
    }

    /// The universal tag of a number.
    pub fn universal(number: u32) -> Tag
        requires { number ≤ 2097151 }
        ensures { result ≡ record { class = 0; number = number } }
    {
        Tag::new(UNIVERSAL, number)
    }

    /// The application tag of a number.
    pub fn application(number: u32) -> Tag
        requires { number ≤ 2097151 }
        ensures { result ≡ record { class = 1; number = number } }
    {
        Tag::new(APPLICATION, number)
    }

    /// The context-specific tag of a number.
    pub fn ctx(number: u32) -> Tag
        requires { number ≤ 2097151 }
        ensures { result ≡ record { class = 2; number = number } }
    {
        Tag::new(CONTEXT, number)
    }

    /// The private tag of a number.
    pub fn private(number: u32) -> Tag
        requires { number ≤ 2097151 }
        ensures { result ≡ record { class = 3; number = number } }
    {
        Tag::new(PRIVATE, number)
    }

    /// Whether the class is universal.
    pub fn is_universal(self) -> bool
        ensures { IsTrue result ↔ (self.class ≡ 0) }
    {
        self.class == UNIVERSAL
    }

    /// Whether the class is application.
    pub fn is_application(self) -> bool
        ensures { IsTrue result ↔ (self.class ≡ 1) }
    {
        self.class == APPLICATION
    }

    /// Whether the class is context-specific.
    pub fn is_context_specific(self) -> bool
        ensures { IsTrue result ↔ (self.class ≡ 2) }
    {
        self.class == CONTEXT
    }

    /// Whether the class is private.
    pub fn is_private(self) -> bool
        ensures { IsTrue result ↔ (self.class ≡ 3) }
    {
        self.class == PRIVATE
    }

    /// The number of the tag.
    pub fn number(self) -> u32
        ensures { result ≡ self.number }
    {
        self.number
    }

    /// How many identifier octets the tag has, one to four.
    pub fn encoded_len(self) -> usize
        ensures len { (constructed : Bool) (text : List ℕ) → IsIdentifier text constructed self
            → length text ≡ result }
        ensures bound { result ≤ 4 }
    {
        match self.number {
            0..31 => 1,
            31..128 => 2,
            128..16384 => 3,
            _ => 4,
        }
    }

    /// The identifier octets of a value with the tag, primitive or constructed (X.690 8.1.2): they stand in
    /// front of the four, and are so many.
    pub fn encoded(self, constructed: bool) -> ([u8; 4], usize)
        ensures identifier { IsIdentifier (take result.1 result.0) constructed self }
        ensures bound { result.1 ≤ 4 }
    {
        let first = self.class * 64 + form_octet(constructed);
        if self.number < 31 {
            return ([first + self.number as u8, 0, 0, 0], 1);
        }
        let first = first + 31;
        let last = (self.number % 128) as u8;
        if self.number < 128 {
            return ([first, last, 0, 0], 2);
        }
        let middle = (self.number / 128 % 128) as u8 + 128;
        if self.number < 16384 {
            return ([first, middle, last, 0], 3);
        }
        ([first, (self.number / 16384) as u8 + 128, middle, last], 4)
    }

    /// Writes the identifier octets of a value with the tag, primitive or constructed (X.690 8.1.2).
    pub fn write_encoded<W: io::Write>(self, constructed: bool, target: &mut W) -> io::Result<()>
        ensures { OnOk result
            ((text : List ℕ) × IsIdentifier text constructed self
            × Appends (W.contents target.old) (W.contents target.new) text) }
    {
        let (octets, count) = self.encoded(constructed);
        target.write_all(&octets[..count])
    }
}

/// Prints the class and the number in brackets, as ASN.1 writes a tag: `[UNIVERSAL 2]`,
/// `[APPLICATION 3]`, `[0]` for a context-specific one, `[PRIVATE 5]`.
impl fmt::Display for Tag {
    fn fmt<W: fmt::Write>(&self, f: &mut fmt::Formatter<W>) -> fmt::Result {
        let number = self.number;
        match self.class {
            UNIVERSAL => write!(f, "[UNIVERSAL {number}]"),
            APPLICATION => write!(f, "[APPLICATION {number}]"),
            CONTEXT => write!(f, "[{number}]"),
            _ => write!(f, "[PRIVATE {number}]"),
        }
    }
}

/// Prints as `Display` does, within `Tag(..)`.
impl fmt::Debug for Tag {
    fn fmt<W: fmt::Write>(&self, f: &mut fmt::Formatter<W>) -> fmt::Result {
        let tag = *self;
        write!(f, "Tag({tag})")
    }
}
