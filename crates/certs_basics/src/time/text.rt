//! The two texts of a moment: UTCTime's and GeneralizedTime's (RFC 5280 4.1.2.5).

ghost use Rattle.std.specs.Prelude.{◌≡◌, ◌↔◌, ◌≢◌, ℕ, List, length, IsTrue, IfSome, IfNone};
ghost use Rattle.certs_basics.specs.bcder_tree.Tags.{generalized_time_tag};
ghost use Rattle.certs_basics.specs.bcder_tree.Tree.{primitive};
ghost use Rattle.certs_basics.specs.Forms.{IsShortMoment, IsShortYear, Tells, WritesTime, length_of, tag_of, with_century_of};
ghost use Rattle.certs_basics.specs.Times.{Civil, IsMoment, IsReal, moment_text};

use crate::time::time::Time;
use bcder::Tag;
use bcder::encode::{self, Octets};
use std::convert::AsSlice;
use std::marker::Model;

/// One of the two forms of a moment.
#[derive(Clone, Copy, Debug, PartialEq, Eq)]
pub enum Form {
    /// UTCTime: YYMMDDHHMMSSZ.
    Utc,
    /// GeneralizedTime: YYYYMMDDHHMMSSZ.
    Generalized,
}

impl Form {
    /// The tag of values of the form.
    pub fn tag(self) -> Tag
        ensures { result ≡ tag_of self }
    {
        match self {
            Form::Utc => Tag::UTC_TIME,
            Form::Generalized => Tag::GENERALIZED_TIME,
        }
    }

    /// How many octets a text has.
    pub fn len(self) -> usize
        ensures { result ≡ length_of self }
    {
        match self {
            Form::Utc => 13,
            Form::Generalized => 15,
        }
    }

    /// The moment that a text states, if it states one.
    pub fn moment(self, text: &[u8]) -> Option<Time>
        ensures found { IfSome result (λ t. Tells self text.now t) }
        ensures none { IfNone result ((seconds : ℕ) → Tells self text.now seconds → ⊥) }
    {
        match self {
            Form::Utc => Time::from_utc_text(text),
            Form::Generalized => Time::from_generalized(text),
        }
    }
}

// A text of 13 octets with the century of its year in front: 50 to 99 are of the years 1950 to 1999.
fn with_century(text: &[u8]) -> Option<[u8; 15]>
    ensures some { IfSome result (λ whole. whole ≡ with_century_of text.now) }
    ensures none { IfNone result (length text.now ≢ 13) }
{
    let [y, z, a, b, c, d, e, f, g, h, i, j, k] = *text else {
        return None;
    };
    let [first, second] = if y < b'5' { *b"20" } else { *b"19" };
    Some([first, second, y, z, a, b, c, d, e, f, g, h, i, j, k])
}

// Whether the year of a moment, by its text, is one of 1950 to 2049.
fn is_short_year(whole: &[u8; 15]) -> bool
    ensures { (c : Civil) → IsReal c → whole.now ≡ moment_text c
        → (IsTrue result ↔ IsShortYear c.year) }
{
    match (whole[0], whole[1]) {
        (b'1', b'9') => whole[2] >= b'5',
        (b'2', b'0') => whole[2] < b'5',
        _ => false,
    }
}

impl Time {
    /// The moment that a text YYMMDDHHMMSSZ states (RFC 5280 4.1.2.5.1), if it states one: a year 50 to 99 is one of
    /// 1950 to 1999, and 00 to 49 one of 2000 to 2049.
    pub fn from_utc_text(text: &[u8]) -> Option<Time>
        ensures found { IfSome result (λ t. IsShortMoment text.now t) }
        ensures none { IfNone result ((seconds : ℕ) → IsShortMoment text.now seconds → ⊥) }
    {
        let whole = with_century(text)?;
        Time::from_generalized(&whole)
    }

    /// What is written of the moment: UTCTime from 1950 through 2049, and GeneralizedTime before and after
    /// (RFC 5280 4.1.2.5).
    pub fn encode_varied(self) -> VariedTime
        ensures { WritesTime self (primitive result.tag result.content.0) }
    {
        let whole = self.generalized();
        let form = if is_short_year(&whole) {
            Form::Utc
        } else {
            Form::Generalized
        };
        let tag = form.tag();
        encode::Primitive {
            tag,
            content: Octets(TimeText { whole, form }),
        }
    }

    /// The moment as a GeneralizedTime, whatever its year (RFC 5280 4.1.2.5.2).
    pub fn encode_generalized_time(self) -> GeneralizedTime
        ensures tag { result.tag ≡ generalized_time_tag }
        ensures text { IsMoment result.content.0 self }
    {
        encode::Primitive {
            tag: Tag::GENERALIZED_TIME,
            content: Octets(self.generalized()),
        }
    }
}

/// What is written of a moment, in the form that its year wants.
pub type VariedTime = encode::Primitive<Octets<TimeText>>;

/// What is written of a moment as a GeneralizedTime.
pub type GeneralizedTime = encode::Primitive<Octets<[u8; 15]>>;

/// The text of a moment in one of its forms. Contracts see its octets.
#[derive(Debug, Drop)]
pub struct TimeText {
    // The text in GeneralizedTime.
    whole: [u8; 15],
    form: Form,
}

impl Model for TimeText {
    ghost use Rattle.std.specs.Prelude.{List, ℕ};
    ghost use Rattle.certs_basics.specs.Forms.{text_in};

    ghost Value = { List ℕ };

    ghost view = { λ t. text_in t.form t.whole };
}

impl AsSlice<u8> for TimeText {
    ghost items = { λ t. t };

    fn as_slice(&self) -> &[u8] {
        let whole = self.whole.as_slice();
        match self.form {
            Form::Utc => whole.split_at(2).1,
            Form::Generalized => whole,
        }
    }
}
