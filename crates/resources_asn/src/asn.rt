//! AS numbers.

ghost use Rattle.std.specs.Prelude.{◌≡◌, ℕ, ◌+◌, ◌≤◌, ◌++◌, ◌↔◌, codes, Some};
ghost use Rattle.std.specs.Fmt.{decimal};
ghost use Rattle.std.specs.Int.{w32, to_be_bytes};
ghost use Rattle.resources_asn.specs.Numbers.{last_number};
ghost use Rattle.resources_asn.specs.Texts.{IsDigitText, IsAsnText, Reads};

use std::error::Error;
use std::fmt;
use std::marker::Model;
use std::ops::Add;
use std::str::FromStr;

/// An AS number: a number of 32 bits (RFC 6793 section 3, RFC 3779 section 3.2.3.9).
#[derive(Clone, Copy, Debug, PartialEq, Eq, PartialOrd, Ord, Hash)]
pub struct Asn {
    number: u32,
    ghost in_range: { number ≤ last_number },
}

impl Model for Asn {
    ghost use Rattle.resources_asn.specs.Numbers.{Number, number_code};

    ghost Value = { Number };

    ghost coded = { number_code };

    ghost view = { λ a. record { value = a.number; in_range = a.in_range } };

    ghost inverse = { λ n. record { number = n.value; in_range = n.in_range } };
}

impl Asn {
    /// The smallest AS number: 0.
    pub const MIN: Asn = Asn { number: 0 };

    /// The largest AS number: 4,294,967,295, which is 2^32 - 1.
    pub const MAX: Asn = Asn { number: u32::MAX };

    /// The AS number with this value.
    pub fn from_u32(value: u32) -> Self
        ensures { result.value ≡ value }
    {
        Asn { number: value }
    }

    /// The value of the AS number.
    pub fn into_u32(self) -> u32
        ensures { result ≡ self.value }
    {
        self.number
    }

    /// The value of the AS number in four octets, the most significant first.
    pub fn to_raw(self) -> [u8; 4]
        ensures { result ≡ to_be_bytes w32 self.value }
    {
        self.into_u32().to_be_bytes()
    }
}

impl From<u32> for Asn {
    ghost from_gives = { λ n a. a.value ≡ n };

    fn from(value: u32) -> Self {
        Asn::from_u32(value)
    }
}

impl From<Asn> for u32 {
    ghost from_gives = { λ a n. n ≡ a.value };

    fn from(asn: Asn) -> u32 {
        asn.into_u32()
    }
}

/// The AS number that is that much greater; the sum has to be an AS number.
impl Add<u32> for Asn {
    type Output = Asn;

    ghost can_add = { λ a n. a.value + n ≤ last_number };

    ghost add_gives = { λ a n b. b.value ≡ a.value + n };

    fn add(self, more: u32) -> Asn {
        Asn::from_u32(self.into_u32() + more)
    }
}

/// `AS` and the number in decimal digits.
impl fmt::Display for Asn {
    ghost output = { λ a. Some (codes "AS" ++ decimal a.value) };

    fn fmt<W: fmt::Write>(&self, f: &mut fmt::Formatter<W>) -> fmt::Result {
        let number = self.into_u32();
        write!(f, "AS{number}")
    }
}

/// Reads decimal digits (RFC 5396 section 2), with or without `AS` in any case in front of them; zeros or one plus may
/// stand before the digits. No other text is read.
impl FromStr for Asn {
    type Err = ParseAsnError;

    ghost from_str_gives = { Reads };

    fn from_str(text: &str) -> Result<Self, ParseAsnError> {
        match digits_of(text).parse::<u32>() {
            Ok(number) => Ok(Asn::from_u32(number)),
            Err(_) => Err(ParseAsnError),
        }
    }
}

/// What comes after `AS`, in any case; all of a text that doesn't begin so.
fn digits_of(text: &str) -> &str
    ensures { (n : ℕ) → IsAsnText text.now n ↔ IsDigitText result.now n }
{
    let Some((front, digits)) = text.split_at_checked(2) else {
        return text;
    };
    if front.eq_ignore_ascii_case("AS") {
        digits
    } else {
        text
    }
}

/// A text isn't that of an AS number.
#[derive(Clone, Copy, Debug, PartialEq, Eq, Hash)]
pub struct ParseAsnError;

impl fmt::Display for ParseAsnError {
    ghost output = { λ _. Some (codes "invalid AS number") };

    fn fmt<W: fmt::Write>(&self, f: &mut fmt::Formatter<W>) -> fmt::Result {
        write!(f, "invalid AS number")
    }
}

impl Error for ParseAsnError {}
