//! Moments, by jiff's calendar.

ghost use Rattle.std.specs.Prelude.{◌≡◌, ℕ, ◌<◌, ◌*◌, IfSome, IfNone, SomeIff, List, [], ◌∷◌};
ghost use Rattle.certs_basics.specs.Periods.{IsLater, IsTimeNumber};
ghost use Rattle.certs_basics.specs.Pairs.{IsPairs, pair_text};
ghost use Rattle.certs_basics.specs.Times.{digits};

use jiff_core::civil::Date;
use std::marker::Model;

// How many seconds the years 0000 to 9999 have: 3,652,425 days.
const TIME_END: u64 = 315_569_520_000;

/// A moment, to seconds, in the years 0000 to 9999.
#[derive(Clone, Copy, Debug, PartialEq, Eq, PartialOrd, Ord, Hash)]
pub struct Time {
    // Seconds since 0000-01-01 00:00:00.
    seconds: u64,
}

impl Model for Time {
    ghost use Rattle.std.specs.Prelude.{ℕ, ◌<◌};

    ghost Value = { ℕ };

    ghost view = { λ t. t.seconds };

    ghost invariant = { λ t. t.seconds < 315_569_520_000 };

    ghost inverse = { λ n. record { seconds = n } };
}

impl Time {
    ghost use Rattle.certs_basics.specs.Times.{IsReal, IsMoment, seconds_of};

    /// The moment with these parts in UTC, if the calendar has it: a year to 9999, a month and a day of it, counted
    /// from 1, an hour to 23, and minute and second to 59.
    pub fn utc(year: u16, month: u8, day: u8, hour: u8, minute: u8, second: u8) -> Option<Time>
        ensures { SomeIff result
            (IsReal
            (record {
              year = year;
              month = month;
              day = day;
              hour = hour;
              minute = minute;
              second = second;
            }))
            (seconds_of
            (record {
              year = year;
              month = month;
              day = day;
              hour = hour;
              minute = minute;
              second = second;
            })) }
    {
        if year >= 10_000
            || month > 127
            || day > 127
            || hour >= 24
            || minute >= 60
            || second >= 60
        {
            return None;
        }
        let Ok(date) = Date::new(year as i16, month as i8, day as i8) else {
            return None;
        };
        let days = u64::from(date.days_since_min() - Date::ZERO.days_since_min());
        let minutes = u64::from(hour) * 60 + u64::from(minute);
        Some(Time {
            seconds: days * 86_400 + minutes * 60 + u64::from(second),
        })
    }

    /// The moment that a text YYYYMMDDHHMMSSZ states (RFC 5280 4.1.2.5.2), if it states one.
    pub fn from_generalized(text: &[u8]) -> Option<Time>
        ensures found { IfSome result (λ t. IsMoment text.now t) }
        ensures none { IfNone result ((seconds : ℕ) → IsMoment text.now seconds → ⊥) }
    {
        let [century, year, month, day, hour, minute, second] = pairs(text)?;
        let year = u16::from(century) * 100 + u16::from(year);
        Time::utc(year, month, day, hour, minute, second)
    }

    /// The moment so many seconds later, or earlier where the number is negative, if the years 0000 to 9999 have it.
    pub fn moved(self, seconds: i64) -> Option<Time>
        ensures some { IfSome result (λ then. IsLater self seconds then) }
        ensures none { IfNone result
            ((then : ℕ) → IsLater self seconds then → IsTimeNumber then → ⊥) }
    {
        let then = self.seconds.checked_add_signed(seconds)?;
        if then >= TIME_END {
            return None;
        }
        Some(Time { seconds: then })
    }

    /// The text YYYYMMDDHHMMSSZ of the moment.
    pub fn generalized(self) -> [u8; 15]
        ensures { IsMoment result self }
    {
        let days = (self.seconds / 86_400) as u32;
        let second = (self.seconds % 86_400) as u32;
        let date = Date::from_days_since_min(Date::ZERO.days_since_min() + days);
        let year = date.year.unsigned_abs();
        pair_digits([
            (year / 100) as u8,
            (year % 100) as u8,
            date.month,
            date.day,
            (second / 3600) as u8,
            (second / 60 % 60) as u8,
            (second % 60) as u8,
        ])
    }
}

// The seven numbers of a text that has two digits for each, and then a `Z`.
fn pairs(text: &[u8]) -> Option<[u8; 7]>
    ensures found { IfSome result (λ numbers. IsPairs text.now numbers) }
    ensures none { IfNone result ((numbers : List ℕ) → IsPairs text.now numbers → ⊥) }
{
    if text.len() != 15 || text[14] != b'Z' {
        return None;
    }
    let mut numbers = [0; 7];
    for (i, number) in numbers.iter_mut().enumerate() {
        *number = two_digits(text[2 * i], text[2 * i + 1])?;
    }
    Some(numbers)
}

// The number below 100 with these digits.
fn two_digits(a: u8, b: u8) -> Option<u8>
    ensures found { IfSome result (λ n. (n < 100) × (digits 2 n ≡ a ∷ b ∷ [])) }
    ensures none { IfNone result ((n : ℕ) → digits 2 n ≡ a ∷ b ∷ [] → ⊥) }
{
    if !a.is_ascii_digit() || !b.is_ascii_digit() {
        return None;
    }
    Some((a - b'0') * 10 + (b - b'0'))
}

// The last two digits of each number, and then a `Z`.
fn pair_digits(numbers: [u8; 7]) -> [u8; 15]
    ensures { result ≡ pair_text numbers }
{
    let mut text = [b'Z'; 15];
    for (i, number) in numbers.iter().enumerate() {
        text[2 * i] = b'0' + *number / 10 % 10;
        text[2 * i + 1] = b'0' + *number % 10;
    }
    text
}
