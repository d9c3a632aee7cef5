//! Serial numbers that are printed.

ghost use Rattle.std.specs.Prelude.{◌≡◌, ◌<◌, ◌≤◌, ◌/◌, ◌%◌, ◌^◌, Some, drop};
ghost use Rattle.std.specs.Fmt.{decimal};

use crate::serial::Serial;
use std::{fmt, str};

// How many decimal digits the greatest serial number has, 2^160 - 1.
const DIGITS: usize = 49;

// 2^64, how many numbers half of the lowest 128 bits has.
const HALF: u128 = 1 << 64;

impl Serial {
    // The number without its last decimal digit, and that digit.
    fn split_last(self) -> (Serial, u8)
        ensures front { result.0 ≡ self / 10 }
        ensures last { result.1 ≡ self % 10 }
        ensures below { self < 2 ^ 160 }
    {
        let (high, low) = self.halves();
        let upper = u128::from(high % 10) * HALF + low / HALF;
        let lower = upper % 10 * HALF + low % HALF;
        let front = Serial::from_halves(high / 10, upper / 10 * HALF + lower / 10);
        (front, (lower % 10) as u8)
    }

    // The decimal digits, and where they begin.
    fn decimal_digits(self) -> ([u8; DIGITS], usize)
        ensures digits { drop result.1 result.0 ≡ decimal self }
        ensures begin { result.1 ≤ 49 }
        ensures below { self < 2 ^ 160 }
    {
        let mut digits = [b'0'; DIGITS];
        let mut begin = DIGITS;
        let mut rest = self;
        loop {
            let (front, last) = rest.split_last();
            begin -= 1;
            digits[begin] = b'0' + last;
            if front.is_zero() {
                return (digits, begin);
            }
            rest = front;
        }
    }
}

/// The number in decimal digits.
impl fmt::Display for Serial {
    ghost output = { λ n. Some (decimal n) };

    fn fmt<W: fmt::Write>(&self, f: &mut fmt::Formatter<W>) -> fmt::Result {
        let (digits, begin) = (*self).decimal_digits();
        let (_, digits) = digits.as_slice().split_at(begin);
        let Ok(text) = str::from_utf8(digits) else {
            unreachable!();
        };
        f.write_str(text)
    }
}
