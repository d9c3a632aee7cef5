//! Serial numbers (RFC 5280 4.1.2.2).

ghost use Rattle.std.specs.Prelude.{◌≡◌, ◌+◌, ◌*◌, ◌^◌, ◌<◌, ◌≤◌, ◌↔◌, IfErr, IfNone, IfOk, IfSome, IsTrue};
ghost use Rattle.certs_name.specs.bcder_tree.Integers.{number_of};

use certs_basics::int::OverflowError;
use std::marker::Model;

// 2^120: what a number of 128 bits may have below one more octet.
const TOP_OCTET: u128 = 1 << 120;

/// The serial number of a certificate, or the number of a manifest or revocation list: from 0 up, below 2^160
/// (RFC 5280 4.1.2.2). Contracts see the number.
#[derive(Clone, Copy, Debug)]
pub struct Serial {
    // The bits above the lowest 128.
    high: u32,
    // The lowest 128 bits.
    low: u128,
}

impl Model for Serial {
    ghost use Rattle.std.specs.Prelude.{ℕ, ◌+◌, ◌*◌, ◌/◌, ◌%◌, ◌^◌, ◌<◌};

    ghost Value = { ℕ };

    ghost use Rattle.certs_name.specs.Serials.{halves_again};

    ghost view = { λ s. s.high * 2 ^ 128 + s.low };

    ghost invariant = { λ s. (s.high < 2 ^ 32) × (s.low < 2 ^ 128) };

    ghost inverse = { λ n. record { high = n / 2 ^ 128; low = n % 2 ^ 128 } };

    ghost inverse_ok = { λ s bounds. halves_again s bounds };
}

impl From<u64> for Serial {
    ghost from_gives = { λ number serial. serial ≡ number };

    fn from(number: u64) -> Serial {
        Serial {
            high: 0,
            low: u128::from(number),
        }
    }
}

impl Serial {
    /// The number that octets are in base 256, the most significant first; zeros in front count nothing, and no octets
    /// are 0. Refused where it isn't below 2^160.
    pub fn from_slice(octets: &[u8]) -> Result<Serial, OverflowError>
        ensures given { IfOk result (λ n. number_of octets.now ≡ n) }
        ensures refused { IfErr result (λ _. 2 ^ 160 ≤ number_of octets.now) }
    {
        let mut serial = Serial::from(0u64);
        for octet in octets {
            let Some(longer) = serial.followed_by(*octet) else {
                return Err(OverflowError);
            };
            serial = longer;
        }
        Ok(serial)
    }

    // The number with one more octet after it, if it is below 2^160.
    fn followed_by(self, octet: u8) -> Option<Serial>
        ensures some { IfSome result (λ n. n ≡ self * 256 + octet) }
        ensures none { IfNone result (2 ^ 160 ≤ self * 256 + octet) }
    {
        if self.high >= 1 << 24 {
            return None;
        }
        Some(Serial {
            high: self.high * 256 + (self.low / TOP_OCTET) as u32,
            low: self.low % TOP_OCTET * 256 + u128::from(octet),
        })
    }

    // The number with these upper bits above these lowest 128.
    pub(crate) fn from_halves(high: u32, low: u128) -> Serial
        ensures { result ≡ high * 2 ^ 128 + low }
    {
        Serial { high, low }
    }

    // Whether it is 0.
    pub(crate) fn is_zero(self) -> bool
        ensures { IsTrue result ↔ (self ≡ 0) }
    {
        self.high == 0 && self.low == 0
    }

    // The upper bits, and the lowest 128.
    pub(crate) fn halves(self) -> (u32, u128)
        ensures value { result.0 * 2 ^ 128 + result.1 ≡ self }
        ensures low { result.1 < 2 ^ 128 }
        ensures high { result.0 < 2 ^ 32 }
    {
        (self.high, self.low)
    }
}
