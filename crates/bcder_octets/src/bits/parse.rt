//! Which octets are the content of a bit string.
ghost use Rattle.std.specs.Prelude.{◌≡◌, ◌↔◌, ◌<◌, ◌%◌, ◌^◌, IsTrue};
ghost use Rattle.bcder_octets.specs.Bits.{IsBits};
ghost use Rattle.bcder_octets.specs.BitContents.{IsAnyBits, IsPadded, IsShortIn, last_octet};

use crate::bcder_tree::Mode;

/// How many content octets a bit string has at most in CER (X.690 9.2).
pub(crate) const MAX_CER_LEN: usize = 1000;

// Whether so many bits may be unused (8.6.2.2, 8.6.2.3).
fn is_lawful(unused: u8, octets: &[u8]) -> bool
    ensures { IsTrue result ↔ IsBits (record { unused = unused; octets = octets.now }) }
{
    if octets.is_empty() {
        return unused == 0;
    }
    unused < 8
}

// Whether the unused bits of the last octet are zero.
fn is_clear(unused: u8, octets: &[u8]) -> bool
    requires { unused < 8 }
    ensures { IsTrue result ↔ (last_octet octets.now % 2 ^ unused ≡ 0) }
{
    let Some((last, _)) = octets.split_last() else {
        return true;
    };
    *last % (1 << unused) == 0
}

// Whether the unused bits are as the mode has them (11.2.1).
fn is_padded(mode: Mode, unused: u8, octets: &[u8]) -> bool
    requires { unused < 8 }
    ensures { IsTrue result ↔ IsPadded mode (record { unused = unused; octets = octets.now }) }
{
    match mode {
        Mode::Ber => true,
        Mode::Cer | Mode::Der => is_clear(unused, octets),
    }
}

// Whether a primitive value may have as many content octets (9.2).
fn is_short(mode: Mode, content: &[u8]) -> bool
    ensures { IsTrue result ↔ IsShortIn mode content.now }
{
    match mode {
        Mode::Cer => content.len() <= MAX_CER_LEN,
        Mode::Ber | Mode::Der => true,
    }
}

/// Whether these are the content octets of a bit string.
pub(crate) fn is_content(mode: Mode, content: &[u8]) -> bool
    ensures { IsTrue result ↔ IsAnyBits mode content.now tt }
{
    let Some((unused, octets)) = content.split_first() else {
        return false;
    };
    is_lawful(*unused, octets) && is_padded(mode, *unused, octets) && is_short(mode, content)
}
