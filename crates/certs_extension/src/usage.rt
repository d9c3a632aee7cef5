//! Key usage (RFC 6487 4.8.4).

ghost use Rattle.std.specs.Prelude.{◌≡◌, ◌↔◌, true, IsTrue, MatchOption, OnErr};
ghost use Rattle.certs_extension.specs.bcder_content.Exact.{ReadsAs};
ghost use Rattle.certs_extension.specs.bcder_content.Here.{here};
ghost use Rattle.certs_extension.specs.declared.forms.KeyUsage.{KeyUsage as Usage};
ghost use Rattle.certs_extension.specs.Extensions.{UsageBits};
ghost use Rattle.certs_extension.specs.bcder_octets.BitContents.{bit_string_tag};
ghost use Rattle.certs_extension.specs.Usages.{usage_octets};
ghost use Rattle.certs_extension.specs.Values.{IsUsage};

use crate::forms::KeyUsage;
use certs_key::decode::{Constructed, ContentError, DecodeError, Source};
use certs_key::encode::{Octets, Primitive};
use certs_key::{BitString, Tag};
use std::alloc::Global;
use std::convert::Infallible;

/// A key usage as a value that can be written.
pub type KeyUsageValue = Primitive<Octets<&'static [u8]>>;

/// A key usage, written.
pub trait EncodeUsage: Sized {
    // The key usage.
    ghost usage: { Self → Usage };

    /// The BIT STRING of the usage: `03 02 01 06` for `Ca`, keyCertSign and cRLSign, and `03 02 07 80` for `Ee`,
    /// digitalSignature alone (RFC 6487 4.8.4).
    fn encode(self) -> KeyUsageValue
        ensures tag { result.tag ≡ bit_string_tag }
        ensures octets { result.content.0.now ≡ usage_octets (usage self) };
}

impl EncodeUsage for KeyUsage {
    ghost usage = { λ u. u };

    fn encode(self) -> KeyUsageValue {
        Primitive {
            tag: Tag::BIT_STRING,
            content: Octets(octets_of(self)),
        }
    }
}

// The content octets of a usage: how many bits are unused, and then the bits.
fn octets_of(usage: KeyUsage) -> &'static [u8]
    ensures { result.now ≡ usage_octets usage }
{
    match usage {
        KeyUsage::Ca => &[1, 6],
        KeyUsage::Ee => &[7, 128],
    }
}

// Whether these are the bits.
fn is_bits(bits: &BitString, unused: u8, octets: &[u8]) -> bool
    ensures { IsTrue result ↔ (bits.now ≡ record { unused = unused; octets = octets.now }) }
{
    if bits.unused() != unused {
        return false;
    }
    match bits.octet_slice() {
        Some(found) => found == octets,
        None => false,
    }
}

// What the bits say: keyCertSign and cRLSign, or digitalSignature alone.
fn usage_of(bits: &BitString) -> Option<KeyUsage>
    ensures { MatchOption result ((u : Usage) → ¬ (UsageBits bits.now u)) (UsageBits bits.now) }
{
    if is_bits(bits, 1, &[6]) {
        return Some(KeyUsage::Ca);
    }
    if is_bits(bits, 7, &[128]) {
        return Some(KeyUsage::Ee);
    }
    None
}

// From now on the content is failed.
fn fail<S: Source>(cons: &mut Constructed<S>)
    ensures { (here S.rest cons.new).failed ≡ true }
{
    let refused = cons.take_sequence(|cons| -> Result<Infallible, DecodeError<S::Error>> {
        Err((*cons).content_err(ContentError::from_static("a read was refused before")))
    });
    match refused {
        Ok(never) => match never {},
        Err(_) => {}
    }
}

/// What the key is for: a BIT STRING of keyCertSign and cRLSign, `Ca`, or of digitalSignature alone, `Ee`
/// (RFC 6487 4.8.4). Any other is refused.
pub fn take_key_usage<S: Source>(
    alloc: Global,
    cons: &mut Constructed<S>,
) -> Result<KeyUsage, DecodeError<S::Error>>
    ensures reads { ReadsAs (λ u. u) (IsUsage (here S.rest cons.old).mode)
        (here S.rest cons.old) result (here S.rest cons.new) }
    ensures failed { OnErr result ((here S.rest cons.new).failed ≡ true) }
{
    let bits = BitString::take_from(alloc, cons)?;
    let found = usage_of(&bits);
    let Some(usage) = found else {
        fail(cons);
        return Err((*cons).content_err(ContentError::from_static("another key usage")));
    };
    Ok(usage)
}
