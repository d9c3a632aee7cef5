//! The octets that a signer signs.

ghost use Rattle.std.specs.Prelude.{ℕ, List, IfOk, MatchOption};
ghost use Rattle.objects_cms.specs.objects_payload.ObjectText.{IsSignedMessage, signer_of};
ghost use Rattle.objects_cms.specs.Signer.{signer_fields};

use crate::signed::SignerInfo;
use bcder_tree::Length;
use std::alloc::{AllocError, Global};

// The identifier octet of a SET (X.690 8.11, X.680 8.6).
const SET: u8 = 0x31;

// The most octets of a content that four length octets can tell (X.690 8.1.3.5).
const MAX_LEN: usize = 0xFFFF_FFFF;

/// What the signer signed: its attributes as they stood, as a SET in place of `[0]`, with the shortest length (RFC 5652
/// 5.4). `None` where no length states so many octets, more than 2^32 - 1.
pub fn signed_message(alloc: Global, signer: &SignerInfo) -> Result<Option<Vec<u8>>, AllocError>
    ensures { IfOk result (λ found. MatchOption found
        ((m : List ℕ) → IsSignedMessage (signer_of (signer_fields signer.now)) m → ⊥)
        (λ message. IsSignedMessage (signer_of (signer_fields signer.now)) message.items)) }
{
    let octets = signer.attributes().as_slice();
    if octets.len() > MAX_LEN {
        return Ok(None);
    }
    let (size, count) = Length::encoded(octets.len());
    let mut message = Vec::with_capacity(alloc, 1 + count + octets.len())?;
    message.push(SET)?;
    message.extend_from_slice(&size[..count])?;
    message.extend_from_slice(octets)?;
    Ok(Some(message))
}
