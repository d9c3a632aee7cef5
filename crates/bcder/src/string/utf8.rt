//! Characters in UTF-8 (RFC 3629 3).
ghost use Rattle.std.specs.Prelude.{◌≡◌, ◌≤◌, ℕ, List, length, take, encode_utf8, IsUtf8, IfSome, IfNone};
ghost use Rattle.bcder.specs.Sets.{IsUnicode};
ghost use Rattle.bcder.specs.Texts.{Starts};

// The longest front of the octets that is UTF-8.
fn valid_front(octets: &[u8]) -> &str
    ensures utf8 { IsUtf8 result.now }
    ensures front { result.now ≡ take (length result.now) octets.now }
    ensures longest { (n : ℕ) → n ≤ length octets.now → IsUtf8 (take n octets.now)
        → n ≤ length result.now }
{
    let error = match str::from_utf8(octets) {
        Ok(text) => return text,
        Err(error) => error,
    };
    match str::from_utf8(&octets[..error.valid_up_to()]) {
        Ok(text) => text,
        Err(_) => "",
    }
}

/// The character in front of octets, and how many octets it has; none where no character is in front.
pub(crate) fn first_char(octets: &[u8]) -> Option<(char, usize)>
    ensures found { IfSome result
        (λ p. (behind : List ℕ) × Starts IsUnicode encode_utf8 octets.now p.0 behind) }
    ensures len { IfSome result (λ p. p.1 ≡ length (encode_utf8 p.0)) }
    ensures none { IfNone result
        ((c : ℕ) (behind : List ℕ) → Starts IsUnicode encode_utf8 octets.now c behind → ⊥) }
{
    let few = octets.len().min(4);
    let front = valid_front(&octets[..few]);
    let first = front.chars().next()?;
    Some((first, first.len_utf8()))
}
